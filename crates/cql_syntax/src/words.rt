//! The words and marks of the query language with their texts and numbers, and the reserved names.
ghost use Rattle.std.specs.Prelude.{◌≡◌, is_some};
ghost use Rattle.std.specs.List.{position, slice_get};
ghost use Rattle.std.specs.Str.{bytes_eq};
ghost use Rattle.cql_syntax.specs.Words.{word_text, plain_text, unary_text, way_text, family_text, sign_text, words, reserved_names, place_of, word_of, marks, sign_of};

use crate::leaves::{Plain, Unary, Way};
use cq_symmetry::Family;

/// A word of the query language.
#[derive(Clone, Copy, PartialEq, Eq)]
pub enum Word {
    Cql,
    Input,
    Output,
    MatchString,
    Variations,
    /// A word that is a filter by itself.
    Plain(Plain),
    Result,
    Player,
    Event,
    Site,
    Elo,
    White,
    Black,
    /// A word before one filter.
    Unary(Unary),
    And,
    Or,
    If,
    Then,
    Else,
    Square,
    All,
    In,
    Line,
    Primary,
    Attacks,
    AttackedBy,
    Between,
    /// A direction.
    Way(Way),
    Max,
    Min,
    /// A family of mappings.
    Family(Family),
    Sort,
    Comment,
    Move,
    From,
    To,
    Capture,
    Promote,
}

/// A mark of the query language.
#[derive(Clone, Copy, PartialEq, Eq)]
pub enum Sign {
    Arrow,
    BackArrow,
    AtMost,
    AtLeast,
    Equal,
    Less,
    Greater,
    Plus,
    Minus,
    Star,
    Question,
    Hash,
    Bar,
    Ampersand,
    Tilde,
    Open,
    Close,
    OpenBrace,
    CloseBrace,
    Comma,
}

impl Word {
    /// Returns the spelling of the word.
    pub fn text(self) -> &'static [u8]
        ensures { result.now ≡ word_text self }
    {
        match self {
            Word::Cql => b"cql",
            Word::Input => b"input",
            Word::Output => b"output",
            Word::MatchString => b"matchstring",
            Word::Variations => b"variations",
            Word::Plain(plain) => plain.text(),
            Word::Result => b"result",
            Word::Player => b"player",
            Word::Event => b"event",
            Word::Site => b"site",
            Word::Elo => b"elo",
            Word::White => b"white",
            Word::Black => b"black",
            Word::Unary(unary) => unary.text(),
            Word::And => b"and",
            Word::Or => b"or",
            Word::If => b"if",
            Word::Then => b"then",
            Word::Else => b"else",
            Word::Square => b"square",
            Word::All => b"all",
            Word::In => b"in",
            Word::Line => b"line",
            Word::Primary => b"primary",
            Word::Attacks => b"attacks",
            Word::AttackedBy => b"attackedby",
            Word::Between => b"between",
            Word::Way(way) => way.text(),
            Word::Max => b"max",
            Word::Min => b"min",
            Word::Family(family) => family_text(family),
            Word::Sort => b"sort",
            Word::Comment => b"comment",
            Word::Move => b"move",
            Word::From => b"from",
            Word::To => b"to",
            Word::Capture => b"capture",
            Word::Promote => b"promote",
        }
    }
}

impl Plain {
    // The spelling of the word.
    fn text(self) -> &'static [u8]
        ensures { result.now ≡ plain_text self }
    {
        match self {
            Plain::Check => b"check",
            Plain::Mate => b"mate",
            Plain::Stalemate => b"stalemate",
            Plain::Wtm => b"wtm",
            Plain::Btm => b"btm",
            Plain::Initial => b"initial",
            Plain::Terminal => b"terminal",
            Plain::Mainline => b"mainline",
            Plain::Variation => b"variation",
            Plain::HasComment => b"hascomment",
            Plain::Ply => b"ply",
            Plain::MoveNumber => b"movenumber",
            Plain::Depth => b"depth",
            Plain::Year => b"year",
        }
    }
}

impl Unary {
    // The spelling of the word.
    fn text(self) -> &'static [u8]
        ensures { result.now ≡ unary_text self }
    {
        match self {
            Unary::Not => b"not",
            Unary::Complement => Sign::Tilde.text(),
            Unary::Count => Sign::Hash.text(),
            Unary::Power => b"power",
            Unary::Light => b"light",
            Unary::Dark => b"dark",
            Unary::Find => b"find",
            Unary::FindUp => b"find<--",
            Unary::Child => b"child",
            Unary::Parent => b"parent",
        }
    }
}

impl Way {
    // The spelling of the word.
    fn text(self) -> &'static [u8]
        ensures { result.now ≡ way_text self }
    {
        match self {
            Way::Up => b"up",
            Way::Down => b"down",
            Way::Left => b"left",
            Way::Right => b"right",
            Way::Northeast => b"northeast",
            Way::Northwest => b"northwest",
            Way::Southeast => b"southeast",
            Way::Southwest => b"southwest",
            Way::Diagonal => b"diagonal",
            Way::Orthogonal => b"orthogonal",
            Way::AnyDirection => b"anydirection",
        }
    }
}

// The spelling of a family's word.
fn family_text(family: Family) -> &'static [u8]
    ensures { result.now ≡ family_text family }
{
    match family {
        Family::Flip => b"flip",
        Family::Rotate90 => b"rotate90",
        Family::FlipVertical => b"flipvertical",
        Family::FlipHorizontal => b"fliphorizontal",
        Family::FlipColor => b"flipcolor",
        Family::Shift => b"shift",
        Family::ShiftHorizontal => b"shifthorizontal",
        Family::ShiftVertical => b"shiftvertical",
    }
}

impl Sign {
    /// Returns the spelling of the mark.
    pub fn text(self) -> &'static [u8]
        ensures { result.now ≡ sign_text self }
    {
        match self {
            Sign::Arrow => b"-->",
            Sign::BackArrow => b"<--",
            Sign::AtMost => b"<=",
            Sign::AtLeast => b">=",
            Sign::Equal => b"==",
            Sign::Less => b"<",
            Sign::Greater => b">",
            Sign::Plus => b"+",
            Sign::Minus => b"-",
            Sign::Star => b"*",
            Sign::Question => b"?",
            Sign::Hash => b"#",
            Sign::Bar => b"|",
            Sign::Ampersand => b"&",
            Sign::Tilde => b"~",
            Sign::Open => b"(",
            Sign::Close => b")",
            Sign::OpenBrace => b"{",
            Sign::CloseBrace => b"}",
            Sign::Comma => b",",
        }
    }
}

// The words in order. The number of a word is its place in this list, from 0.
const WORDS: [Word; 74] = [
    Word::Cql,
    Word::Input,
    Word::Output,
    Word::MatchString,
    Word::Variations,
    Word::Plain(Plain::Check),
    Word::Plain(Plain::Mate),
    Word::Plain(Plain::Stalemate),
    Word::Plain(Plain::Wtm),
    Word::Plain(Plain::Btm),
    Word::Plain(Plain::Initial),
    Word::Plain(Plain::Terminal),
    Word::Plain(Plain::Mainline),
    Word::Plain(Plain::Variation),
    Word::Plain(Plain::HasComment),
    Word::Plain(Plain::Ply),
    Word::Plain(Plain::MoveNumber),
    Word::Plain(Plain::Depth),
    Word::Plain(Plain::Year),
    Word::Result,
    Word::Player,
    Word::Event,
    Word::Site,
    Word::Elo,
    Word::White,
    Word::Black,
    Word::Unary(Unary::Not),
    Word::And,
    Word::Or,
    Word::If,
    Word::Then,
    Word::Else,
    Word::Square,
    Word::All,
    Word::In,
    Word::Unary(Unary::Find),
    Word::Unary(Unary::Child),
    Word::Unary(Unary::Parent),
    Word::Line,
    Word::Primary,
    Word::Attacks,
    Word::AttackedBy,
    Word::Between,
    Word::Unary(Unary::Light),
    Word::Unary(Unary::Dark),
    Word::Way(Way::Up),
    Word::Way(Way::Down),
    Word::Way(Way::Left),
    Word::Way(Way::Right),
    Word::Way(Way::Northeast),
    Word::Way(Way::Northwest),
    Word::Way(Way::Southeast),
    Word::Way(Way::Southwest),
    Word::Way(Way::Diagonal),
    Word::Way(Way::Orthogonal),
    Word::Way(Way::AnyDirection),
    Word::Unary(Unary::Power),
    Word::Max,
    Word::Min,
    Word::Family(Family::Flip),
    Word::Family(Family::Rotate90),
    Word::Family(Family::FlipVertical),
    Word::Family(Family::FlipHorizontal),
    Word::Family(Family::FlipColor),
    Word::Family(Family::Shift),
    Word::Family(Family::ShiftHorizontal),
    Word::Family(Family::ShiftVertical),
    Word::Sort,
    Word::Comment,
    Word::Move,
    Word::From,
    Word::To,
    Word::Capture,
    Word::Promote,
];

// The marks in order. The number of a mark is its place in this list, from 0.
const MARKS: [Sign; 20] = [
    Sign::Arrow,
    Sign::BackArrow,
    Sign::AtMost,
    Sign::AtLeast,
    Sign::Equal,
    Sign::Less,
    Sign::Greater,
    Sign::Plus,
    Sign::Minus,
    Sign::Star,
    Sign::Question,
    Sign::Hash,
    Sign::Bar,
    Sign::Ampersand,
    Sign::Tilde,
    Sign::Open,
    Sign::Close,
    Sign::OpenBrace,
    Sign::CloseBrace,
    Sign::Comma,
];

// Names that a query may not use.
const RESERVED: [&str; 29] = [
    "echo",
    "loop",
    "while",
    "function",
    "persistent",
    "dictionary",
    "string",
    "message",
    "ray",
    "pin",
    "xray",
    "rotate45",
    "virtualmainline",
    "makesquare",
    "colortype",
    "type",
    "piece",
    "distance",
    "legal",
    "pseudolegal",
    "passedpawns",
    "isolatedpawns",
    "silent",
    "quiet",
    "gamenumber",
    "nestban",
    "singlecolor",
    "lastposition",
    "firstmatch",
];

// The entry at a place of a table.
fn entry_at<T: Copy>(table: &[T], place: usize) -> Option<T>
    ensures { result ≡ slice_get table.now place }
{
    let entry = table.get(place)?;
    Some(*entry)
}

// The place of the word that is spelled so.
fn word_place(table: &[Word], text: &[u8]) -> Option<usize>
    ensures { result ≡ position (λ word. bytes_eq (word_text word) text.now) table.now }
{
    table.iter().position(|word| word.text() == text)
}

// The place of the mark that is spelled so.
fn sign_place(table: &[Sign], text: &[u8]) -> Option<usize>
    ensures { result ≡ position (λ sign. bytes_eq (sign_text sign) text.now) table.now }
{
    table.iter().position(|sign| sign.text() == text)
}

/// Returns the number of the word that is spelled so.
pub fn word_number(text: &[u8]) -> Option<u16>
    ensures { result ≡ place_of text.now words }
{
    Some(word_place(WORDS.as_slice(), text)? as u16)
}

/// Returns the word of a number.
#[tactic(auto, unfolding(crate::specs::Words::word_of))]
pub fn word_of(number: u16) -> Option<Word>
    ensures { result ≡ word_of number }
{
    entry_at(WORDS.as_slice(), usize::from(number))
}

/// Returns the number of the mark that is spelled so.
pub fn mark_number(text: &[u8]) -> Option<u8>
    ensures { result ≡ place_of text.now marks }
{
    Some(sign_place(MARKS.as_slice(), text)? as u8)
}

/// Returns the mark of a number.
#[tactic(auto, unfolding(crate::specs::Words::sign_of))]
pub fn sign_of(number: u8) -> Option<Sign>
    ensures { result ≡ sign_of number }
{
    entry_at(MARKS.as_slice(), usize::from(number))
}

// The place of a text among the names.
fn place_among(names: &[&str], text: &[u8]) -> Option<usize>
    ensures { result ≡ position (λ name. bytes_eq name.now text.now) names.now }
{
    names.iter().position(|name| name.as_bytes() == text)
}

/// Returns true if a text is a reserved name.
pub fn is_reserved(text: &[u8]) -> bool
    ensures { result ≡ is_some (place_of text.now reserved_names) }
{
    place_among(RESERVED.as_slice(), text).is_some()
}
