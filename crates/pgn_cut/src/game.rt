//! A game that is being cut: its progress by the lexemes so far.
ghost use Rattle.std.specs.Prelude.{◌≡◌, ◌+◌, ◌<◌, ◌≤◌, ◌^◌, ◌++◌, ◌||◌, ◌&&◌, ◌==◌, not, ℕ, List, [], ◌∷◌, length};
ghost use Rattle.std.specs.Option.{option_to_list};
ghost use Rattle.pgn_lexer.specs.Lexemes.{Lexeme as ALexeme};
ghost use Rattle.pgn_cut.specs.Cut.{is_result, marks, nest, opens_pair, is_movetext, is_passed_over, opens, cut_from};
ghost use Rattle.pgn_cut.specs.Internal.PairRuns.{passes_pairs};
ghost use Rattle.pgn_cut.specs.Internal.WordRuns.{passes_words};
ghost use Rattle.pgn_cut.specs.Progress.{begins_at, progress_of, span_from, IsStepOfCut, IsViewOf};

use crate::span::Span;
use pgn_lexer::{LexemeKind, TokenKind};

/// The beginning of a game.
#[derive(Clone, Copy)]
pub(crate) struct Start {
    at: u64,
    first: bool,
}

/// The progress of a game by its lexemes so far.
#[derive(Clone, Copy)]
pub(crate) struct OpenGame {
    start: Option<Start>,
    depth: usize,
    in_pair: bool,
    has_movetext: bool,
    has_more: bool,
}

// True if a symbol is the marker of a result.
fn is_result(text: &[u8]) -> bool
    ensures { result ≡ is_result text.now }
{
    text == b"1-0".as_slice() || text == b"0-1".as_slice() || text == b"1/2-1/2".as_slice()
}

/// Returns true if a lexeme of a kind marks the end of a game.
pub(crate) fn marks(kind: LexemeKind, text: &[u8]) -> bool
    ensures { result ≡ marks kind text.now }
{
    match kind {
        LexemeKind::Token(TokenKind::Star) => true,
        LexemeKind::Token(TokenKind::Symbol) => is_result(text),
        _ => false,
    }
}

/// The view that a cut has of a lexeme, whose places count from the archive's first byte.
#[derive(Clone, Copy)]
pub(crate) struct LexemeView {
    pub(crate) at: u64,
    pub(crate) end: u64,
    pub(crate) first: bool,
    pub(crate) kind: LexemeKind,
    pub(crate) marker: bool,
}

// The depth of variations after a lexeme.
fn nest(depth: usize, kind: LexemeKind) -> usize
    requires { depth < 2 ^ 63 }
    ensures value { result ≡ nest depth kind }
    ensures step { result ≤ depth + 1 }
{
    match kind {
        LexemeKind::Token(TokenKind::LeftParen) => depth + 1,
        LexemeKind::Token(TokenKind::RightParen) => depth.saturating_sub(1),
        _ => depth,
    }
}

// True if a tag pair is open after a lexeme.
fn opens_pair(in_pair: bool, kind: LexemeKind) -> bool
    ensures { result ≡ opens_pair in_pair kind }
{
    match kind {
        LexemeKind::Token(TokenKind::Open) => true,
        LexemeKind::Token(TokenKind::Close) => false,
        _ => in_pair,
    }
}

// True if a lexeme outside a tag pair is movetext.
fn is_movetext(kind: LexemeKind) -> bool
    ensures { result ≡ is_movetext kind }
{
    match kind {
        LexemeKind::EscapeLine => false,
        LexemeKind::Token(kind) => matches!(
            kind,
            TokenKind::Symbol
                | TokenKind::Period
                | TokenKind::Star
                | TokenKind::LeftParen
                | TokenKind::RightParen
                | TokenKind::Nag(_)
                | TokenKind::Null
                | TokenKind::BadByte
        ),
    }
}

// True if a lexeme alone makes no game.
fn is_passed_over(kind: LexemeKind) -> bool
    ensures { result ≡ is_passed_over kind }
{
    matches!(
        kind,
        LexemeKind::EscapeLine | LexemeKind::Token(TokenKind::Comment | TokenKind::LineComment)
    )
}

// True if a lexeme opens a tag pair.
fn opens(kind: LexemeKind) -> bool
    ensures { result ≡ opens kind }
{
    matches!(kind, LexemeKind::Token(TokenKind::Open))
}

impl OpenGame {
    /// A game without lexemes.
    #[tactic(auto, unfolding(crate::specs::Progress::progress_of))]
    pub(crate) fn new() -> OpenGame
        ensures value { result ≡ progress_of [] }
        ensures flat { result.depth ≡ 0 }
    {
        OpenGame {
            start: None,
            depth: 0,
            in_pair: false,
            has_movetext: false,
            has_more: false,
        }
    }

    /// Returns true if words leave the progress as it is: there is movetext, or a tag pair is open.
    pub(crate) fn passes_words(self) -> bool
        ensures { result ≡ passes_words self }
    {
        self.has_more && (self.has_movetext || self.in_pair)
    }

    /// Returns true if a tag pair leaves the progress as it is: there is more before it, no movetext, and no tag pair
    /// is open.
    pub(crate) fn passes_pairs(self) -> bool
        ensures { result ≡ passes_pairs self }
    {
        self.has_more && !(self.has_movetext || self.in_pair)
    }

    // True if the game has movetext, a further lexeme included.
    fn sees_movetext(self, kind: LexemeKind) -> bool
        ensures { result ≡ (self.has_movetext || (is_movetext kind && not self.in_pair)) }
    {
        self.has_movetext || (is_movetext(kind) && !self.in_pair)
    }

    // True if the game has more than closed comments and escape lines, a further lexeme included.
    fn sees_more(self, kind: LexemeKind) -> bool
        ensures { result ≡ (self.has_more || not (is_passed_over kind)) }
    {
        self.has_more || !is_passed_over(kind)
    }

    // Adds one lexeme.
    fn add(&mut self, look: LexemeView)
        requires depth { self.old.depth < 2 ^ 63 }
        ensures value { (game : List ALexeme) (l : ALexeme) → IsViewOf look l → self.old ≡ progress_of game →
            self.new ≡ progress_of (game ++ l ∷ []) }
        ensures deeper { self.new.depth ≤ self.old.depth + 1 }
    {
        let start = Start {
            at: look.at,
            first: look.first,
        };
        self.start = Some(self.start.unwrap_or(start));
        self.has_movetext = self.sees_movetext(look.kind);
        self.has_more = self.sees_more(look.kind);
        self.depth = nest(self.depth, look.kind);
        self.in_pair = opens_pair(self.in_pair, look.kind);
    }

    /// Returns the game with one more lexeme.
    pub(crate) fn with(self, look: LexemeView) -> OpenGame
        requires depth { self.depth < 2 ^ 63 }
        ensures value { (game : List ALexeme) (l : ALexeme) → IsViewOf look l → self ≡ progress_of game →
            result ≡ progress_of (game ++ l ∷ []) }
        ensures deeper { result.depth ≤ self.depth + 1 }
    {
        let mut game = self;
        game.add(look);
        game
    }

    /// Returns the place where it begins, once it has a lexeme.
    pub(crate) fn begins_at(self) -> Option<u64>
        ensures { result ≡ begins_at self.start }
    {
        self.start.map(|start| start.at)
    }

    // The span of the game up to a place.
    fn span_to(self, place: u64) -> Option<Span>
        ensures { result ≡ span_from place self.start }
    {
        self.start.map(|start| Span {
            start: start.at,
            end: place,
            first: start.first,
        })
    }

    /// Returns the last game of an archive that ends at a place, if there is one.
    pub(crate) fn last(self, place: u64) -> Option<Span>
        ensures { (game : List ALexeme) → self ≡ progress_of game → option_to_list result ≡ cut_from place game [] }
    {
        if self.has_more {
            self.span_to(place)
        } else {
            None
        }
    }

    // True if the game ends before a lexeme: a `[` in the first column, after movetext.
    fn ends_before(self, look: LexemeView) -> bool
        ensures { result ≡ (opens look.kind && look.first && self.has_movetext) }
    {
        opens(look.kind) && look.first && self.has_movetext
    }

    // True if the game ends after a lexeme: a marker outside variations.
    fn ends_after(self, look: LexemeView) -> bool
        ensures { result ≡ (look.marker && self.depth == 0) }
    {
        self.depth == 0 && look.marker
    }

    /// Adds a lexeme, and returns the game that it closes, if any.
    pub(crate) fn meet(&mut self, look: LexemeView) -> Option<Span>
        requires depth { self.old.depth < 2 ^ 63 }
        ensures deeper { self.new.depth ≤ self.old.depth + 1 }
        ensures cuts { (game : List ALexeme) (l : ALexeme) → IsViewOf look l → self.old ≡ progress_of game →
            IsStepOfCut self.new result l game }
    {
        if self.ends_before(look) {
            let closed = self.span_to(look.at);
            *self = OpenGame::new().with(look);
            return closed;
        }
        let ends = self.ends_after(look);
        self.add(look);
        if ends {
            let closed = self.span_to(look.end);
            *self = OpenGame::new();
            return closed;
        }
        None
    }
}
