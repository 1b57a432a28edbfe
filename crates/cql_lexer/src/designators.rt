//! Men, squares, and men on squares.
ghost use Rattle.std.specs.Prelude.{◌≡◌, ◌==◌, ◌<◌, ◌≤◌, ◌+◌, length, IfSome};
ghost use Rattle.std.specs.Option.{option_map};
ghost use Rattle.std.specs.List.{position};
ghost use Rattle.cql_lexer.specs.Designators.{group, men_of_letter, men_of_letters, men_of, rectangle, squares_within, specification, specifications, squares_of, are_alike, men_on, designator};
ghost use Rattle.cql_syntax.specs.Words.{man_letters};
ghost use Rattle.cq_symmetry.specs.Images.{is_in};
ghost use Rattle.cq_symmetry.specs.Parts.{are_whole_ranks, are_whole_files};
ghost use Rattle.cql_lexer.specs.Longest.{front, longest};

use crate::characters::find;
use cq_symmetry::SquarePart;
use cql_syntax::Designator;

const MAN_LETTERS: &[u8; 13] = b"KQRBNPkqrbnp_";

const WHITE_MEN: u16 = 0x003f;

const BLACK_MEN: u16 = 0x0fc0;

const ANY_MEN: u16 = 0x1fff;

// The a-file.
const EACH_RANK: u64 = 0x0101_0101_0101_0101;

// The bytes between a `[` at the front and the first `]`.
fn group(text: &[u8]) -> Option<&[u8]>
    ensures { option_map (λ inside. inside.now) result ≡ group text.now }
{
    let (first, rest) = text.split_first()?;
    if *first != b'[' {
        return None;
    }
    let end = find(b']', rest)?;
    Some(&rest[..end])
}

// The place of a letter among those of the men in order.
fn man_of_letter(letter: u8) -> Option<usize>
    ensures value { result ≡ position (λ man. man == letter) man_letters }
    ensures bound { IfSome result (λ man. man < 13) }
{
    MAN_LETTERS.iter().position(|man| *man == letter)
}

// The men of a letter.
fn men_of_letter(letter: u8) -> Option<u16>
    ensures { result ≡ men_of_letter letter }
{
    match letter {
        b'A' => Some(WHITE_MEN),
        b'a' => Some(BLACK_MEN),
        b'.' => Some(ANY_MEN),
        _ => Some(1 << man_of_letter(letter)?),
    }
}

// The men of one or more letters.
fn men_of_letters(letters: &[u8]) -> Option<u16>
    ensures { result ≡ men_of_letters letters.now }
{
    if letters.is_empty() {
        return None;
    }
    let mut men = 0;
    for letter in letters {
        men |= men_of_letter(*letter)?;
    }
    Some(men)
}

// The squares of a specification.
fn specification(text: &[u8]) -> Option<u64>
    ensures { result ≡ specification text.now }
{
    match text {
        [file, rank] => rectangle(*file, *file, *rank, *rank),
        [file, b'-', last_file, rank] => rectangle(*file, *last_file, *rank, *rank),
        [file, rank, b'-', last_rank] => rectangle(*file, *file, *rank, *last_rank),
        [file, b'-', last_file, rank, b'-', last_rank] => {
            rectangle(*file, *last_file, *rank, *last_rank)
        }
        _ => None,
    }
}

// The squares from one file to another and from one rank to another.
fn rectangle(file: u8, last_file: u8, rank: u8, last_rank: u8) -> Option<u64>
    ensures { result ≡ rectangle file last_file rank last_rank }
{
    let are_files = matches!(file, b'a'..=b'h') && matches!(last_file, b'a'..=b'h');
    let are_ranks = matches!(rank, b'1'..=b'8') && matches!(last_rank, b'1'..=b'8');
    if are_files && are_ranks {
        Some(squares_from(
            file.min(last_file),
            file.max(last_file),
            rank.min(last_rank),
            rank.max(last_rank),
        ))
    } else {
        None
    }
}

// The squares of a range of files and a range of ranks, the lower ends first.
fn squares_from(file: u8, last_file: u8, rank: u8, last_rank: u8) -> u64
    requires first_file { 97 ≤ file }
    requires files { file ≤ last_file }
    requires last_file { last_file ≤ 104 }
    requires first_rank { 49 ≤ rank }
    requires ranks { rank ≤ last_rank }
    requires last_rank { last_rank ≤ 56 }
    ensures { result ≡ squares_within file last_file rank last_rank }
{
    let row = (2u64 << (last_file - b'a')) - (1 << (file - b'a'));
    let below = u64::MAX >> (8 * (b'8' - last_rank));
    let above = u64::MAX << (8 * (rank - b'1'));
    row * EACH_RANK & below & above
}

// The squares of specifications with commas between them.
fn specifications(text: &[u8]) -> Option<u64>
    ensures { result ≡ specifications text.now }
{
    let mut squares = 0;
    let mut rest = text;
    while let Some(end) = find(b',', rest) {
        squares |= specification(&rest[..end])?;
        rest = &rest[end + 1..];
    }
    Some(squares | specification(rest)?)
}

// The squares of a specification that is the first so many bytes.
fn specification_front(len: usize, text: &[u8]) -> Option<(u64, usize)>
    ensures { result ≡ front specification len text.now }
{
    Some((specification(text.get(..len)?)?, len))
}

// The longest squares at the front.
#[tactic(auto, using(crate::proofs::Fronts::squares_group_some, crate::proofs::Fronts::squares_group_none, crate::proofs::Fronts::squares_plain_front))]
fn squares_at(text: &[u8]) -> Option<(u64, usize)>
    ensures { result ≡ longest squares_of text.now }
{
    match group(text) {
        Some(inside) => Some((specifications(inside)?, inside.len() + 2)),
        None => specification_front(6, text)
            .or(specification_front(4, text))
            .or(specification_front(2, text)),
    }
}

// The longest men at the front.
#[tactic(auto, using(crate::proofs::Fronts::men_group_some, crate::proofs::Fronts::men_group_none, crate::proofs::Fronts::men_plain_some, crate::proofs::Fronts::men_plain_none))]
fn men_at(text: &[u8]) -> Option<(u16, usize)>
    ensures { result ≡ longest men_of text.now }
{
    match group(text) {
        Some(inside) => Some((men_of_letters(inside)?, inside.len() + 2)),
        None => Some((men_of_letter(*text.first()?)?, 1)),
    }
}

// True if a square is in a set.
fn is_in(squares: u64, square: u8) -> bool
    requires { square < 64 }
    ensures { result ≡ is_in squares square }
{
    squares >> square & 1 == 1
}

// True if both squares are in a set, or neither is.
fn are_alike(squares: u64, one: u8, other: u8) -> bool
    requires one { one < 64 }
    requires other { other < 64 }
    ensures { result ≡ are_alike squares one other }
{
    if is_in(squares, one) {
        is_in(squares, other)
    } else {
        !is_in(squares, other)
    }
}

// True if every rank that has one of the squares has all of them. Each square is then in the set exactly if the first of
// its rank is.
fn are_whole_ranks(squares: u64) -> bool
    ensures { result ≡ are_whole_ranks squares }
{
    for square in 0..64 {
        if !are_alike(squares, square, 8 * (square / 8)) {
            return false;
        }
    }
    true
}

// True if every file that has one of the squares has all of them. Each square is then in the set exactly if the first of
// its file is.
fn are_whole_files(squares: u64) -> bool
    ensures { result ≡ are_whole_files squares }
{
    for square in 0..64 {
        if !are_alike(squares, square, square % 8) {
            return false;
        }
    }
    true
}

// Men on squares.
#[tactic(auto, unfolding(crate::specs::Designators::men_on))]
fn men_on(men: u16, squares: u64) -> Designator
    ensures { result ≡ men_on men squares }
{
    Designator {
        men,
        part: SquarePart {
            squares,
            whole_ranks: are_whole_ranks(squares),
            whole_files: are_whole_files(squares),
        },
    }
}

/// Returns the longest designator at the front of a text, and its length in bytes.
#[tactic(auto, using(crate::proofs::Designating::squares_alone, crate::proofs::Designating::no_designator, crate::proofs::Designating::men_front, crate::proofs::Designating::squares_front))]
pub fn designator_at(text: &[u8]) -> Option<(Designator, usize)>
    ensures value { result ≡ longest designator text.now }
    ensures front { IfSome result (λ found. (0 < found.1) × (found.1 ≤ length text.now)) }
{
    let Some((men, len)) = men_at(text) else {
        let (squares, len) = squares_at(text)?;
        return Some((men_on(ANY_MEN, squares), len));
    };
    if let Some((squares, more)) = squares_at(&text[len..]) {
        return Some((men_on(men, squares), len + more));
    }
    match squares_at(text) {
        Some((squares, len)) => Some((men_on(ANY_MEN, squares), len)),
        None => Some((men_on(men, u64::MAX), len)),
    }
}
