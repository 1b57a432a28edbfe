//! The fields of a FEN text after its men.
ghost use Rattle.std.specs.Prelude.{◌≡◌, ◌<◌, ◌-◌, ◌&&◌, true};
ghost use Rattle.std.specs.List.{list_all};
ghost use Rattle.cq_position.specs.Fen.{is_side, side_named, is_number, value_of_digits};
ghost use Rattle.cq_position.specs.Fen as fen;
ghost use Rattle.cq_position.specs.FenBytes.{digit_zero};
ghost use Rattle.cq_position.specs.Board as board;
ghost use Rattle.cq_position.specs.Reading.{SomeIfTrue};
ghost use Rattle.cq_position.specs.declared.men.Man.TheVariants.{Empty};

use crate::fen::bytes::{DASH, right_letter, side_letter};
use crate::home_squares::{king_home, rook_home};
use crate::men::{Man, Side, king_of, rook_of};
use crate::position::Rights;
use cq_geometry::{Square, rank, square_at};

/// The side to move from its letter, `w` or `b` (PGN standard, section 16.1.3.2), or None for any other text.
pub fn read_side(text: &[u8]) -> Option<Side>
    ensures { SomeIfTrue result (is_side text.now) (side_named text.now) }
{
    if is_byte_alone(text, side_letter(Side::White)) {
        Some(Side::White)
    } else if is_byte_alone(text, side_letter(Side::Black)) {
        Some(Side::Black)
    } else {
        None
    }
}

/// Returns true if the text is a dash, or one or more letters of `KQkq` (PGN standard, section 16.1.3.3).
pub fn is_castling_field(text: &[u8]) -> bool
    ensures { result ≡ fen.is_castling_field text.now }
{
    is_byte_alone(text, DASH) || names_rights(text)
}

#[tactic(auto, using(crate::proofs::Joined::some_letters))]
fn names_rights(text: &[u8]) -> bool
    ensures { result ≡ (fen.is_not_empty text.now && list_all fen.is_castling_letter text.now) }
{
    match text {
        [] => false,
        [_, ..] => are_castling_letters(text),
    }
}

fn are_castling_letters(text: &[u8]) -> bool
    ensures { result ≡ list_all fen.is_castling_letter text.now }
{
    text.iter().all(|b| is_castling_letter(*b))
}

fn is_castling_letter(byte: u8) -> bool
    ensures { result ≡ fen.is_castling_letter byte }
{
    byte == right_letter(Side::White, true)
        || byte == right_letter(Side::White, false)
        || byte == right_letter(Side::Black, true)
        || byte == right_letter(Side::Black, false)
}

/// The rights to castle that the text's letters name, if king and rook are at home.
pub fn rights_kept(men: &[Man; 64], text: &[u8]) -> Rights
    ensures value { result ≡ fen.rights_kept men.now text.now }
    ensures stand { board.rights_stand men.now result ≡ true }
{
    Rights {
        white_kingside: right_counts(men, text, Side::White, true),
        white_queenside: right_counts(men, text, Side::White, false),
        black_kingside: right_counts(men, text, Side::Black, true),
        black_queenside: right_counts(men, text, Side::Black, false),
    }
}

// Returns true if the text names a right whose king and rook are at home.
fn right_counts(men: &[Man; 64], text: &[u8], side: Side, kingside: bool) -> bool
    ensures { result ≡ fen.right_counts men.now text.now side kingside }
{
    has_letter(text, right_letter(side, kingside)) && are_home(men, side, kingside)
}

fn has_letter(text: &[u8], letter: u8) -> bool
    ensures { result ≡ fen.has_letter letter text.now }
{
    text.iter().any(|b| *b == letter)
}

// Returns true if king and rook are at home.
fn are_home(men: &[Man; 64], side: Side, kingside: bool) -> bool
    ensures { result ≡ board.are_home men.now side kingside }
{
    holds(men, king_home(side), king_of(side))
        && holds(men, rook_home(side, kingside), rook_of(side))
}

// Returns true if a square has the man.
fn holds(men: &[Man; 64], square: Square, man: Man) -> bool
    ensures { result ≡ board.stands men.now square man }
{
    stands_at(men, usize::from(square.number()), man)
}

// Returns true if the square with this number has the man.
fn stands_at(men: &[Man; 64], at: usize, man: Man) -> bool
    requires { at < 64 }
    ensures { result ≡ board.stands men.now at man }
{
    men[at] == man
}

fn is_byte_alone(text: &[u8], byte: u8) -> bool
    ensures { result ≡ fen.is_byte_alone byte text.now }
{
    match text {
        [first] => *first == byte,
        _ => false,
    }
}

/// Returns true if the text is a dash or names a square of rank 3 or 6 (PGN standard, section 16.1.3.4).
pub fn is_passant_field(text: &[u8]) -> bool
    ensures { result ≡ fen.is_passant_field text.now }
{
    is_byte_alone(text, DASH) || names_passant_square(text)
}

fn names_passant_square(text: &[u8]) -> bool
    ensures { result ≡ fen.names_passant_square text.now }
{
    match text {
        [file, rank] => matches!(*file, b'a'..=b'h') && matches!(*rank, b'3' | b'6'),
        _ => false,
    }
}

/// The en passant square that the text names, if a pawn of the opponent can just have passed it. Returns None otherwise, and for a dash.
pub fn passant_kept(men: &[Man; 64], side: Side, text: &[u8]) -> Option<Square>
    requires { fen.is_passant_field text.now ≡ true }
    ensures value { result ≡ fen.passant_kept men.now side text.now }
    ensures stands { board.passant_stands men.now side result ≡ true }
{
    let [file, rank] = text else {
        return None;
    };
    let square = square_at(*file - b'a', *rank - b'1');
    if was_passed(men, side, square) {
        Some(square)
    } else {
        None
    }
}

// Returns true if the opponent's pawn can just have passed the square.
fn was_passed(men: &[Man; 64], side: Side, square: Square) -> bool
    ensures { result ≡ board.was_passed men.now side square }
{
    let at = usize::from(square.number());
    match side {
        Side::White => rank(square) == 5 && has_passed(men, Man::BlackP, at - 8, at, at + 8),
        Side::Black => rank(square) == 2 && has_passed(men, Man::P, at + 8, at, at - 8),
    }
}

// Returns true if a pawn is on one square, and the square that it passed and its home square are empty.
fn has_passed(men: &[Man; 64], pawn: Man, at: usize, passed: usize, home: usize) -> bool
    requires at { at < 64 }
    requires passed { passed < 64 }
    requires home { home < 64 }
    ensures { result
        ≡ (board.stands men.now passed Empty && board.stands men.now at pawn && board.stands men.now home Empty) }
{
    stands_at(men, passed, Man::Empty)
        && stands_at(men, at, pawn)
        && stands_at(men, home, Man::Empty)
}

/// The number that 1 to 9 digits write, from 0 to 999,999,999 (PGN standard, sections 16.1.3.5 and 16.1.3.6). Returns None for any other
/// text.
pub fn read_number(text: &[u8]) -> Option<u32>
    ensures { SomeIfTrue result (is_number text.now) (value_of_digits text.now) }
{
    if text.is_empty() || text.len() > 9 {
        return None;
    }
    let mut value = 0;
    for byte in text {
        value = 10 * value + digit_of(*byte)?;
    }
    Some(value)
}

// The value of a digit.
fn digit_of(byte: u8) -> Option<u32>
    ensures { SomeIfTrue result (fen.is_digit byte) (byte - digit_zero) }
{
    match byte {
        b'0'..=b'9' => Some(u32::from(byte - b'0')),
        _ => None,
    }
}
