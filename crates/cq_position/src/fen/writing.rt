//! Writing the FEN text of a position.
ghost use Rattle.std.specs.Prelude.{◌≡◌, ◌++◌, ◌∷◌, [], ◌≤◌, IfOk, OnOk, decimal, drop, length, if◌then◌else◌};
ghost use Rattle.std.specs.List.{join_with_byte};
ghost use Rattle.cq_position.specs.Men.{letter_of_man};
ghost use Rattle.cq_position.specs.Fen.{fen_meaning};
ghost use Rattle.cq_position.specs.FenBytes.{digit_zero, slash, space};
ghost use Rattle.cq_position.specs.FenText as fen_text;
ghost use Rattle.cq_position.specs.Position.{IsPosition};

use crate::fen::bytes::{DASH, SLASH, SPACE, right_letter, side_letter};
use crate::men::{Man, Side, letter_of};
use crate::position::{Position, Rights};
use cq_common::{Bytes, NoMemory};
use cq_geometry::{Square, file, rank};
use std::alloc::Global;

/// The FEN text of a position. It has six fields, the halfmove clock 0, the rights in the order `KQkq`, and the en passant square of the
/// position. It is read as the same position if the number has at most nine digits, as a FEN allows.
///
/// # Errors
///
/// Returns `NoMemory` if memory runs out.
#[tactic(auto, using(crate::proofs::RoundTrip::reads_back))]
pub fn fen_text(alloc: Global, position: &Position) -> Result<Bytes, NoMemory>
    ensures text { IfOk result (λ text. text ≡ fen_text.fen_of position.now) }
    ensures back { position.now.number ≤ 999999999 → IfOk result (λ text. fen_meaning text ≡ Ok position.now) }
{
    written(alloc, position)
}

#[tactic(auto, unfolding(crate::specs::FenText::fen_of))]
fn written(alloc: Global, position: &Position) -> Result<Bytes, NoMemory>
    ensures text { IfOk result (λ text. text ≡ fen_text.fen_of position.now) }
    ensures kept { OnOk result (IsPosition position.now) }
{
    let mut text = Bytes::new(alloc);
    push_placement(&mut text, &position.men().listed())?;
    push_side_and_rights(&mut text, position)?;
    push_passant_and_numbers(&mut text, position)?;
    Ok(text)
}

// The side to move and the rights, each after a space.
fn push_side_and_rights(text: &mut Bytes, position: &Position) -> Result<(), NoMemory>
    ensures { OnOk result (text.new
        ≡ text.old ++ (space ∷ fen_text.side_text position.now.side ++ space ∷ fen_text.castling_text position.now.rights)) }
{
    text.push_all(&[SPACE, side_letter(position.side()), SPACE])?;
    push_rights(text, position.rights())?;
    Ok(())
}

// The en passant square, the halfmove clock and the number of the move, each after a space.
fn push_passant_and_numbers(text: &mut Bytes, position: &Position) -> Result<(), NoMemory>
    ensures { OnOk result (text.new
        ≡ text.old ++ (space ∷ fen_text.passant_text position.now.passant
        ++ space ∷ digit_zero ∷ space ∷ decimal position.now.number)) }
{
    push_byte(text, SPACE)?;
    push_passant(text, position.passant())?;
    text.push_all(&[SPACE, b'0', SPACE])?;
    text.push_number(i64::from(position.number()))?;
    Ok(())
}

// Writes a slash and a rank for each range of squares.
macro_rules! push_ranks {
    ($text:ident, $men:ident; $($from:literal..$to:literal),*) => {
        $(push_next_rank($text, &$men[$from..$to])?;)*
    };
}

// The ranks from the eighth down.
fn push_placement(text: &mut Bytes, men: &[Man; 64]) -> Result<(), NoMemory>
    ensures { OnOk result (text.new ≡ text.old ++ fen_text.placement_text men.now) }
{
    push_rank(text, &men[56..64])?;
    push_ranks!(text, men; 48..56, 40..48, 32..40);
    push_lower_half(text, men)?;
    Ok(())
}

// The ranks from the fourth down, each after a slash.
fn push_lower_half(text: &mut Bytes, men: &[Man; 64]) -> Result<(), NoMemory>
    ensures { OnOk result (text.new ≡ text.old ++ slash ∷ join_with_byte slash (drop 4 (fen_text.rank_texts men.now))) }
{
    push_ranks!(text, men; 24..32, 16..24, 8..16, 0..8);
    Ok(())
}

// A rank from the a-file on.
fn push_rank(text: &mut Bytes, row: &[Man]) -> Result<(), NoMemory>
    requires { length row.now ≤ 8 }
    ensures { OnOk result (text.new ≡ text.old ++ fen_text.rank_text 0 row.now) }
{
    let mut empty = 0;
    for man in row {
        empty = push_man(text, empty, *man)?;
    }
    push_run(text, empty)
}

// A slash and a rank.
fn push_next_rank(text: &mut Bytes, row: &[Man]) -> Result<(), NoMemory>
    requires { length row.now ≤ 8 }
    ensures { OnOk result (text.new ≡ text.old ++ slash ∷ fen_text.rank_text 0 row.now) }
{
    push_byte(text, SLASH)?;
    push_rank(text, row)
}

// Writes a man after so many empty squares. Returns the number of empty squares not yet written.
fn push_man(text: &mut Bytes, empty: u8, man: Man) -> Result<u8, NoMemory>
    requires { empty ≤ 8 }
    ensures text { OnOk result (text.new ≡ text.old ++ fen_text.letter_text empty (letter_of_man man)) }
    ensures empty { IfOk result (λ left. left ≡ fen_text.run_after empty (letter_of_man man)) }
{
    let Some(letter) = letter_of(man) else {
        return Ok(empty + 1);
    };
    push_run(text, empty)?;
    push_byte(text, letter)?;
    Ok(0)
}

// Writes the digit of a run of empty squares, if there are any.
fn push_run(text: &mut Bytes, empty: u8) -> Result<(), NoMemory>
    requires { empty ≤ 8 }
    ensures { OnOk result (text.new ≡ text.old ++ fen_text.run_text empty) }
{
    if empty == 0 {
        return Ok(());
    }
    push_byte(text, b'0' + empty)
}

// The rights, or a dash.
fn push_rights(text: &mut Bytes, rights: Rights) -> Result<(), NoMemory>
    ensures { OnOk result (text.new ≡ text.old ++ fen_text.castling_text rights) }
{
    let Rights {
        white_kingside,
        white_queenside,
        black_kingside,
        black_queenside,
    } = rights;
    if white_kingside || white_queenside || black_kingside || black_queenside {
        push_letter_if(text, white_kingside, right_letter(Side::White, true))?;
        push_letter_if(text, white_queenside, right_letter(Side::White, false))?;
        push_letter_if(text, black_kingside, right_letter(Side::Black, true))?;
        push_letter_if(text, black_queenside, right_letter(Side::Black, false))
    } else {
        push_byte(text, DASH)
    }
}

// Writes the letter of a right if the side has it.
fn push_letter_if(text: &mut Bytes, right: bool, letter: u8) -> Result<(), NoMemory>
    ensures { OnOk result (text.new ≡ text.old ++ (if right then letter ∷ [] else [])) }
{
    if right {
        push_byte(text, letter)
    } else {
        Ok(())
    }
}

fn push_byte(text: &mut Bytes, byte: u8) -> Result<(), NoMemory>
    ensures { OnOk result (text.new ≡ text.old ++ byte ∷ []) }
{
    text.push_all(&[byte])
}

// The en passant square, or a dash.
fn push_passant(text: &mut Bytes, passant: Option<Square>) -> Result<(), NoMemory>
    ensures { OnOk result (text.new ≡ text.old ++ fen_text.passant_text passant) }
{
    match passant {
        None => push_byte(text, DASH),
        Some(square) => text.push_all(&[b'a' + file(square), b'1' + rank(square)]),
    }
}
