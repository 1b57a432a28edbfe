//! The lines of a table of pieces.
ghost use Rattle.std.specs.Prelude.{◌≡◌, ◌++◌, OnOk, decimal};
ghost use Rattle.pgn_pieces.specs.Table.{line};

use crate::piece::Piece;
use cq_common::{Bytes, NoMemory};
use itoa::Buffer;

/// Adds the line of a piece: its number, its first byte, the number of its bytes, its first game, and the number of its games.
pub(crate) fn push_line(text: &mut Bytes, piece: Piece) -> Result<(), NoMemory>
    ensures { OnOk result (text.new ≡ text.old ++ line piece) }
{
    push_number(text, piece.number, b" ")?;
    push_number(text, piece.offset, b" ")?;
    push_number(text, piece.length, b" ")?;
    push_number(text, piece.first, b" ")?;
    push_number(text, piece.games, b"\n")
}

// Adds a number and its separator from the next.
fn push_number(text: &mut Bytes, number: u64, separator: &[u8]) -> Result<(), NoMemory>
    ensures { OnOk result (text.new ≡ text.old ++ (decimal number ++ separator.now)) }
{
    text.push_all(Buffer::new().format(number).as_bytes())?;
    text.push_all(separator)
}
