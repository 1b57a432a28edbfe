//! The text of a position in Forsyth-Edwards Notation.
ghost use Rattle.std.specs.Prelude.{◌≡◌};
ghost use Rattle.cq_position.specs.Fen.{fen_meaning};

use crate::attacks::is_king_attacked;
use crate::men::opponent;
use crate::planes::Men;
use crate::position::{Position, has_kings, has_pawn_on_edge, has_too_many_men};
use thiserror::Error;

mod bytes;
mod fields;
mod placement;
mod status;
mod writing;

use fields::split_fields;
use placement::read_placement;
use status::{
    is_castling_field, is_passant_field, passant_kept, read_number, read_side, rights_kept,
};
pub use writing::fen_text;

/// The faults of a text: of its form (PGN standard, section 16.1.3), or a position that no game can have. If several are present, the first
/// in this order is returned.
#[derive(Clone, Copy, Debug, PartialEq, Eq, Error)]
pub enum FenFault {
    #[error("not six fields, nor four")]
    Fields,
    #[error("the men do not fill eight ranks of eight squares")]
    Placement,
    #[error("the side to move is neither w nor b")]
    Side,
    #[error("the rights to castle are neither - nor letters of KQkq")]
    Castling,
    #[error("the en passant square is neither - nor a square of rank 3 or 6")]
    EnPassant,
    #[error("a number is not 1 to 9 digits")]
    Number,
    #[error("not one king of each side")]
    Kings,
    #[error("a pawn on the first or the last rank")]
    PawnOnEdge,
    #[error("more than sixteen men of one side")]
    TooManyMen,
    #[error("the side not to move is in check")]
    OpponentInCheck,
}

/// Reads a position from the text of its FEN (PGN standard, section 16.1).
///
/// Fields are separated by spaces. Spaces before and after them are allowed. A text of four fields is read as with `0 1` after them. The
/// halfmove clock is not kept, and the move number 0 is read as 1. A right to castle counts only with king and rook at home. An en passant
/// square counts only if the opponent's pawn can just have passed it.
///
/// # Errors
///
/// Returns the first [`FenFault`] in the order of its variants that is present.
#[tactic(auto, unfolding(crate::specs::Fen::fen_meaning, crate::specs::Fen::position_or_fault))]
pub fn read_fen(text: &[u8]) -> Result<Position, FenFault>
    ensures { result ≡ fen_meaning text.now }
{
    let Some(fields) = split_fields(text) else {
        return Err(FenFault::Fields);
    };
    let Some(listed) = read_placement(fields.placement) else {
        return Err(FenFault::Placement);
    };
    let Some(side) = read_side(fields.side) else {
        return Err(FenFault::Side);
    };
    if !is_castling_field(fields.castling) {
        return Err(FenFault::Castling);
    }
    if !is_passant_field(fields.passant) {
        return Err(FenFault::EnPassant);
    }
    let Some(_clock) = read_number(fields.clock) else {
        return Err(FenFault::Number);
    };
    let Some(number) = read_number(fields.number) else {
        return Err(FenFault::Number);
    };
    if !has_kings(&listed) {
        return Err(FenFault::Kings);
    }
    if has_pawn_on_edge(&listed) {
        return Err(FenFault::PawnOnEdge);
    }
    if has_too_many_men(&listed) {
        return Err(FenFault::TooManyMen);
    }
    let men = Men::of(&listed);
    if is_king_attacked(&men, opponent(side)) {
        return Err(FenFault::OpponentInCheck);
    }
    let rights = rights_kept(&listed, fields.castling);
    let passant = passant_kept(&listed, side, fields.passant);
    Ok(Position::from_parts(number.max(1), men, side, rights, passant))
}
