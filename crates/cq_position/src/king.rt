//! The squares of the kings.
ghost use Rattle.cq_position.specs.King.{IsKingSquare};

use crate::men::{Piece, Side};
use crate::position::Position;
use cq_geometry::Square;
use cq_square_sets::lowest_square;

/// The square of a side's king.
pub fn king_square(position: &Position, side: Side) -> Square
    ensures { IsKingSquare position.now.men side result }
{
    lowest_square(position.men().squares_of_piece(side, Piece::King))
}
