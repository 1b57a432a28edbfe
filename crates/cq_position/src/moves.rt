//! Moves.
ghost use Rattle.std.specs.Prelude.{◌≡◌};
ghost use Rattle.cq_position.specs.Moves.{null_move};

use crate::men::Promotion;
use cq_geometry::Square;

/// A move, or a null move, by which a side passes.
///
/// Castling is the king's move of two squares. A null move has both squares a1 and the promotion `None`.
#[derive(Clone, Copy, Debug, PartialEq, Eq)]
pub struct Move {
    /// The square that the man leaves.
    pub from: Square,
    /// The square to which the man goes.
    pub to: Square,
    /// The piece that the man becomes, or `None` unless a pawn reaches the last rank.
    pub promotion: Promotion,
    /// True for the null move.
    pub null: bool,
}

impl Default for Move {
    ghost is_default = { λ m. m ≡ null_move };

    /// The null move.
    fn default() -> Move {
        Move {
            from: Square::default(),
            to: Square::default(),
            promotion: Promotion::None,
            null: true,
        }
    }
}
