//! Steps by files and ranks.
ghost use Rattle.std.specs.Prelude.{◌≡◌, ◌<◌, ◌^◌, All, IfSome, pos, negsuc, ◌+ℤ◌, ◌≤ℤ◌};
ghost use Rattle.cq_geometry.specs.Internal.Expansions.{king_goals, knight_goals, kept_goals};
ghost use Rattle.cq_geometry.specs.Steps.{on_board, stepped, king_squares, knight_squares};

use crate::square::{Square, file, rank, square_at};
use arrayvec::ArrayVec;

/// The file or rank `by` further, or None if it is off the board.
#[inline]
pub(crate) fn moved(coordinate: u8, by: i64) -> Option<u8>
    requires low { negsuc (2 ^ 33) ≤ℤ by }
    requires high { by ≤ℤ pos (2 ^ 33) }
    ensures { result ≡ on_board (pos coordinate +ℤ by) }
{
    let goal = i64::from(coordinate) + by;
    if 0 <= goal && goal < 8 {
        Some(goal as u8)
    } else {
        None
    }
}

/// A step of `DF` files to the right and `DR` ranks up, each from -2 to 2.
#[derive(Clone, Copy, Debug)]
pub struct Step<const DF: i8, const DR: i8>;

impl<const DF: i8, const DR: i8> Step<DF, DR> {
    /// The goal of the step, or None if it is off the board.
    #[inline]
    pub fn step(s: Square) -> Option<Square>
        requires files { (negsuc 1 ≤ℤ DF) × (DF ≤ℤ pos 2) }
        requires ranks { (negsuc 1 ≤ℤ DR) × (DR ≤ℤ pos 2) }
        ensures goal { result ≡ stepped DF DR s }
        ensures board { IfSome result (λ goal. goal < 64) }
    {
        let file = moved(file(s), i64::from(DF))?;
        let rank = moved(rank(s), i64::from(DR))?;
        Some(square_at(file, rank))
    }
}

/// Expands to the goals of the listed steps, each given by its files and its ranks.
macro_rules! goals {
    ($square:expr; $(($files:literal, $ranks:literal)),*) => {
        [$(Step::<$files, $ranks>::step($square)),*]
    };
}

/// The squares that adjoin a square, in the order of their numbers. A king steps to them (FIDE Laws of Chess, article 3.8.1).
#[tactic(auto, using(crate::proofs::Neighbors::king_goals_kept, crate::proofs::Neighbors::king_board))]
pub fn king_steps(s: Square) -> ArrayVec<Square, 8>
    ensures squares { result.items ≡ king_squares s }
    ensures board { All (λ square. square < 64) result.items }
{
    kept(king(s))
}

/// The squares that a knight reaches from a square (FIDE Laws of Chess, article 3.6), in the order of their numbers.
#[tactic(auto, using(crate::proofs::Neighbors::knight_goals_kept, crate::proofs::Neighbors::knight_board))]
pub fn knight_steps(s: Square) -> ArrayVec<Square, 8>
    ensures squares { result.items ≡ knight_squares s }
    ensures board { All (λ square. square < 64) result.items }
{
    kept(knight(s))
}

// The eight steps of a king.
fn king(s: Square) -> [Option<Square>; 8]
    ensures { result ≡ king_goals s }
{
    goals!(s; (-1, -1), (0, -1), (1, -1), (-1, 0), (1, 0), (-1, 1), (0, 1), (1, 1))
}

// The eight steps of a knight.
fn knight(s: Square) -> [Option<Square>; 8]
    ensures { result ≡ knight_goals s }
{
    goals!(s; (-1, -2), (1, -2), (-2, -1), (2, -1), (-2, 1), (2, 1), (-1, 2), (1, 2))
}

// The goals that are on the board.
fn kept(goals: [Option<Square>; 8]) -> ArrayVec<Square, 8>
    ensures { result.items ≡ kept_goals goals }
{
    let mut squares = ArrayVec::new();
    for goal in goals {
        if let Some(square) = goal {
            squares.push(square);
        }
    }
    squares
}
