//! Squares on one rank, file or diagonal.
ghost use Rattle.std.specs.Prelude.{◌≡◌, All, ◌≤◌, ◌<◌};
ghost use Rattle.cq_geometry.specs.Directions.{direction_to};
ghost use Rattle.cq_geometry.specs.Internal.Expansions.{steps_below};
ghost use Rattle.cq_geometry.specs.Lines.{between_squares};
ghost use Rattle.cq_geometry.specs.Steps.{IsDirection, distance as king_distance, ray_from};

use crate::compass::{Compass, toward};
use crate::square::{Square, file, files_apart, rank, ranks_apart};
use crate::steps::Step;
use arrayvec::ArrayVec;
use std::cmp::Ordering;

/// The squares from a square in a direction, in order up to the edge. The direction is `DF` files to the right and `DR` ranks up, each from
/// -1 to 1 and not both 0.
pub fn ray<const DF: i8, const DR: i8>(s: Square) -> ArrayVec<Square, 7>
    requires { IsDirection DF DR }
    ensures squares { result.items ≡ ray_from DF DR s }
    ensures board { All (λ square. square < 64) result.items }
{
    let mut squares = ArrayVec::new();
    let mut at = s;
    while let Some(next) = Step::<DF, DR>::step(at) {
        squares.push(next);
        at = next;
    }
    squares
}

/// The squares strictly between two squares of one rank, file or diagonal, from `a` to `b`. There are none for other pairs.
#[tactic(auto, using(crate::proofs::Inside::between_board))]
pub fn between(a: Square, b: Square) -> ArrayVec<Square, 6>
    ensures squares { result.items ≡ between_squares a b }
    ensures board { All (λ square. square < 64) result.items }
{
    match direction(a, b) {
        Some(c) => along(a, c, distance(a, b)),
        None => ArrayVec::new(),
    }
}

// The squares fewer than `end` steps away in a direction, the nearest first.
fn along(s: Square, c: Compass, end: u32) -> ArrayVec<Square, 6>
    requires { end ≤ 7 }
    ensures { result.items ≡ steps_below s c end }
{
    let mut squares = ArrayVec::new();
    for n in 1..end {
        if let Some(square) = toward(s, c, n) {
            squares.push(square);
        }
    }
    squares
}

// The number of moves that a king needs from one square to another.
fn distance(a: Square, b: Square) -> u32
    ensures value { result ≡ king_distance a b }
    ensures bound { result ≤ 7 }
{
    u32::from(files_apart(a, b).max(ranks_apart(a, b)))
}

// The direction from `a` to `b`, or None if they are the same or not on one rank, file or diagonal.
#[tactic(auto, unfolding(crate::specs::Directions::direction_to))]
fn direction(a: Square, b: Square) -> Option<Compass>
    ensures { result ≡ direction_to a b }
{
    let diagonal = files_apart(a, b) == ranks_apart(a, b);
    match (file(a).cmp(&file(b)), rank(a).cmp(&rank(b))) {
        (Ordering::Equal, Ordering::Less) => Some(Compass::Up),
        (Ordering::Equal, Ordering::Greater) => Some(Compass::Down),
        (Ordering::Greater, Ordering::Equal) => Some(Compass::Left),
        (Ordering::Less, Ordering::Equal) => Some(Compass::Right),
        (Ordering::Less, Ordering::Less) if diagonal => Some(Compass::Northeast),
        (Ordering::Greater, Ordering::Less) if diagonal => Some(Compass::Northwest),
        (Ordering::Less, Ordering::Greater) if diagonal => Some(Compass::Southeast),
        (Ordering::Greater, Ordering::Greater) if diagonal => Some(Compass::Southwest),
        _ => None,
    }
}
