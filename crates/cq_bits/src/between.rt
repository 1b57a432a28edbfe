//! The squares between two sets.
ghost use Rattle.std.specs.Prelude.{◌≡◌, ◌<◌, All, true};
ghost use Rattle.cq_geometry.specs.Lines.{lies_between};
ghost use Rattle.cq_position.specs.Bitboards.{contains};
ghost use Rattle.cq_bits.specs.Sets.{IsSetOf, IsBetween, IsBetweenOne};

use crate::attacks::with_square;
use cq_geometry::{Square, between};
use cq_square_sets::{BitSet64, lowest_square};

/// The squares strictly between a square of `a` and a square of `b` that are on one file, rank or diagonal.
pub fn between_all(a: BitSet64, b: BitSet64) -> BitSet64
    ensures { IsSetOf result (IsBetween a b) }
{
    let mut found = 0;
    let mut left = a;
    while left != 0 {
        let from = lowest_square(left);
        left &= !(1 << from.number());
        found |= between_one(from, b);
    }
    found
}

// The squares between this square and a square of `b`.
fn between_one(from: Square, b: BitSet64) -> BitSet64
    requires { from < 64 }
    ensures { IsSetOf result (IsBetweenOne b from) }
{
    let mut found = 0;
    let mut left = b;
    while left != 0 {
        let to = lowest_square(left);
        left &= !(1 << to.number());
        found |= between_two(from, to);
    }
    found
}

// The squares between two squares.
fn between_two(from: Square, to: Square) -> BitSet64
    requires from { from < 64 }
    requires to { to < 64 }
    ensures { IsSetOf result (λ square. lies_between from to square ≡ true) }
{
    set_of(between(from, to).as_slice())
}

// The set of the squares of a list.
fn set_of(squares: &[Square]) -> BitSet64
    requires { All (λ square. square < 64) squares.now }
    ensures { IsSetOf result (λ square. contains squares.now square ≡ true) }
{
    let mut set = 0;
    for square in squares {
        set = with_square(set, square.number(), true);
    }
    set
}
