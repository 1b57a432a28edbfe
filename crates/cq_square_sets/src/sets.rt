//! Sets of one square, the intersection of two sets, and the lowest and highest squares of a set.
ghost use Rattle.std.specs.Prelude.{◌≡◌, ◌<◌, ◌&&◌, ℕ, Bool};
ghost use Rattle.std.specs.Int.{bit_at, trailing_zeros, w64};
ghost use Rattle.std.specs.List.{list_any};
ghost use Rattle.cq_geometry.specs.Squares.{squares};
ghost use Rattle.cq_square_sets.specs.Bitboards.{IsBitboard, is_goal};

use cq_geometry::Square;

/// The set of one square, or the empty set for None.
#[inline]
pub fn set_of(square: Option<Square>) -> u64
    ensures { IsBitboard result (is_goal square) }
{
    match square {
        Some(square) => 1 << square.number(),
        None => 0,
    }
}

/// Returns true if two sets have a square in common.
#[inline]
pub fn meets(a: u64, b: u64) -> bool
    ensures { (t u : ℕ → Bool) → IsBitboard a t → IsBitboard b u → result ≡ list_any (λ k. t k && u k) squares }
{
    a & b != 0
}

/// The lowest square of a set that is not empty.
#[inline]
pub fn lowest_square(set: u64) -> Square
    requires { 0 < set }
    ensures value { result ≡ trailing_zeros w64 set }
    ensures board { result < 64 }
{
    Square::new(set.trailing_zeros() as u8)
}

/// The highest square of a set that is not empty.
#[tactic(auto, using(crate::proofs::Orders::highest_low))]
#[inline]
pub fn highest_square(set: u64) -> Square
    requires { 0 < set }
    ensures value { bit_at set result ≡ 1 }
    ensures above { (k : ℕ) → result < k → bit_at set k ≡ 0 }
    ensures board { result < 64 }
{
    Square::new(63 - set.leading_zeros() as u8)
}
