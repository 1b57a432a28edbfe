//! The first and the last place of a mask. Most masks have one or two places, side by side.
ghost use Rattle.std.specs.Prelude.{◌≡◌, ℕ, ◌<◌, ◌≤◌, false};
ghost use Rattle.cql_lines.specs.Internal.Lengths.{is_set};

/// Returns a number of at most `count` such that no place before it is in the mask.
pub(crate) fn first_place(mask: u64, count: usize) -> usize
    ensures within { result ≤ count }
    ensures before { (j : ℕ) → j < result → is_set mask j ≡ false }
{
    (mask.trailing_zeros() as usize).min(count)
}

/// Returns a number of at most `count` such that none of the first `count` places is in the mask from there on.
pub(crate) fn past_places(mask: u64, count: usize) -> usize
    ensures within { result ≤ count }
    ensures past { (j : ℕ) → result ≤ j → j < count → is_set mask j ≡ false }
{
    (64 - mask.leading_zeros() as usize).min(count)
}
