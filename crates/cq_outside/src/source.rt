//! Sources of bytes.
ghost use Rattle.std.specs.Prelude.{◌≡◌, ◌≤◌, ◌-◌, List, ℕ, Option, length, IfOk};
ghost use Rattle.std.specs.Io.KnownBytes.{ReadConsumes};
ghost use Rattle.cq_outside.specs.Faults.{HasCause};

use cq_common::Failed;

/// A source, which is read piece by piece.
pub trait Source {
    /// The bytes left, if the source tells them.
    ghost left: { Self → Option (List ℕ) };

    /// The number of reads that failed.
    ghost faults: { Self → ℕ };

    /// The states that can follow a state by a list of reads, perhaps empty.
    ghost follows: { Self → Self → Type 0 };

    /// Moves some of the bytes left to the start of `buf`, and returns their number. It returns 0 for a buffer that is not empty only if
    /// nothing is left.
    ///
    /// # Errors
    ///
    /// Returns `Failed` if the read fails. It has then taken nothing.
    fn read(&mut self, buf: &mut [u8]) -> Result<usize, Failed>
        ensures bound { IfOk result (λ n. n ≤ length buf.old) }
        ensures bytes { ReadConsumes (left self.old) (left self.new) result buf.new }
        ensures cause { HasCause (faults self.old) (faults self.new) result }
        ensures next { follows self.old self.new };

    ghost follows_same: { (s : Self) → follows s s };

    ghost follows_on: { (s t u : Self) → follows s t → follows t u → follows s u };

    ghost never_falls: { (s t : Self) → follows s t → faults s ≤ faults t };
}
