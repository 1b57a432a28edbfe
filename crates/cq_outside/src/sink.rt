//! Sinks of bytes.
ghost use Rattle.std.specs.Prelude.{◌≡◌, ◌≤◌, ◌<◌, List, ℕ, Option, length, IfOk};
ghost use Rattle.cq_outside.specs.Faults.{HasCause};
ghost use Rattle.cq_outside.specs.Flow.{WriteTakes};

use cq_common::Failed;

/// A sink, which takes bytes piece by piece.
pub trait Sink {
    /// The bytes taken, if the sink tells them.
    ghost taken: { Self → Option (List ℕ) };

    /// The number of writes that failed.
    ghost faults: { Self → ℕ };

    /// Takes a prefix of `bytes`, and returns its length, at least 1 if there are any bytes.
    ///
    /// # Errors
    ///
    /// Returns `Failed` if the write fails. It has then taken nothing.
    fn write(&mut self, bytes: &[u8]) -> Result<usize, Failed>
        ensures bound { IfOk result (λ n. n ≤ length bytes.now) }
        ensures moves { IfOk result (λ n. 0 < length bytes.now → 0 < n) }
        ensures bytes { WriteTakes (taken self.old) (taken self.new) result bytes.now }
        ensures cause { HasCause (faults self.old) (faults self.new) result };
}
