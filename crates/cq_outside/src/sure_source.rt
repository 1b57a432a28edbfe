//! A source in memory that never fails.
ghost use Rattle.std.specs.Prelude.{◌≡◌, ◌≤◌, ◌++◌, List, ℕ, length, min, Some, IfOk};
ghost use Rattle.std.specs.Io.KnownBytes.{ReadConsumes};
ghost use Rattle.cq_outside.specs.Faults.{HasCause};

use crate::source::Source;
use cq_common::{Bytes, Failed};
use std::marker::Model;

/// A source of given bytes. Contracts see it as the bytes left.
#[derive(Drop, Debug)]
pub struct SureSource {
    bytes: Bytes,
    read: usize,
}

impl Model for SureSource {
    ghost use Rattle.std.specs.Prelude.{◌≤◌, List, ℕ, drop, length};

    ghost Value = { List ℕ };

    ghost view = { λ s. drop s.read s.bytes };

    ghost invariant = { λ s. s.read ≤ length s.bytes };
}

impl SureSource {
    /// A source that has these bytes left.
    pub fn new(bytes: Bytes) -> SureSource
        ensures { result ≡ bytes }
    {
        SureSource { bytes, read: 0 }
    }
}

impl Source for SureSource {
    ghost left = { λ s. Some s };

    ghost faults = { λ _. 0 };

    ghost follows = { λ s t. (bytes : List ℕ) × (s ≡ bytes ++ t) };

    /// Moves as many bytes as are left and fit `buf`.
    ///
    /// # Errors
    ///
    /// None: the result is always `Ok`.
    fn read(&mut self, buf: &mut [u8]) -> Result<usize, Failed>
        ensures fills { result ≡ Ok (min (length self.old) (length buf.old)) }
        ensures bound { IfOk result (λ n. n ≤ length buf.old) }
        ensures bytes { ReadConsumes (Some self.old) (Some self.new) result buf.new }
        ensures cause { HasCause 0 0 result }
        ensures next { (bytes : List ℕ) × (self.old ≡ bytes ++ self.new) }
    {
        let rest = &self.bytes.as_slice()[self.read..];
        let n = rest.len().min(buf.len());
        buf[..n].copy_from_slice(&rest[..n]);
        self.read += n;
        Ok(n)
    }

    ghost use Rattle.std.proofs.Common.{[], refl, sym, ◌∙◌, ap, append_assoc, lit≤};

    ghost follows_same = { λ s. ([], refl) };

    ghost follows_on = { λ s t u f g. (f.0 ++ g.0, f.1 ∙ ap (λ l. f.0 ++ l) g.1 ∙ sym (append_assoc f.0 g.0 u)) };

    ghost never_falls = { λ s t f. lit≤ tt };
}
