//! A list of bytes that grows.
ghost use Rattle.std.specs.Prelude.{◌≡◌, ◌++◌, ◌==◌, ◌↔◌, List, [], ℕ, length, nat_eq, IfOk, OnOk, OnErr, IsTrue};
ghost use Rattle.std.specs.Cmp.{partial_equiv_from_equiv};
ghost use Rattle.std.specs.Cmp.Lexicographic.{pointwise, nat_list_eq_equiv};
ghost use Rattle.std.specs.Fmt.{signed_decimal};

use crate::faults::NoMemory;
use itoa::Buffer;
use std::alloc::Global;
use std::marker::Model;

/// A list of bytes. Contracts see it as that list.
#[derive(Drop, Debug)]
pub struct Bytes {
    bytes: Vec<u8>,
}

impl Model for Bytes {
    ghost Value = { List ℕ };

    ghost view = { λ b. b.bytes.items };
}

impl PartialEq for Bytes {
    ghost eq = { pointwise nat_eq };

    ghost laws = { partial_equiv_from_equiv nat_list_eq_equiv };

    /// Returns true if both are the same list.
    fn eq(&self, other: &Bytes) -> bool
        ensures value { result ≡ pointwise nat_eq self.now other.now }
        ensures same { IsTrue result ↔ (self.now ≡ other.now) }
    {
        self.as_slice() == other.as_slice()
    }
}

impl Eq for Bytes {
    ghost laws = { nat_list_eq_equiv };
}

impl Bytes {
    /// An empty list. It takes no memory.
    pub fn new(alloc: Global) -> Bytes
        ensures { result ≡ [] }
    {
        Bytes {
            bytes: Vec::new(alloc),
        }
    }

    /// A copy of `bytes`.
    ///
    /// # Errors
    ///
    /// Returns `NoMemory` if memory runs out.
    pub fn from_slice(alloc: Global, bytes: &[u8]) -> Result<Bytes, NoMemory>
        ensures { IfOk result (λ copy. copy ≡ bytes.now) }
    {
        Ok(Bytes {
            bytes: Vec::from_slice(alloc, bytes)?,
        })
    }

    /// These bytes, moved and not copied. It takes no memory.
    pub fn from_vec(bytes: Vec<u8>) -> Bytes
        ensures { result ≡ bytes.items }
    {
        Bytes { bytes }
    }

    /// The number of bytes.
    pub fn len(&self) -> usize
        ensures { result ≡ length self.now }
    {
        self.bytes.len()
    }

    /// Returns true if there are no bytes.
    pub fn is_empty(&self) -> bool
        ensures { result ≡ (length self.now == 0) }
    {
        self.bytes.is_empty()
    }

    /// All the bytes.
    pub fn as_slice(&self) -> &[u8]
        ensures { result.now ≡ self.now }
    {
        self.bytes.as_slice()
    }

    /// Adds bytes at the end.
    ///
    /// # Errors
    ///
    /// Returns `NoMemory` if memory runs out.
    pub fn push_all(&mut self, more: &[u8]) -> Result<(), NoMemory>
        ensures ok { OnOk result (self.new ≡ self.old ++ more.now) }
        ensures err { OnErr result (self.new ≡ self.old) }
    {
        self.bytes.extend_from_slice(more)?;
        Ok(())
    }

    /// Adds the decimal digits of `n` at the end, after a minus sign if it is below 0.
    ///
    /// # Errors
    ///
    /// Returns `NoMemory` if memory runs out.
    pub fn push_number(&mut self, n: i64) -> Result<(), NoMemory>
        ensures ok { OnOk result (self.new ≡ self.old ++ signed_decimal n) }
        ensures err { OnErr result (self.new ≡ self.old) }
    {
        self.push_all(Buffer::new().format(n).as_bytes())
    }
}
