//! Numbers of calls. A form in memory fails at the calls with its numbers.
ghost use Rattle.std.specs.Prelude.{◌≡◌, ◌↔◌, List, [], ℕ, Contains, IfOk, IsTrue, if◌then◌else◌};
ghost use Rattle.cq_outside.specs.Calls.{is_listed, one_more};

use cq_common::NoMemory;
use std::alloc::Global;
use std::marker::Model;

/// Numbers of calls. The first call has the number 1. Contracts see them as a list.
#[derive(Drop, Debug)]
pub struct Calls {
    numbers: Vec<u64>,
}

impl Model for Calls {
    ghost Value = { List ℕ };

    ghost view = { λ c. c.numbers.items };
}

impl Calls {
    /// The calls with these numbers.
    ///
    /// # Errors
    ///
    /// Returns `NoMemory` if memory runs out.
    pub fn of(alloc: Global, numbers: &[u64]) -> Result<Calls, NoMemory>
        ensures { IfOk result (λ calls. calls ≡ numbers.now) }
    {
        Ok(Calls {
            numbers: Vec::from_slice(alloc, numbers)?,
        })
    }

    /// No calls. It takes no memory.
    pub fn none(alloc: Global) -> Calls
        ensures { result ≡ [] }
    {
        Calls {
            numbers: Vec::new(alloc),
        }
    }

    /// All the numbers.
    pub fn as_slice(&self) -> &[u64]
        ensures { result.now ≡ self.now }
    {
        self.numbers.as_slice()
    }

    /// Returns true if the call with this number is among them.
    pub fn has(&self, number: u64) -> bool
        ensures value { result ≡ is_listed self.now number }
        ensures found { IsTrue result ↔ Contains self.now number }
    {
        self.numbers.contains(&number)
    }
}

// Counts a call, and returns true if it is among those that fail. Such a call also adds one to the faults.
pub(crate) fn fails_next(fails: &Calls, calls: &mut u64, faults: &mut u64) -> bool
    ensures value { result ≡ is_listed fails.now (one_more calls.old) }
    ensures found { IsTrue result ↔ Contains fails.now (one_more calls.old) }
    ensures counted { calls.new ≡ one_more calls.old }
    ensures failed { faults.new ≡ (if result then one_more faults.old else faults.old) }
{
    *calls = calls.saturating_add(1);
    let has_failed = fails.has(*calls);
    if has_failed {
        *faults = faults.saturating_add(1);
    }
    has_failed
}
