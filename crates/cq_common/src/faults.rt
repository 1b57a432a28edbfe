//! The reasons for which a call fails.
ghost use Rattle.std.specs.Prelude.{◌≡◌};
ghost use Rattle.cq_common.specs.declared.faults.OpenFault.TheVariants.{NoMemory as no_memory_to_open};
ghost use Rattle.cq_common.specs.declared.faults.Refusal.TheVariants.{NoMemory as no_memory_left};

use std::alloc::{AllocError, AllocFailed};

/// Memory ran out.
#[derive(Clone, Copy, Debug, PartialEq, Eq)]
pub struct NoMemory;

impl From<AllocError> for NoMemory {
    fn from(_: AllocError) -> Self {
        NoMemory
    }
}

impl<T: Drop> From<AllocFailed<T>> for NoMemory {
    fn from(_: AllocFailed<T>) -> Self {
        NoMemory
    }
}

/// A read or a write failed outside the program. The count of faults of its object rose.
#[derive(Clone, Copy, Debug, PartialEq, Eq)]
pub struct Failed;

/// A fault of the input, or out of memory.
#[derive(Clone, Copy, Debug, PartialEq, Eq, Drop)]
pub enum Refusal<F> {
    /// The input or the request has this fault.
    Fault(F),
    /// Memory ran out.
    NoMemory,
}

impl<F> From<NoMemory> for Refusal<F> {
    ghost from_gives = { λ _ refusal. refusal ≡ no_memory_left };

    fn from(_: NoMemory) -> Self {
        Refusal::NoMemory
    }
}

impl<F> From<AllocError> for Refusal<F> {
    ghost from_gives = { λ _ refusal. refusal ≡ no_memory_left };

    fn from(_: AllocError) -> Self {
        Refusal::NoMemory
    }
}

impl<F, T: Drop> From<AllocFailed<T>> for Refusal<F> {
    ghost from_gives = { λ _ refusal. refusal ≡ no_memory_left };

    fn from(_: AllocFailed<T>) -> Self {
        Refusal::NoMemory
    }
}

/// The reasons for which a file was not opened.
#[derive(Clone, Copy, Debug, PartialEq, Eq)]
pub enum OpenFault {
    /// The desk failed to open it. The desk's count of open faults rose.
    Failed,
    /// Memory ran out.
    NoMemory,
}

impl From<NoMemory> for OpenFault {
    ghost from_gives = { λ _ fault. fault ≡ no_memory_to_open };

    fn from(_: NoMemory) -> Self {
        OpenFault::NoMemory
    }
}

impl From<AllocError> for OpenFault {
    ghost from_gives = { λ _ fault. fault ≡ no_memory_to_open };

    fn from(_: AllocError) -> Self {
        OpenFault::NoMemory
    }
}

impl<T: Drop> From<AllocFailed<T>> for OpenFault {
    ghost from_gives = { λ _ fault. fault ≡ no_memory_to_open };

    fn from(_: AllocFailed<T>) -> Self {
        OpenFault::NoMemory
    }
}
