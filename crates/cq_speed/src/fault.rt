//! The causes for which nothing is measured.
use cq_common::NoMemory;
use std::alloc::{AllocError, AllocFailed};
use std::io;
use thiserror::Error;

/// The causes for which nothing, or no more, is measured.
#[derive(Clone, Copy, Debug, Error)]
pub enum SpeedFault {
    #[error("usage: cq_speed moves ROUNDS < POSITIONS, or cq_speed games < ARCHIVE")]
    Words,
    #[error("a line of the positions is not a position, a bar and texts of moves")]
    Position,
    #[error("the archive has 2^40 bytes or more")]
    TooLong,
    #[error("no memory")]
    NoMemory,
    #[error("the input, the output or the clock failed")]
    Outside,
}

impl From<NoMemory> for SpeedFault {
    fn from(_: NoMemory) -> Self {
        SpeedFault::NoMemory
    }
}

impl From<AllocError> for SpeedFault {
    fn from(_: AllocError) -> Self {
        SpeedFault::NoMemory
    }
}

impl<T: Drop> From<AllocFailed<T>> for SpeedFault {
    fn from(_: AllocFailed<T>) -> Self {
        SpeedFault::NoMemory
    }
}

impl From<io::Error> for SpeedFault {
    fn from(_: io::Error) -> Self {
        SpeedFault::Outside
    }
}
