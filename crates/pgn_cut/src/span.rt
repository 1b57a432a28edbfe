//! The place of a game in its archive.

use cq_common::Shared;

/// A game of an archive: the place of its first byte, the place after its last, and `first` (true if its first byte is
/// in the first column). Places count from the archive's first byte.
#[derive(Clone, Copy, Debug, PartialEq, Eq)]
pub struct Span {
    pub start: u64,
    pub end: u64,
    pub first: bool,
}

impl Shared for Span {}
