//! A game of an archive, as a batch keeps it.

use cq_common::{Bytes, Shared};

/// The largest size of a game in bytes.
pub(crate) const LONGEST: u64 = 1 << 24;

/// A game of an archive: its bytes, the place of the first, and `first` (true if that byte is in the first column). Of
/// a game longer than 2^24 bytes the first 2^24 + 1 are kept.
#[derive(Drop)]
pub struct KeptGame {
    pub bytes: Bytes,
    pub start: u64,
    pub first: bool,
}

impl Shared for KeptGame {}
