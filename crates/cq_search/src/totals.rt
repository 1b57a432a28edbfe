//! The totals of a query in an archive.
use crate::tally::Tally;

/// The number of bytes of an archive, the counts of its games, and the length in bytes of the exports together.
#[derive(Clone, Copy, Debug)]
pub struct Totals {
    pub bytes: u64,
    pub tally: Tally,
    pub written: u128,
}
