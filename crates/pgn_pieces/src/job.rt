//! The job that the command words name.
use cq_common::Bytes;

/// The greatest `least` number of bytes of a piece, and the most bytes of an archive.
pub(crate) const BYTES_LIMIT: u64 = 1_099_511_627_776;

/// Writes the table of the pieces of the archive in the file `archive`, each of at least `least` bytes but for the last.
#[derive(Debug, PartialEq, Eq, Drop)]
pub struct Job {
    pub archive: Bytes,
    /// From 1 to 2^40.
    pub least: u64,
}

/// The words are no command of the program.
#[derive(Clone, Copy, Debug, PartialEq, Eq)]
pub struct WordsRefused;
