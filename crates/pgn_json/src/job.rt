//! The job that the command words name.
use cq_common::Bytes;

/// The greatest number of workers.
pub(crate) const WORKERS_LIMIT: u64 = 64;

/// The most bytes that an archive may have.
pub(crate) const BYTES_LIMIT: u64 = 1_099_511_627_776;

/// Writes the games of the archive in the file `archive`. Each node with a comment of the words of `mark` has its position. If `mark` has
/// no word, all nodes have.
#[derive(Debug, PartialEq, Eq, Drop)]
pub struct Job {
    pub archive: Bytes,
    pub mark: Bytes,
    /// From 1 to 64.
    pub workers: u32,
    /// From 1 to 2^40.
    pub limit: u64,
}

/// The words are no command of the program.
#[derive(Clone, Copy, Debug, PartialEq, Eq)]
pub struct WordsRefused;
