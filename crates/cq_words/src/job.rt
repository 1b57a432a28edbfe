//! The jobs that command words name.
use cq_common::Bytes;

/// The most workers.
pub(crate) const WORKERS_LIMIT: u64 = 64;

/// The number of workers where none is given.
pub(crate) const DEFAULT_WORKERS: u64 = 4;

/// The greatest seed.
pub(crate) const SEED_LIMIT: u64 = 4_294_967_295;

/// The seed where none is given.
pub(crate) const DEFAULT_SEED: u64 = 1;

/// The most games of a made archive.
pub(crate) const GAMES_LIMIT: u64 = 100_000;

/// The number of games of a made archive where none is given.
pub(crate) const DEFAULT_GAMES: u64 = 100;

/// The greatest limit of an archive's bytes, and the default.
pub(crate) const BYTES_LIMIT: u64 = 1_099_511_627_776;

/// The job that the words name.
#[derive(Debug, PartialEq, Eq, Drop)]
pub enum Job {
    /// Searches the archive in the file `archive` for the query in the file `query`.
    Run {
        query: Bytes,
        archive: Bytes,
        settings: Settings,
    },
    /// Searches the archive in the file `archive` for the query `text`.
    Eval {
        text: Bytes,
        archive: Bytes,
        settings: Settings,
    },
    /// Checks that the query in the file `query` is accepted.
    Check {
        query: Bytes,
    },
    /// Writes the flat form of the query in the file `query`.
    Explain {
        query: Bytes,
    },
    /// Searches a made archive for the query `text`.
    SelfRun {
        text: Bytes,
        settings: SelfRunSettings,
    },
    /// Searches the archive in the file `archive`, in one reading, for each query in the file of queries `queries`. Never ends with the
    /// first match.
    Many {
        queries: Bytes,
        archive: Bytes,
        settings: Settings,
    },
}

/// The settings of a search: the number of workers, the limit of bytes, and the end at the first match.
#[derive(Clone, Copy, Debug, PartialEq, Eq)]
pub struct Settings {
    /// From 1 to 64.
    pub workers: u32,
    /// From 1 to 2^40.
    pub limit: u64,
    /// True if the first game that matches is written alone. Nothing is read after the read that completes its batch.
    pub first: bool,
}

/// The settings of a made archive and its search: the seed, the number of games, and the number of workers.
#[derive(Clone, Copy, Debug, PartialEq, Eq)]
pub struct SelfRunSettings {
    pub seed: u32,
    /// At most 100,000.
    pub games: u32,
    /// From 1 to 64.
    pub workers: u32,
}

/// The words are no command of the program.
#[derive(Clone, Copy, Debug, PartialEq, Eq)]
pub struct WordsRefused;
