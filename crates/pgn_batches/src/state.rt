//! The state of an archive that is given in batches.
ghost use Rattle.std.specs.Prelude.{◌+◌, ◌<◌, ◌≤◌, ◌^◌, length, All};

use crate::batch::Batch;
use crate::kept_game::KeptGame;
use cq_common::Shared;
use pgn_cut::Cutter;
use std::alloc::Global;
use std::collections::VecDeque;

/// The first bytes of the open game, at most as many as are kept of a game, and the place of the first.
#[derive(Drop)]
pub(crate) struct Window {
    pub(crate) bytes: Vec<u8>,
    pub(crate) from: u64,
    ghost few: { length bytes.items ≤ 2 ^ 24 + 1 },
}

/// The full batches in the queue, the games after them, the number of bytes kept of these, and the number of the first
/// of them.
#[derive(Drop)]
pub(crate) struct Queue {
    pub(crate) full: VecDeque<Batch>,
    pub(crate) open: Vec<KeptGame>,
    pub(crate) size: u64,
    pub(crate) index: u64,
    ghost starts: { All (λ g. g.start < 2 ^ 62) open.items },
    ghost few: { length open.items < 1024 },
    ghost numbers: { index + length open.items < 2 ^ 62 },
}

/// The cause of a failed call for a batch.
#[derive(Clone, Copy, Debug)]
pub enum BatchFault {
    /// A read failed.
    ReadFault,
    /// More bytes than the limit were read, and no full batch is left.
    ArchiveTooLong,
}

/// The games of a source that is read piece by piece. The bytes of closed games are kept in batches alone. Of the open
/// game no more bytes are kept than of any game.
#[derive(Drop)]
pub struct Batches {
    pub(crate) alloc: Global,
    pub(crate) cutter: Cutter,
    pub(crate) window: Window,
    pub(crate) queue: Queue,
    pub(crate) taken: u64,
    pub(crate) limit: u64,
    pub(crate) ended: bool,
    ghost limits: { (1 ≤ limit) × (limit ≤ 2 ^ 40) },
}

impl Shared for Batches {}
