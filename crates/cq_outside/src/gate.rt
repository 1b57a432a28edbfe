//! A gate, told of each game as workers take it.
use cq_common::Shared;

/// The calls of a worker as it enters and leaves a game. Nothing that the program writes depends on them.
pub trait Gate {
    /// `worker` has drawn the game `shard` of the batch, and has not read it yet.
    fn enter(&self, worker: u64, shard: u64);

    /// `worker` has finished its work on the game `shard`. `text` is the game's export, and is empty if the game has a fault or no match.
    /// For several queries it is the export of the first.
    fn leave(&self, worker: u64, shard: u64, text: &[u8]);
}

/// The gate that does nothing.
#[derive(Clone, Copy, Debug, PartialEq, Eq)]
pub struct OpenGate;

impl Gate for OpenGate {
    fn enter(&self, _worker: u64, _shard: u64) {}

    fn leave(&self, _worker: u64, _shard: u64, _text: &[u8]) {}
}

impl Shared for OpenGate {}
