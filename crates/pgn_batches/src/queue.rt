//! Full batches in a queue, and the games of the one that is not full yet.
ghost use Rattle.std.specs.Prelude.{◌≡◌, ◌+◌, ◌++◌, ◌⊎◌, ◌∷◌, [], ◌<◌, ◌^◌, ℕ, length, OnOk, None, IfSome, true};
ghost use Rattle.pgn_batches.specs.Batching.{full_at};
ghost use Rattle.pgn_batches.specs.KeptGames.{KeptGames};
ghost use Rattle.pgn_batches.specs.Queues.{Fills, IsNextBatch, IsDone, GivesLast};

use crate::batch::Batch;
use crate::kept_game::{KeptGame, LONGEST};
use crate::state::Queue;
use cq_common::NoMemory;
use std::alloc::Global;
use std::collections::VecDeque;
use std::mem;

/// The number of games that fill a batch.
const MOST_GAMES: usize = 1024;

/// True if `games` games of `bytes` bytes together fill a batch: 1,024 games, or as many bytes as one game may have.
#[tactic(auto, unfolding(crate::specs::Batching::full_at))]
fn is_full(games: usize, bytes: u64) -> bool
    ensures { result ≡ full_at games bytes }
{
    games >= MOST_GAMES || bytes >= LONGEST
}

impl Queue {
    pub(crate) fn new(alloc: Global) -> Queue
        ensures { Fills result [] 0 }
    {
        Queue {
            full: VecDeque::new(alloc),
            open: Vec::new(alloc),
            size: 0,
            index: 0,
        }
    }

    /// Adds a game.
    pub(crate) fn add(&mut self, alloc: Global, game: KeptGame) -> Result<(), NoMemory>
        requires fills { (games : KeptGames) × (m : ℕ) × Fills self.old games m × (length games < 2 ^ 61) }
        requires short { length game.bytes < 2 ^ 62 }
        requires start { game.start < 2 ^ 62 }
        ensures { OnOk result ((games : KeptGames) (m : ℕ) → Fills self.old games m → Fills self.new (games ++ game ∷ []) m) }
    {
        let bytes = game.bytes.len() as u64;
        self.open.push(game)?;
        self.size += bytes;
        if is_full(self.open.len(), self.size) {
            let count = self.open.len() as u64;
            let games = mem::replace(&mut self.open, Vec::new(alloc));
            self.full.push_back(Batch {
                games,
                index: self.index,
            })?;
            self.index += count;
            self.size = 0;
        }
        Ok(())
    }

    /// Returns the next full batch.
    pub(crate) fn take_full(&mut self) -> Option<Batch>
        ensures some { IfSome result (λ batch. (games : KeptGames) (m : ℕ) → Fills self.old games m
            → IsNextBatch games m batch × Fills self.new games (m + 1)) }
        ensures first { IfSome result (λ batch. self.old.full.items ≡ batch ∷ self.new.full.items) }
        ensures none { result ≡ None → self.new.full.items ≡ [] }
        ensures empty { result ≡ None → self.old.full.items ≡ [] }
        ensures kept { result ≡ None → (games : KeptGames) (m : ℕ) → Fills self.old games m ⊎ IsDone self.old games m
            → Fills self.new games m ⊎ IsDone self.new games m }
    {
        self.full.pop_front()
    }

    /// Returns true if the queue has no full batch.
    pub(crate) fn has_none(&self) -> bool
        ensures none { result ≡ true → self.now.full.items ≡ [] }
        ensures some { self.now.full.items ≡ [] → result ≡ true }
    {
        self.full.is_empty()
    }

    /// Returns the games that fill no batch, if there are some.
    pub(crate) fn take_last(&mut self, alloc: Global) -> Option<Batch>
        ensures { (games : KeptGames) (m : ℕ) → Fills self.old games m ⊎ IsDone self.old games m → self.old.full.items ≡ []
            → GivesLast games m result self.new }
    {
        if self.open.is_empty() {
            return None;
        }
        let games = mem::replace(&mut self.open, Vec::new(alloc));
        Some(Batch {
            games,
            index: self.index,
        })
    }
}
