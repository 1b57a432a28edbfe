//! The cut of an archive in pieces into games.
ghost use Rattle.std.specs.Prelude.{◌≡◌, ◌+◌, ◌++◌, [], ◌<◌, ◌≤◌, ◌^◌, ℕ, List, length, map, OnOk, OnErr, All, true, false};
ghost use Rattle.pgn_batches.specs.KeptGames.{KeptGames, kept};
ghost use Rattle.pgn_batches.specs.Queues.{Fills};
ghost use Rattle.pgn_batches.specs.Streams.{Stands};
ghost use Rattle.pgn_batches.specs.Windows.{IsInside, IsWindowOf};

use crate::state::{Batches, Queue, Window};
use cq_common::NoMemory;
use pgn_cut::{Cutter, Span, closed_games_stay, games_stand_apart};
use std::alloc::Global;

/// Cuts games out of the window and the piece after it, which begins at the place `at`.
fn keep_all(
    alloc: Global,
    window: &Window,
    at: u64,
    piece: &[u8],
    spans: &[Span],
    queue: &mut Queue,
) -> Result<(), NoMemory>
    requires fills { (games : KeptGames) × (m : ℕ) × Fills queue.old games m × (length games + length spans.now < 2 ^ 61) }
    requires size { at + length piece.now < 2 ^ 62 }
    requires inside { All (IsInside window.now at (length piece.now)) spans.now }
    requires archive { (archive : List ℕ) × IsWindowOf window.now archive × (length archive ≡ at) }
    ensures { OnOk result ((archive : List ℕ) → IsWindowOf window.now archive → length archive ≡ at
        → (games : KeptGames) (m : ℕ) → Fills queue.old games m
        → Fills queue.new (games ++ map (kept (archive ++ piece.now)) spans.now) m) }
{
    for i in 0..spans.len() {
        let game = window.game(alloc, at, piece, spans[i])?;
        queue.add(alloc, game)?;
    }
    Ok(())
}

impl Batches {
    /// Returns batches of which none was given, of a source that was not read. At most `limit` bytes of it are taken,
    /// and one more. The limit must be from 1 to 2^40.
    pub fn new(alloc: Global, limit: u64) -> Batches
        requires { (1 ≤ limit) × (limit ≤ 2 ^ 40) }
        ensures stands { Stands result [] 0 }
        ensures limit { result.limit ≡ limit }
        ensures reads { result.ended ≡ false }
    {
        closed_games_stay();
        games_stand_apart();
        Batches {
            alloc,
            cutter: Cutter::new(),
            window: Window::new(alloc),
            queue: Queue::new(alloc),
            taken: 0,
            limit,
            ended: false,
        }
    }

    /// Takes the next bytes of the archive.
    pub(crate) fn feed(&mut self, piece: &[u8]) -> Result<(), NoMemory>
        requires stands { (front : List ℕ) × (m : ℕ) × Stands self.old front m
            × (length front + length piece.now ≤ self.old.limit + 1) }
        requires reads { self.old.ended ≡ false }
        ensures stands { OnOk result ((front : List ℕ) (m : ℕ) → Stands self.old front m
            → length front + length piece.now ≤ self.old.limit + 1 → Stands self.new (front ++ piece.now) m) }
        ensures reads { self.new.ended ≡ false }
        ensures limit { self.new.limit ≡ self.old.limit }
        ensures taken { OnOk result (self.new.taken ≡ self.old.taken + length piece.now) }
    {
        closed_games_stay();
        games_stand_apart();
        let mut spans = Vec::new(self.alloc);
        self.cutter.feed(piece, &mut spans)?;
        keep_all(
            self.alloc,
            &self.window,
            self.taken,
            piece,
            spans.as_slice(),
            &mut self.queue,
        )?;
        let at = self.taken;
        self.taken += piece.len() as u64;
        let place = self.cutter.open_at().unwrap_or(self.taken);
        self.window.go_on(at, piece, place)
    }

    /// Ends the archive.
    pub(crate) fn end(&mut self) -> Result<(), NoMemory>
        requires stands { (front : List ℕ) × (m : ℕ) × Stands self.old front m }
        requires reads { self.old.ended ≡ false }
        ensures stands { OnOk result ((front : List ℕ) (m : ℕ) → Stands self.old front m → Stands self.new front m) }
        ensures ended { OnOk result (self.new.ended ≡ true) }
        ensures refused { OnErr result (self.new.ended ≡ false) }
        ensures taken { self.new.taken ≡ self.old.taken }
        ensures limit { self.new.limit ≡ self.old.limit }
    {
        closed_games_stay();
        games_stand_apart();
        let mut spans = Vec::new(self.alloc);
        self.cutter.finish(&mut spans)?;
        keep_all(
            self.alloc,
            &self.window,
            self.taken,
            &[],
            spans.as_slice(),
            &mut self.queue,
        )?;
        self.ended = true;
        Ok(())
    }
}
