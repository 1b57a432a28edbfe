//! The constructor and the accessors of a batch.
ghost use Rattle.std.specs.Prelude.{◌≡◌, ◌+◌, ◌++◌, ◌<◌, ◌≤◌, ◌^◌, List, Some, length, map, slice_get, IfOk};
ghost use Rattle.pgn_cut.specs.Cut.{cut};
ghost use Rattle.pgn_cut.specs.declared.span.Span.{Span as ASpan};
ghost use Rattle.pgn_batches.specs.Games.{games_of, number_of};
ghost use Rattle.pgn_batches.specs.KeptGames.{kept};

use crate::batch::Batch;
use crate::kept_game::KeptGame;
use crate::window::{MOST_KEPT, part};
use cq_common::{Bytes, NoMemory};
use pgn_cut::{Span, games_stand_apart};
use std::alloc::Global;

impl Batch {
    /// Returns the batch of consecutive games of the archive `bytes`; the first has the number `index` there, counted
    /// from 0. Of a game longer than 2^24 bytes the first 2^24 + 1 are kept.
    ///
    /// Conditions: the spans are consecutive games of the cut of the archive, fewer than 2^32. The archive has fewer
    /// than 2^62 bytes, and numbers are below 2^62.
    ///
    /// # Errors
    ///
    /// Fails only if out of memory.
    pub fn of(alloc: Global, bytes: &[u8], spans: &[Span], index: u64) -> Result<Batch, NoMemory>
        requires size { length bytes.now < 2 ^ 62 }
        requires spans { (before after : List ASpan) × (cut bytes.now ≡ before ++ (spans.now ++ after)) }
        requires few { length spans.now < 2 ^ 32 }
        requires numbers { index + length spans.now < 2 ^ 62 }
        ensures games { IfOk result (λ batch. games_of batch ≡ map (kept bytes.now) spans.now) }
        ensures index { IfOk result (λ batch. number_of batch ≡ index) }
    {
        games_stand_apart();
        let mut games = Vec::with_capacity(alloc, spans.len())?;
        for i in 0..spans.len() {
            games.push(kept_game(alloc, bytes, spans[i])?)?;
        }
        Ok(Batch { games, index })
    }

    /// Returns the number of games.
    pub fn len(&self) -> u32
        ensures { result ≡ length (games_of self.now) }
    {
        self.games.len() as u32
    }

    /// Returns the number of the first game in the archive, counted from 0.
    pub fn index(&self) -> u64
        ensures { result ≡ number_of self.now }
    {
        self.index
    }

    /// Returns the game with this number in the batch, counted from 0.
    pub fn game(&self, number: u64) -> &KeptGame
        requires { number < length (games_of self.now) }
        ensures { slice_get (games_of self.now) number ≡ Some result.now }
    {
        &self.games[number as usize]
    }
}

// The kept part of a game of an archive.
#[tactic(auto, unfolding(crate::specs::KeptGames::most_kept))]
fn kept_game(alloc: Global, bytes: &[u8], span: Span) -> Result<KeptGame, NoMemory>
    requires size { length bytes.now < 2 ^ 62 }
    requires inside { (span.start < span.end) × (span.end ≤ length bytes.now) }
    ensures { IfOk result (λ game. game ≡ kept bytes.now span) }
{
    let end = span.end.min(span.start + MOST_KEPT);
    Ok(KeptGame {
        bytes: Bytes::from_slice(alloc, part(bytes, 0, span.start, end))?,
        start: span.start,
        first: span.first,
    })
}
