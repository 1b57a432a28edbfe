//! The bytes of the open game.
ghost use Rattle.std.specs.Prelude.{◌≡◌, ◌+◌, ◌-◌, ◌++◌, [], ◌<◌, ◌≤◌, ◌^◌, List, ℕ, length, min, slice_range, IfOk, OnOk};
ghost use Rattle.pgn_batches.specs.KeptGames.{kept};
ghost use Rattle.pgn_batches.specs.Windows.{IsInside, IsWindowOf};

use crate::kept_game::{KeptGame, LONGEST};
use crate::state::Window;
use cq_common::{Bytes, NoMemory};
use pgn_cut::Span;
use std::alloc::Global;

/// The largest number of bytes kept of a game.
pub(crate) const MOST_KEPT: u64 = LONGEST + 1;

impl Window {
    pub(crate) fn new(alloc: Global) -> Window
        ensures shows { IsWindowOf result [] }
        ensures from { result.from ≡ 0 }
    {
        Window {
            bytes: Vec::new(alloc),
            from: 0,
        }
    }

    /// Returns the kept part of a game that begins with the window or in the piece after its bytes. The piece begins at
    /// the place `at`.
    #[tactic(auto, unfolding(crate::specs::KeptGames::most_kept))]
    pub(crate) fn game(
        &self,
        alloc: Global,
        at: u64,
        piece: &[u8],
        span: Span,
    ) -> Result<KeptGame, NoMemory>
        requires size { at + length piece.now < 2 ^ 62 }
        requires inside { IsInside self.now at (length piece.now) span }
        ensures { IfOk result (λ game. (archive : List ℕ) → IsWindowOf self.now archive → length archive ≡ at
            → game ≡ kept (archive ++ piece.now) span) }
    {
        let end = span.end.min(span.start + MOST_KEPT);
        let mut bytes = Bytes::new(alloc);
        bytes.push_all(part(self.bytes.as_slice(), self.from, span.start, end))?;
        bytes.push_all(part(piece, at, span.start, end))?;
        Ok(KeptGame {
            bytes,
            start: span.start,
            first: span.first,
        })
    }

    /// Moves on over a piece at the place `at`. The open game begins at `place`: there in the piece, or with the
    /// window.
    pub(crate) fn go_on(&mut self, at: u64, piece: &[u8], place: u64) -> Result<(), NoMemory>
        requires size { at + length piece.now < 2 ^ 62 }
        ensures shows { OnOk result ((archive : List ℕ) → IsWindowOf self.old archive → length archive ≡ at
            → IsWindowOf self.new (archive ++ piece.now)) }
        ensures same { place < at → self.new.from ≡ self.old.from }
        ensures moved { at ≤ place → self.new.from ≡ min place (at + length piece.now) }
    {
        if place < at {
            return self.grow(piece);
        }
        let passed = piece.len().min((place - at) as usize);
        self.bytes.clear();
        self.from = at + passed as u64;
        self.grow(&piece[passed..])
    }

    /// Adds bytes of the open game.
    #[tactic(auto, unfolding(crate::specs::KeptGames::most_kept))]
    fn grow(&mut self, piece: &[u8]) -> Result<(), NoMemory>
        ensures shows { OnOk result ((archive : List ℕ) → IsWindowOf self.old archive → IsWindowOf self.new (archive ++ piece.now)) }
        ensures from { self.new.from ≡ self.old.from }
    {
        let room = MOST_KEPT as usize - self.bytes.len();
        self.bytes
            .extend_from_slice(&piece[..piece.len().min(room)])?;
        Ok(())
    }
}

/// Returns the bytes from the place `start` on and before `end`; the first of all is at the place `from`.
pub(crate) fn part(bytes: &[u8], from: u64, start: u64, end: u64) -> &[u8]
    requires { start ≤ end }
    ensures { result.now ≡ slice_range bytes.now (min (length bytes.now) (start - from)) (min (length bytes.now) (end - from)) }
{
    let first = bytes.len().min(start.saturating_sub(from) as usize);
    let last = bytes.len().min(end.saturating_sub(from) as usize);
    &bytes[first..last]
}
