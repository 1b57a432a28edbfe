//! The pieces of an archive that is fed in parts.
ghost use Rattle.std.specs.Prelude.{◌≡◌, ◌+◌, ◌++◌, ◌<◌, ◌≤◌, ◌^◌, [], ◌∷◌, ℕ, List, length, OnOk, OnErr, IfOk};
ghost use Rattle.pgn_cut.specs.Spans.{AreSpansInOrder};
ghost use Rattle.pgn_pieces.specs.Pieces.{last_piece};
ghost use Rattle.pgn_pieces.specs.Table.{table};
ghost use Rattle.pgn_pieces.specs.State.{Shows, Stands, AddsGames, TakesBytes, ComesToEnd};
ghost use Rattle.pgn_pieces.specs.declared.piece.Piece.{Piece as APiece};

use crate::piece::PieceStart;
use crate::state::{OpenPiece, Pieces};
use crate::table::push_line;
use cq_common::{Bytes, NoMemory};
use pgn_cut::{Cutter, Span, closed_games_stay, games_stand_apart};
use std::alloc::Global;

impl OpenPiece {
    // Returns the open piece before any byte was taken.
    fn new() -> OpenPiece
        ensures shows { (least : ℕ) → 0 < least → Shows least result [] [] }
        ensures end { result.end ≡ 0 }
    {
        OpenPiece {
            begin: PieceStart::start(),
            games: 0,
            end: 0,
        }
    }

    // Returns the open piece with one game more. Adds the line of the piece if it is long enough with it.
    fn with(self, game: Span, least: u64, text: &mut Bytes) -> Result<OpenPiece, NoMemory>
        requires order { (self.end < game.end) × (game.end < 2 ^ 62) }
        ensures adds { IfOk result (λ now. AddsGames least self now (game ∷ []) text.old text.new) }
        ensures end { IfOk result (λ now. now.end ≡ game.end) }
    {
        let games = self.games + 1;
        if game.end - self.begin.from < least {
            return Ok(OpenPiece {
                begin: self.begin,
                games,
                end: game.end,
            });
        }
        let piece = self.begin.piece_to(game.end, games);
        push_line(text, piece)?;
        Ok(OpenPiece {
            begin: piece.after(),
            games: 0,
            end: game.end,
        })
    }

    // Adds the line of the rest of an archive of so many bytes, if there is a rest.
    fn push_last(self, total: u64, text: &mut Bytes) -> Result<(), NoMemory>
        ensures { OnOk result (text.new ≡ text.old ++ table (last_piece self.begin total self.games)) }
    {
        if total <= self.begin.from {
            return Ok(());
        }
        push_line(text, self.begin.piece_to(total, self.games))
    }
}

// Returns the open piece after more games. Adds the lines of the pieces that are long enough with them.
fn add_all(
    open_piece: OpenPiece,
    games: &[Span],
    least: u64,
    text: &mut Bytes,
) -> Result<OpenPiece, NoMemory>
    requires order { (to : ℕ) × (to < 2 ^ 62) × AreSpansInOrder open_piece.end to games.now }
    ensures { IfOk result (λ now. AddsGames least open_piece now games.now text.old text.new) }
{
    let mut now = open_piece;
    for game in games {
        now = now.with(*game, least, text)?;
    }
    Ok(now)
}

impl Pieces {
    /// Returns the pieces of an archive of which nothing was taken. Each is to have at least `least` bytes, from 1 to 2^40.
    pub fn new(alloc: Global, least: u64) -> Pieces
        requires { (1 ≤ least) × (least ≤ 2 ^ 40) }
        ensures stands { Stands result [] [] }
        ensures least { result.least ≡ least }
    {
        closed_games_stay();
        games_stand_apart();
        Pieces {
            alloc,
            cutter: Cutter::new(),
            open_piece: OpenPiece::new(),
            taken: 0,
            least,
        }
    }

    /// Takes the next bytes of the archive, and adds the lines of the pieces that are long enough with them. All bytes together are fewer
    /// than 2^62.
    ///
    /// # Errors
    ///
    /// `NoMemory`: out of memory; nothing is taken or added.
    pub fn feed(&mut self, bytes: &[u8], text: &mut Bytes) -> Result<(), NoMemory>
        requires { (front : List ℕ) × (pieces : List APiece) × Stands self.old front pieces × (length front + length bytes.now < 2 ^ 62) }
        ensures takes { OnOk result (TakesBytes self.old self.new bytes.now text.old text.new) }
        ensures unchanged { OnErr result ((self.new ≡ self.old) × (text.new ≡ text.old)) }
        ensures least { self.new.least ≡ self.old.least }
    {
        closed_games_stay();
        games_stand_apart();
        let mut cutter = self.cutter;
        let mut games = Vec::new(self.alloc);
        cutter.feed(bytes, &mut games)?;
        let mut lines = Bytes::new(self.alloc);
        let open_piece = add_all(self.open_piece, games.as_slice(), self.least, &mut lines)?;
        text.push_all(lines.as_slice())?;
        self.cutter = cutter;
        self.open_piece = open_piece;
        self.taken += bytes.len() as u64;
        Ok(())
    }

    /// Adds the lines of the last pieces, at the archive's end.
    ///
    /// # Errors
    ///
    /// `NoMemory`: out of memory; nothing is added.
    pub fn finish(mut self, text: &mut Bytes) -> Result<(), NoMemory>
        requires { (front : List ℕ) × (pieces : List APiece) × Stands self front pieces × (length front < 2 ^ 62) }
        ensures ends { OnOk result (ComesToEnd self text.old text.new) }
        ensures unchanged { OnErr result (text.new ≡ text.old) }
    {
        closed_games_stay();
        games_stand_apart();
        let mut games = Vec::new(self.alloc);
        self.cutter.finish(&mut games)?;
        let mut lines = Bytes::new(self.alloc);
        let last = add_all(self.open_piece, games.as_slice(), self.least, &mut lines)?;
        last.push_last(self.taken, &mut lines)?;
        text.push_all(lines.as_slice())
    }
}
