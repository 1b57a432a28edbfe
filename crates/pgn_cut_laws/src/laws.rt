//! Laws of the reading of the games of a cut. Each is proved for all archives, and a call costs nothing.
ghost use Rattle.std.specs.Prelude.{◌≡◌, ◌-◌, ◌∷◌, ◌++◌, ℕ, Bool, List};
ghost use Rattle.pgn_cut.specs.Cut.{cut};
ghost use Rattle.pgn_cut.specs.OneGame.{IsGameOfCut};
ghost use Rattle.pgn_cut.specs.Seams.{spaced_rest};
ghost use Rattle.pgn_cut.specs.declared.span.Span.{Span as ASpan};
ghost use Rattle.pgn_cut_laws.specs.Marker.{EndsWithItsMarker};
ghost use Rattle.pgn_cut_laws.specs.Split.{AreReadAlike};
ghost use Rattle.pgn_reader.specs.Words.{words_of};

use pgn_cut::{archives_split, games_end_once, games_stand_apart};
use pgn_lexer::tokens_stand_apart;

/// In a game of a cut no token comes after the marker of a result outside variations. Markers and variations are those
/// of the reader.
pub fn markers_end_games()
    ensures { (start : ℕ) (first : Bool) (bytes : List ℕ) → IsGameOfCut start first bytes → EndsWithItsMarker (words_of start first bytes) }
{
    games_end_once();
    tokens_stand_apart();
}

/// The games after a seam are read as before. The archive splits after a game, and the rest is cut with one space
/// before it. Each game there is the same, or has the same fault, moved with the game.
pub fn split_games_are_read_alike()
    ensures { (archive : List ℕ) (before : List ASpan) (game : ASpan) (after : List ASpan) → cut archive ≡ before ++ game ∷ after →
        AreReadAlike (game.end - 1) (spaced_rest archive game.end) archive (cut (spaced_rest archive game.end)) after }
{
    games_stand_apart();
    archives_split();
}
