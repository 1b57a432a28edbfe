//! Laws of the export text. Each is proved for all words and games, and a call costs nothing.
ghost use Rattle.std.specs.Prelude.{ℕ, List};
ghost use Rattle.cq_position.specs.Games.{Game as AGame, HaveDistinctNames};
ghost use Rattle.pgn_export.specs.Lines.{lines};
ghost use Rattle.pgn_export.specs.Rows.{AreInRows};
ghost use Rattle.pgn_export.specs.TagValues.{AreExportTags};

/// No line of an export's movetext has more than 79 bytes, except one that is a single word. Words in lines are rows of
/// them, each with a word in it.
#[tactic(auto, using(crate::proofs::InRows::in_rows))]
pub fn lines_are_short()
    ensures { (words : List (List ℕ)) → AreInRows words (lines words) }
{}

/// The tags of an export are the game's tags in export order. They include the roster's value for a missing one, and
/// SetUp with FEN.
pub fn tags_are_the_games()
    ensures { (game : AGame) → HaveDistinctNames game.tags → AreExportTags game }
{}
