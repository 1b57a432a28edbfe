//! The marker of a result.
ghost use Rattle.std.specs.Prelude.{◌≡◌};
ghost use Rattle.pgn_tree.specs.Results as markers;

use cq_position::GameResult;

/// Returns the marker of a result, which ends the movetext (PGN standard, section 8.2.6).
pub fn result_text(ending: GameResult) -> &'static [u8]
    ensures { result.now ≡ markers.result_text ending }
{
    match ending {
        GameResult::White => b"1-0",
        GameResult::Black => b"0-1",
        GameResult::Draw => b"1/2-1/2",
        GameResult::Open => b"*",
    }
}
