//! The export text of a game.
ghost use Rattle.std.specs.Prelude.{◌≡◌, ℕ, Bool, IfOk};
ghost use Rattle.pgn_export.specs.Export.{export_text};
ghost use Rattle.pgn_export.specs.NormalGames.{IsNormal, IsReadAs};
ghost use Rattle.pgn_reader.specs.Games.{Spells};
ghost use Rattle.pgn_reader.specs.Words.{words_of};

use crate::movetext::write_movetext;
use crate::page::Page;
use crate::tag_lines::write_tags;
use cq_common::{Bytes, NoMemory};
use pgn_tree::Game;
use std::alloc::Global;

/// The number of bytes reserved for the tags.
const ROOM_FOR_TAGS: usize = 512;

/// The number of bytes reserved for a move, half a number and the white space.
const ROOM_FOR_MOVE: usize = 8;

/// Returns the text of a game in export format (PGN standard, section 3.2).
///
/// First come the tags of the seven tag roster, with `?` for one that is missing, and with the result of the game for
/// `Result`. Then come the others in the ASCII order of their names; with a tag FEN the tag SetUp is 1. An empty line
/// follows. The movetext is in lines of at most 79 bytes, except that a longer word has its own line. Words have single
/// spaces between them, and an empty line ends the movetext. Numeric annotation glyphs and comments follow their move,
/// then the variations that replace it.
///
/// The text of a normal game spells the game at any place in an archive: `read_game` returns this game. Normal games
/// are defined in `specs/NormalGames`.
///
/// # Errors
///
/// Fails only if out of memory.
pub fn export(alloc: Global, game: &Game) -> Result<Bytes, NoMemory>
    ensures text { IfOk result (λ text. text ≡ export_text game.now) }
    ensures spelled { IfOk result (λ text. IsNormal game.now →
        (start : ℕ) (first : Bool) → Spells (words_of start first text) game.now) }
    ensures back { IfOk result (λ text. IsNormal game.now → IsReadAs text game.now) }
{
    prove!(game.is_tree());
    prove!(game.position(0).is_position());
    written(alloc, game)
}

fn written(alloc: Global, game: &Game) -> Result<Bytes, NoMemory>
    ensures { IfOk result (λ text. text ≡ export_text game.now) }
{
    let mut lines = Vec::with_capacity(alloc, room_for(game))?;
    write_tags(&mut lines, alloc, game)?;
    let mut page = Page::new(lines);
    write_movetext(&mut page, game)?;
    page.end()?;
    Bytes::from_slice(alloc, page.as_slice())
}

// The number of bytes that suffices for most games of this number of nodes. A longer text reserves more as it grows.
fn room_for(game: &Game) -> usize {
    ROOM_FOR_TAGS + game.len() as usize * ROOM_FOR_MOVE
}
