//! Generated archives.
ghost use Rattle.std.specs.Prelude.{◌≡◌, ◌≤◌, IfOk};
ghost use Rattle.cq_maker.specs.GeneratedArchive as made;

use crate::draws::Draws;
use crate::game::make_game;
use cq_common::{Bytes, NoMemory};
use pgn_export::export;
use std::alloc::Global;

/// Returns the archive of `games` games, at most 100,000, that is generated from a seed: the same one each time.
///
/// The moves of each game are drawn from the legal ones, from the initial array on. A game has 20 to 79 plies, or fewer
/// if mate or stalemate comes first; some moves have a variation of one move. The result is that of the last position.
///
/// # Errors
///
/// Fails only if out of memory.
pub fn make_archive(alloc: Global, seed: u32, games: u32) -> Result<Bytes, NoMemory>
    requires { games ≤ 100000 }
    ensures { IfOk result (λ archive. archive ≡ made.generated_archive seed games) }
{
    let mut draws = Draws::new(seed);
    let mut archive = Bytes::new(alloc);
    for before in 0..games {
        let game = make_game(alloc, &mut draws, before + 1)?;
        archive.push_all(export(alloc, &game)?.as_slice())?;
    }
    Ok(archive)
}
