//! Paths of games' trees.
use cq_common::{NoMemory, Refusal};
use pgn_reader::{GameFault, read_game};
use pgn_tree::Game;
use std::alloc::Global;

/// The nodes are the root, e4, e5, d4, c4.
const BRANCHED: &[u8] = b"1. e4 (1. d4) (1. c4) e5 *";

/// Two nodes, and the path down from the first to the second.
type PathCase<'a> = (u32, u32, Option<&'a [u32]>);

static PATHS: [PathCase<'static>; 5] = [
    (0, 2, Some(&[0, 1, 2])),
    (0, 4, Some(&[0, 4])),
    (1, 1, Some(&[1])),
    (1, 3, None),
    (2, 0, None),
];

// Returns true if this is the path, and false if the numbers are no nodes.
fn has_path(game: &Game, path: &PathCase<'_>) -> Result<bool, NoMemory> {
    let (from, to, want) = *path;
    if from >= game.len() || to >= game.len() {
        return Ok(false);
    }
    match (game.down_path(from, to)?, want) {
        (Some(path), Some(want)) => Ok(path.as_slice() == want),
        (None, None) => Ok(true),
        _ => Ok(false),
    }
}

fn has_paths(game: &Game) -> Result<bool, NoMemory> {
    for path in PATHS.iter() {
        if !has_path(game, path)? {
            return Ok(false);
        }
    }
    Ok(true)
}

fn has_main_line(game: &Game, line: &[u32]) -> Result<bool, NoMemory> {
    Ok(game.main_line()?.as_slice() == line)
}

fn has_paths_and_line(game: &Game) -> Result<bool, Refusal<GameFault>> {
    Ok(has_paths(game)? && has_main_line(game, &[0, 1, 2])?)
}

fn tells_its_paths(alloc: Global, text: &[u8]) -> Result<bool, Refusal<GameFault>> {
    let game = read_game(alloc, text, 0, true)?;
    has_paths_and_line(&game)
}

#[test]
fn trees_tell_their_paths(rt: HostRuntime) -> Result<(), Refusal<GameFault>> {
    assert!(rt; tells_its_paths(rt.alloc(), BRANCHED)?);
    Ok(())
}
