//! The construction of a game from the rows of its line.
ghost use Rattle.std.specs.Prelude.{◌≡◌, ◌<◌, [], ◌∷◌, ◌++◌, length, slice_index, IfOk, OnOk};
ghost use Rattle.cq_position.specs.Games.{IsTree};
ghost use Rattle.cq_position.specs.Continuations.{node_of};
ghost use Rattle.pgn_reader.specs.Games.{root};
ghost use Rattle.pgn_reader.specs.Internal.GameAssembly.{path_down, nodes_by, nodes_of_rows};
ghost use Rattle.pgn_reader.specs.Internal.Building.{IsNext};

use crate::node_row::NodeRow;
use cq_common::NoMemory;
use cq_position::GameResult;
use pgn_tree::{Game, Tags};
use std::alloc::Global;
use std::vec::IntoIter;

/// Returns the game of rows in preorder, of which the first is the root's.
///
/// # Errors
///
/// Fails only if out of memory.
pub fn game_of_rows(
    alloc: Global,
    tags: Tags,
    ending: GameResult,
    rows: Vec<NodeRow>,
) -> Result<Game, NoMemory>
    requires rooted { 0 < length rows.items }
    requires tree { IsTree (nodes_of_rows rows.items) }
    ensures { IfOk result (λ g. g ≡ record { tags = tags; result = ending; nodes = nodes_of_rows rows.items }) }
{
    let below = rows.len() - 1;
    let mut rows = rows.into_iter();
    match rows.next() {
        Some(first) => {
            let mut game = game_at_root(alloc, tags, ending, first)?;
            game.reserve(below)?;
            add_rows(alloc, &mut game, rows)?;
            Ok(game)
        }
        None => unreachable!(),
    }
}

// The game of the root alone, which has comments and no glyphs.
fn game_at_root(
    alloc: Global,
    tags: Tags,
    ending: GameResult,
    first: NodeRow,
) -> Result<Game, NoMemory>
    ensures { IfOk result (λ g. g ≡ record {
      tags = tags;
      result = ending;
      nodes = root first.move.position first.move.comments ∷ [];
    }) }
{
    let start = *first.position();
    let notes = first.into_notes().without_nags(alloc);
    Game::of_root(alloc, tags, ending, start, notes)
}

// Adds the rows below the root. `way` has the numbers of the nodes on the path down from the root to the last node.
fn add_rows(alloc: Global, game: &mut Game, rows: IntoIter<NodeRow>) -> Result<(), NoMemory>
    requires root { length game.old.nodes ≡ 1 }
    requires tree { IsTree (game.old.nodes ++ nodes_by (0 ∷ []) 1 rows.rest.items) }
    ensures { OnOk result (game.new ≡ record game.old { nodes = game.old.nodes ++ nodes_by (0 ∷ []) 1 rows.rest.items }) }
{
    let mut way = Vec::with_capacity(alloc, rows.len().saturating_add(1))?;
    way.push(0)?;
    for row in rows {
        add_row(game, &mut way, row)?;
    }
    Ok(())
}

// Adds a row as the last node.
fn add_row(game: &mut Game, way: &mut Vec<u32>, row: NodeRow) -> Result<(), NoMemory>
    requires { IsNext game.old.nodes (slice_index way.old.items row.level) row.move }
    ensures node { OnOk result (game.new ≡ record game.old {
      nodes = game.old.nodes ++ node_of (slice_index way.old.items row.level) row.move ∷ [];
    }) }
    ensures way { OnOk result (way.new.items ≡ path_down way.old.items row.level (length game.old.nodes)) }
{
    let level = row.level() as usize;
    let (step, position) = (row.step(), *row.position());
    let k = game.add_noted_node(parent_at(way, level), step, position, row.into_notes())?;
    way.truncate(level + 1);
    way.push(k)?;
    Ok(())
}

// The parent of a node at a level.
fn parent_at(way: &[u32], level: usize) -> u32
    ensures { result ≡ slice_index way.now level }
{
    way.get(level).copied().unwrap_or(0)
}
