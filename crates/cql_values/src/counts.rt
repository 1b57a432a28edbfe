//! The ply and the depth of each node of a game, in one pass.
ghost use Rattle.std.specs.Prelude.{◌≡◌, ◌<◌, ◌||◌, not, length, IfOk};
ghost use Rattle.cq_position.specs.Games.{IsTree};
ghost use Rattle.cq_position.specs.Search as search_of;
ghost use Rattle.cql_values.specs.Counts.{moves_on, AreCounts};

use crate::numbers::one_if;
use crate::walks::begins_variation;
use cq_common::NoMemory;
use pgn_tree::Game;
use std::alloc::Global;

/// Returns, for each node, the number of moves on the way from the root to it, null moves included. With `variations_alone` only moves that
/// begin a variation are counted.
///
/// # Errors
///
/// `NoMemory` if out of memory.
pub fn counts(alloc: Global, game: &Game, variations_alone: bool) -> Result<Vec<u32>, NoMemory>
    requires tree { IsTree game.now.nodes }
    ensures { IfOk result (λ counts. AreCounts (moves_on variations_alone game.now.nodes) (length game.now.nodes) counts.items) }
{
    let mut counts = Vec::with_capacity(alloc, game.len() as usize)?;
    for k in 0..game.len() {
        let count = count_at(game, variations_alone, &counts, k);
        counts.push(count)?;
    }
    Ok(counts)
}

// The number of a node, given those of all nodes before it. Its parent is one of them.
fn count_at(game: &Game, variations_alone: bool, before: &[u32], k: u32) -> u32
    requires tree { IsTree game.now.nodes }
    requires node { k < length game.now.nodes }
    requires before { AreCounts (moves_on variations_alone game.now.nodes) k before.now }
    ensures { result ≡ moves_on variations_alone game.now.nodes k }
{
    match game.parent(k) {
        Some(parent) => before[parent as usize] + one_if(is_counted(game, variations_alone, k)),
        None => 0,
    }
}

fn is_counted(game: &Game, variations_alone: bool, k: u32) -> bool
    requires { k < length game.now.nodes }
    ensures { result ≡ (not variations_alone || search_of.begins_variation game.now.nodes k) }
{
    !variations_alone || begins_variation(game, k)
}
