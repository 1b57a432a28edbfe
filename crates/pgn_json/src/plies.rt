//! The ply of each node, in one pass.
ghost use Rattle.std.specs.Prelude.{◌≡◌, ◌<◌, length, IfOk};
ghost use Rattle.cq_position.specs.Search as search_of;
ghost use Rattle.pgn_json.specs.Internal.Remaining.{ArePlies};

use cq_common::NoMemory;
use pgn_tree::Game;
use std::alloc::Global;

/// Returns the ply of each node: the number of moves that lead to it, null moves included.
pub(crate) fn plies(alloc: Global, game: &Game) -> Result<Vec<u32>, NoMemory>
    ensures { IfOk result (λ plies. ArePlies game.now.nodes (length game.now.nodes) plies.items) }
{
    let mut plies = Vec::with_capacity(alloc, game.len() as usize)?;
    for k in 0..game.len() {
        let ply = ply_at(game, &plies, k);
        plies.push(ply)?;
    }
    Ok(plies)
}

// Returns the ply of a node, given those of all nodes before it: its parent is one of them.
fn ply_at(game: &Game, before: &[u32], k: u32) -> u32
    requires node { k < length game.now.nodes }
    requires before { ArePlies game.now.nodes k before.now }
    ensures { result ≡ search_of.ply game.now.nodes k }
{
    prove!(game.is_tree());
    match game.parent(k) {
        Some(parent) => before[parent as usize] + 1,
        None => 0,
    }
}
