//! The nodes at which the evaluation of queries starts.
ghost use Rattle.std.specs.Prelude.{◌≡◌, ℕ, ◌<◌, ◌&&◌, length, get_or, false, IfOk};
ghost use Rattle.cq_position.specs.Games as games;
ghost use Rattle.cq_shared.specs.PartOwners.{owner_query};
ghost use Rattle.cq_shared.specs.Internal.FirstNodes.{is_start_node, AreStartNodes};

use crate::nodes::NodeSet;
use crate::part::PartOwner;
use cq_common::NoMemory;
use cql_plan::may_hold;
use cql_values::walks::is_searched;
use pgn_tree::Game;
use std::alloc::Global;

/// For each query the searched nodes of a game, or none if the game fails the needs of the query.
///
/// # Errors
///
/// `NoMemory` if out of memory.
pub fn start_nodes(
    alloc: Global,
    owners: &[PartOwner],
    game: &Game,
) -> Result<Vec<NodeSet>, NoMemory>
    ensures { IfOk result (λ start_nodes. AreStartNodes game.now owners.now start_nodes.items) }
{
    let mut start_nodes = Vec::with_capacity(alloc, owners.len())?;
    for owner in owners {
        let nodes = start_nodes_of(alloc, owner, game)?;
        start_nodes.push(nodes)?;
    }
    Ok(start_nodes)
}

fn start_nodes_of(alloc: Global, owner: &PartOwner, game: &Game) -> Result<NodeSet, NoMemory>
    ensures { IfOk result (λ nodes. (n : ℕ) → get_or nodes.there.items n false ≡ is_start_node game.now (owner_query owner.now) n) }
{
    let passes = may_hold(&owner.plan, game);
    let variations = owner.plan.query().query.variations;
    let mut there = Vec::with_capacity(alloc, game.len() as usize)?;
    for n in 0..game.len() {
        let wanted = is_wanted(game, passes, variations, n);
        there.push(wanted)?;
    }
    Ok(NodeSet { there })
}

fn is_wanted(game: &Game, passes: bool, variations: bool, n: u32) -> bool
    requires { n < length game.now.nodes }
    ensures { result ≡ (passes && games.is_searched variations game.now.nodes n) }
{
    passes && is_searched(game, variations, n)
}
