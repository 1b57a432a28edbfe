//! The hits and keys of each query in a game.
ghost use Rattle.std.specs.Prelude.{◌≡◌, ◌<◌, length, map, All, AllPairs, IfOk};
ghost use Rattle.cql_columns.specs.Columns.{is_live};
ghost use Rattle.cql_syntax.specs.Hits.{hits as hits_of};
ghost use Rattle.cq_shared.specs.PartOwners.{owner_query, AreOwners};
ghost use Rattle.cq_shared.specs.Internal.Reading.{nodes_there, AreFound, IsFoundBy};
ghost use Rattle.cq_shared.specs.Matching.{HaveKeyColumns};
ghost use Rattle.cq_shared.specs.Verdicts.{nodes_of, keys_of, IsKeyed, HaveKeys};

use crate::keys::keys;
use crate::narrowing::is_there;
use crate::nodes::{KeyColumn, NodeSet, NodesAndKeys};
use crate::part::{Part, PartOwner};
use crate::verdicts::{HitsAndKeys, Verdicts};
use cq_common::NoMemory;
use cql_plan::laws::games_with_a_hit_pass;
use cql_values::walks::push_if;
use pgn_tree::Game;
use std::alloc::Global;

/// The hits of each query and its keys, from the nodes that are left to it and the rows of its sort items there.
///
/// # Errors
///
/// `NoMemory` if out of memory.
pub fn collect_verdicts(
    alloc: Global,
    owners: &[PartOwner],
    parts: &[Part],
    game: &Game,
    sorted: &NodesAndKeys,
) -> Result<Verdicts, NoMemory>
    requires owners { AreOwners parts.now owners.now }
    requires found { AreFound game.now owners.now sorted.now.left.items }
    requires rows { HaveKeyColumns game.now sorted.now.left.items parts.now sorted.now.rows.items }
    ensures nodes { IfOk result (λ v. nodes_of v ≡ map (λ a. hits_of (owner_query a) game.now) owners.now) }
    ensures increasing { IfOk result (λ v. All (λ nodes. AllPairs (λ m n. m < n) nodes) (nodes_of v)) }
    ensures keys { IfOk result (λ v. HaveKeys game.now (map (λ a. owner_query a) owners.now) (nodes_of v) (keys_of v)) }
    ensures count { IfOk result (λ v. length (keys_of v) ≡ length (nodes_of v)) }
{
    let rows = sorted.rows.as_slice();
    let mut found = Vec::new(alloc);
    for q in 0..owners.len() {
        let one = collect_one(alloc, &owners[q], parts, game, &sorted.left[q], rows)?;
        found.push(one)?;
    }
    Ok(Verdicts { found })
}

// The hits and keys of one query.
fn collect_one(
    alloc: Global,
    owner: &PartOwner,
    parts: &[Part],
    game: &Game,
    nodes: &NodeSet,
    rows: &[KeyColumn],
) -> Result<HitsAndKeys, NoMemory>
    requires { IsFoundBy game.now parts.now owner.now nodes.now rows.now }
    ensures nodes { IfOk result (λ f. f.nodes.items ≡ hits_of (owner_query owner.now) game.now) }
    ensures keys { IfOk result (λ f. IsKeyed game.now (owner_query owner.now) f.nodes.items f.keys.items) }
{
    // A game with a hit of a query passes its needs.
    games_with_a_hit_pass();
    let nodes = hits(alloc, nodes, game)?;
    let keys = keys(alloc, owner, parts, rows, nodes.as_slice())?;
    Ok(HitsAndKeys { nodes, keys })
}

// The numbers of the nodes that are left, increasing.
fn hits(alloc: Global, nodes: &NodeSet, game: &Game) -> Result<Vec<u32>, NoMemory>
    ensures { IfOk result (λ found. found.items ≡ nodes_there game.now nodes.now.there.items) }
{
    let mut found = Vec::new(alloc);
    for n in 0..game.len() {
        let there = is_there(nodes, n as usize);
        push_if(&mut found, there, n)?;
    }
    Ok(found)
}
