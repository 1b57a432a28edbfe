//! The nodes that are left to queries after a part.
ghost use Rattle.std.specs.Prelude.{◌≡◌, ℕ, ◌<◌, ◌&&◌, ◌||◌, not, length, true, false, get_or, IfOk};
ghost use Rattle.std.specs.List.{list_any};
ghost use Rattle.cql_columns.specs.Columns.{IsNodeSet};
ghost use Rattle.cq_shared.specs.Matching.{tree_for, is_left, is_owned_by, IsReady, CoversPending, ArePartTruths, IsNarrowedBy};

use crate::nodes::NodeSet;
use crate::part::Part;
use cq_common::NoMemory;
use cql_operators::narrow::keep_true;
use pgn_tree::Game;
use std::alloc::Global;

/// The nodes that are still left to some query that has the part.
///
/// # Errors
///
/// `NoMemory` if out of memory.
pub fn pending_nodes(
    alloc: Global,
    part: &Part,
    game: &Game,
    left: &[NodeSet],
) -> Result<Vec<bool>, NoMemory>
    requires ready { IsReady game.now left.now part.now }
    ensures { IfOk result (λ live. IsNodeSet (tree_for game.now part.now) live.items × CoversPending part.now left.now live.items) }
{
    let mut live = Vec::with_capacity(alloc, game.len() as usize)?;
    for n in 0..game.len() {
        let there = is_wanted(&part.owners, left, n as usize);
        live.push(there)?;
    }
    Ok(live)
}

// Returns true if a node is still left to one of these queries.
fn is_wanted(owners: &[u32], left: &[NodeSet], n: usize) -> bool
    ensures { result ≡ list_any (λ q. is_left left.now q n) owners.now }
{
    for k in 0..owners.len() {
        if is_left(left, owners[k] as usize, n) {
            return true;
        }
    }
    false
}

fn is_left(left: &[NodeSet], q: usize, n: usize) -> bool
    ensures { result ≡ is_left left.now q n }
{
    if q < left.len() {
        return is_there(&left[q], n);
    }
    false
}

// Returns true if a query has the part.
fn has(part: &Part, q: usize) -> bool
    ensures { result ≡ is_owned_by q part.now }
{
    part.owners.iter().any(|owner| *owner as usize == q)
}

/// Returns true if a node is in a set.
pub(crate) fn is_there(nodes: &NodeSet, n: usize) -> bool
    ensures { result ≡ get_or nodes.now.there.items n false }
{
    nodes.there.get(n).copied().unwrap_or(false)
}

/// The nodes left to each query: for those that have the part, without the nodes at which it fails.
///
/// # Errors
///
/// `NoMemory` if out of memory.
pub fn narrowed(
    alloc: Global,
    part: &Part,
    game: &Game,
    left: Vec<NodeSet>,
    live: &[bool],
    truths: &[bool],
) -> Result<Vec<NodeSet>, NoMemory>
    requires told { ArePartTruths game.now part.now live.now truths.now }
    requires covers { CoversPending part.now left.items live.now }
    ensures { IfOk result (λ later. IsNarrowedBy game.now part.now left.items later.items) }
{
    let mut later = Vec::with_capacity(alloc, left.len())?;
    for nodes in left {
        let query = later.len();
        let wants = has(part, query);
        later.push(narrowed_if(wants, nodes, truths))?;
    }
    Ok(later)
}

fn narrowed_if(wants: bool, left: NodeSet, truths: &[bool]) -> NodeSet
    ensures { (n : ℕ) → get_or result.there.items n false
        ≡ (get_or left.there.items n false && (not wants || get_or truths.now n false)) }
{
    if !wants {
        return left;
    }
    let mut there = left.there;
    keep_true(&mut there, truths);
    NodeSet { there }
}
