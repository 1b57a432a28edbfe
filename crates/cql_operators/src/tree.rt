//! Sets of nodes that follow the tree, for all nodes in one pass.
ghost use Rattle.std.specs.Prelude.{◌≡◌, ℕ, ◌<◌, ◌&&◌, ◌||◌, length, get_or, replicate, false, IfOk};
ghost use Rattle.cq_position.specs.Games.{IsTree, is_searched as is_searched_in, node_at};
ghost use Rattle.cql_columns.specs.Columns.{IsNodeSet};
ghost use Rattle.cql_columns.specs.Scopes.{tree_in};
ghost use Rattle.cql_operators.specs.SpelledParts.{AreOnward, AreReached};
ghost use Rattle.cql_operators.specs.Trees.{IsBelowLive, IsAboveLive, AreChildrenOfLive, AreParentsOfLive, AreBeforeLive, flag_of, AddsParent, AreWithAncestors, AreWithDescendants, HasParents};
ghost use Rattle.cql_operators.specs.Internal.NodeSets.{is_below_live};

use cq_common::NoMemory;
use cql_columns::filter_column::{blank_truths, truth_at};
use cql_columns::nodes::same;
use cql_columns::scope::Scope;
use cql_values::walks::is_searched;
use pgn_tree::Game;
use std::alloc::Global;

/// Returns the live nodes and the searched nodes below them.
///
/// # Errors
///
/// `NoMemory` if out of memory.
pub fn below(alloc: Global, scope: &Scope, live: &[bool]) -> Result<Vec<bool>, NoMemory>
    requires tree { IsTree scope.now.game.now.nodes }
    requires asked { IsNodeSet (tree_in scope.now) live.now }
    ensures { IfOk result (λ wide. IsBelowLive (tree_in scope.now) live.now wide.items) }
{
    let mut wide = blank_truths(alloc, scope.game.len() as usize)?;
    for k in 0..scope.game.len() {
        wide[k as usize] = is_wide(scope, live, &wide, k);
    }
    Ok(wide)
}

// True if a node is searched, and is live or a child of a node in `wide`, which has all nodes before it.
fn is_wide(scope: &Scope, live: &[bool], wide: &[bool], k: u32) -> bool
    requires { k < length scope.now.game.now.nodes }
    ensures { result ≡ is_below_live (tree_in scope.now) live.now wide.now k }
{
    is_searched(scope.game, scope.variations, k)
        && (truth_at(live, k as usize) || is_flagged(scope.game.parent(k), wide))
}

fn is_flagged(node: Option<u32>, flags: &[bool]) -> bool
    ensures { result ≡ flag_of flags.now node }
{
    match node {
        Some(n) => truth_at(flags, n as usize),
        None => false,
    }
}

/// Returns the nodes that have a node of a set at or below them.
pub fn with_ancestors(game: &Game, set: Vec<bool>) -> Vec<bool>
    requires tree { IsTree game.now.nodes }
    requires count { length set.items ≡ length game.now.nodes }
    ensures { AreWithAncestors game.now.nodes set.items result.items }
{
    let mut found = set;
    let count = game.len();
    for turn in 0..count {
        let k = count - 1 - turn;
        let there = found[k as usize];
        raise(&mut found, game, k, there);
    }
    found
}

// Adds the parent of a node if `there` is true.
fn raise(found: &mut Vec<bool>, game: &Game, k: u32, there: bool)
    requires node { k < length game.now.nodes }
    requires count { length found.old.items ≡ length game.now.nodes }
    ensures { AddsParent game.now.nodes k there found.old.items found.new.items }
{
    if there {
        if let Some(parent) = game.parent(k) {
            found[parent as usize] = true;
        }
    }
}

/// Returns the nodes that are in a set or below a node of it.
///
/// # Errors
///
/// `NoMemory` if out of memory.
pub fn with_descendants(alloc: Global, game: &Game, set: &[bool]) -> Result<Vec<bool>, NoMemory>
    requires tree { IsTree game.now.nodes }
    ensures { IfOk result (λ found. AreWithDescendants game.now.nodes set.now found.items) }
{
    let mut found = blank_truths(alloc, game.len() as usize)?;
    for k in 0..game.len() {
        found[k as usize] = is_under(game, set, &found, k);
    }
    Ok(found)
}

// True if a node is in a set or below one that is, given this of all nodes before it.
fn is_under(game: &Game, set: &[bool], found: &[bool], k: u32) -> bool
    requires { k < length game.now.nodes }
    ensures { result ≡ (get_or set.now k false || flag_of found.now (node_at game.now.nodes k).parent) }
{
    truth_at(set, k as usize) || is_flagged(game.parent(k), found)
}

/// Returns some nodes, and the parents of those of a set.
pub fn with_parents(game: &Game, set: &[bool], start: Vec<bool>) -> Vec<bool>
    requires tree { IsTree game.now.nodes }
    requires count { length start.items ≡ length game.now.nodes }
    requires set { length set.now ≡ length game.now.nodes }
    ensures { HasParents game.now.nodes set.now start.items result.items }
{
    let mut found = start;
    for k in 0..game.len() {
        let there = set[k as usize];
        raise(&mut found, game, k, there);
    }
    found
}

/// Returns the empty set.
///
/// # Errors
///
/// `NoMemory` if out of memory.
pub fn none(alloc: Global, game: &Game) -> Result<Vec<bool>, NoMemory>
    ensures { IfOk result (λ set. set.items ≡ replicate (length game.now.nodes) false) }
{
    Ok(vec![in alloc; false; game.len() as usize]?)
}

/// Returns the nodes on the ways up from the live nodes.
///
/// # Errors
///
/// `NoMemory` if out of memory.
pub fn above(alloc: Global, scope: &Scope, live: &[bool]) -> Result<Vec<bool>, NoMemory>
    requires tree { IsTree scope.now.game.now.nodes }
    requires asked { IsNodeSet (tree_in scope.now) live.now }
    ensures { IfOk result (λ wide. IsAboveLive (tree_in scope.now) live.now wide.items) }
{
    let start = same(alloc, live)?;
    Ok(with_ancestors(scope.game, start))
}

/// Returns the searched children of the live nodes.
///
/// # Errors
///
/// `NoMemory` if out of memory.
pub fn children(alloc: Global, scope: &Scope, live: &[bool]) -> Result<Vec<bool>, NoMemory>
    requires tree { IsTree scope.now.game.now.nodes }
    requires asked { IsNodeSet (tree_in scope.now) live.now }
    ensures { IfOk result (λ wide. AreChildrenOfLive (tree_in scope.now) live.now wide.items) }
{
    let mut wide = blank_truths(alloc, scope.game.len() as usize)?;
    for k in 0..scope.game.len() {
        wide[k as usize] = is_child(scope, live, k);
    }
    Ok(wide)
}

// True if a node is searched and its parent is in a set.
fn is_child(scope: &Scope, live: &[bool], k: u32) -> bool
    requires { k < length scope.now.game.now.nodes }
    ensures { result ≡ (is_searched_in scope.now.variations scope.now.game.now.nodes k
        && flag_of live.now (node_at scope.now.game.now.nodes k).parent) }
{
    is_searched(scope.game, scope.variations, k) && is_flagged(scope.game.parent(k), live)
}

/// Returns the parents of the live nodes.
///
/// # Errors
///
/// `NoMemory` if out of memory.
pub fn parents(alloc: Global, scope: &Scope, live: &[bool]) -> Result<Vec<bool>, NoMemory>
    requires tree { IsTree scope.now.game.now.nodes }
    requires asked { IsNodeSet (tree_in scope.now) live.now }
    ensures { IfOk result (λ wide. AreParentsOfLive (tree_in scope.now) live.now wide.items) }
{
    let start = none(alloc, scope.game)?;
    Ok(with_parents(scope.game, live, start))
}

/// Returns the live nodes and their parents. These have the node before each live node, which for the root is the root itself.
///
/// # Errors
///
/// `NoMemory` if out of memory.
pub fn nodes_before(alloc: Global, scope: &Scope, live: &[bool]) -> Result<Vec<bool>, NoMemory>
    requires tree { IsTree scope.now.game.now.nodes }
    requires asked { IsNodeSet (tree_in scope.now) live.now }
    ensures { IfOk result (λ wide. AreBeforeLive (tree_in scope.now) live.now wide.items) }
{
    let start = same(alloc, live)?;
    Ok(with_parents(scope.game, live, start))
}

/// Returns the nodes whose parent is in a set.
///
/// # Errors
///
/// `NoMemory` if out of memory.
pub fn of_parents(alloc: Global, game: &Game, set: &[bool]) -> Result<Vec<bool>, NoMemory>
    ensures { IfOk result (λ found. (n : ℕ) → n < length game.now.nodes
        → get_or found.items n false ≡ flag_of set.now (node_at game.now.nodes n).parent) }
{
    let mut found = blank_truths(alloc, game.len() as usize)?;
    for k in 0..game.len() {
        found[k as usize] = is_flagged(game.parent(k), set);
    }
    Ok(found)
}

/// Returns the nodes to which a step of a line leads from the live nodes: down or, with `back`, up.
///
/// # Errors
///
/// `NoMemory` if out of memory.
pub fn onward(
    alloc: Global,
    scope: &Scope,
    back: bool,
    live: &[bool],
) -> Result<Vec<bool>, NoMemory>
    requires tree { IsTree scope.now.game.now.nodes }
    requires asked { IsNodeSet (tree_in scope.now) live.now }
    ensures { IfOk result (λ next. AreOnward (tree_in scope.now) back live.now next.items) }
{
    if back {
        parents(alloc, scope, live)
    } else {
        children(alloc, scope, live)
    }
}

/// Returns all nodes on ways of a line from the live nodes: down or, with `back`, up.
///
/// # Errors
///
/// `NoMemory` if out of memory.
#[tactic(auto, using(crate::proofs::SpelledAlike::below_reached, crate::proofs::SpelledAlike::above_reached))]
pub fn reached(
    alloc: Global,
    scope: &Scope,
    back: bool,
    live: &[bool],
) -> Result<Vec<bool>, NoMemory>
    requires tree { IsTree scope.now.game.now.nodes }
    requires asked { IsNodeSet (tree_in scope.now) live.now }
    ensures { IfOk result (λ wide. AreReached (tree_in scope.now) back live.now wide.items) }
{
    if back {
        above(alloc, scope, live)
    } else {
        below(alloc, scope, live)
    }
}
