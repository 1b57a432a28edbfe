//! Words that evaluate their part at other nodes: `find`, `find <--`, `child` and `parent`.
ghost use Rattle.std.specs.Prelude.{◌≡◌, ◌<◌, length, true, get_or, bit_or, IfOk};
ghost use Rattle.cq_position.specs.Games.{IsTree, node_at};
ghost use Rattle.cql_syntax.specs.declared.leaves.Unary.TheVariants.{Find, FindUp, Child, Parent};
ghost use Rattle.cql_columns.specs.Columns.{IsNodeSet};
ghost use Rattle.cql_columns.specs.Scopes.{tree_in};
ghost use Rattle.cql_operators.specs.OtherNodes.{is_from_other_nodes, CoverSourceNodes, FindSourceNodes, GatherSourceSquares, AddSquaresToParent};
ghost use Rattle.cql_operators.specs.Internal.NodeSets.{set_of_node};

use crate::tree::{
    above, below, children, none, of_parents, parents, with_ancestors, with_descendants,
    with_parents,
};
use cq_common::NoMemory;
use cql_columns::filter_column::{blank_sets, set_at};
use cql_columns::nodes::same;
use cql_columns::scope::Scope;
use cql_syntax::Unary;
use pgn_tree::Game;
use std::alloc::Global;

/// Returns true if a word evaluates its part at other nodes.
pub fn reads_other_nodes(word: Unary) -> bool
    ensures { result ≡ is_from_other_nodes word }
{
    match word {
        Unary::Find | Unary::FindUp | Unary::Child | Unary::Parent => true,
        _ => false,
    }
}

/// Returns the nodes at which a word evaluates its part, if the word is evaluated at the live nodes. The set may have more searched nodes.
///
/// # Errors
///
/// `NoMemory` if out of memory.
#[tactic(auto, using(crate::proofs::OtherNodesLaw::below_looked, crate::proofs::OtherNodesLaw::above_looked, crate::proofs::OtherNodesLaw::children_looked, crate::proofs::OtherNodesLaw::parents_looked, crate::proofs::OtherNodesLaw::same_looked))]
pub fn source_nodes(
    alloc: Global,
    word: Unary,
    scope: &Scope,
    live: &[bool],
) -> Result<Vec<bool>, NoMemory>
    requires tree { IsTree scope.now.game.now.nodes }
    requires asked { IsNodeSet (tree_in scope.now) live.now }
    ensures { IfOk result (λ wide. CoverSourceNodes (tree_in scope.now) word live.now wide.items) }
{
    match word {
        Unary::Find => below(alloc, scope, live),
        Unary::FindUp => above(alloc, scope, live),
        Unary::Child => children(alloc, scope, live),
        Unary::Parent => parents(alloc, scope, live),
        Unary::Not | Unary::Complement | Unary::Count | Unary::Power | Unary::Light | Unary::Dark =>
            same(alloc, live),
    }
}

/// Returns the nodes at which a word holds: its part holds at one of the nodes at which the word evaluates it. `set` has the nodes at which
/// the part holds.
///
/// # Errors
///
/// `NoMemory` if out of memory.
#[tactic(auto, using(crate::proofs::FoundLaw::never_found))]
pub fn nodes_that_find(
    alloc: Global,
    word: Unary,
    game: &Game,
    set: Vec<bool>,
) -> Result<Vec<bool>, NoMemory>
    requires tree { IsTree game.now.nodes }
    requires count { length set.items ≡ length game.now.nodes }
    requires word { is_from_other_nodes word ≡ true }
    ensures { IfOk result (λ found. FindSourceNodes game.now.nodes word set.items found.items) }
{
    match word {
        Unary::Find => Ok(with_ancestors(game, set)),
        Unary::FindUp => with_descendants(alloc, game, &set),
        Unary::Child => {
            let start = none(alloc, game)?;
            Ok(with_parents(game, &set, start))
        }
        Unary::Parent => of_parents(alloc, game, &set),
        Unary::Not | Unary::Complement | Unary::Count | Unary::Power | Unary::Light | Unary::Dark =>
            Ok(set),
    }
}

/// Returns for each node at least the squares of all nodes at which the word evaluates its part.
///
/// # Errors
///
/// `NoMemory` if out of memory.
#[tactic(auto, using(crate::proofs::OtherNodesLaw::same_brought))]
pub fn squares_of_sources(
    alloc: Global,
    word: Unary,
    game: &Game,
    there: Vec<u64>,
) -> Result<Vec<u64>, NoMemory>
    requires tree { IsTree game.now.nodes }
    requires count { length there.items ≡ length game.now.nodes }
    ensures { IfOk result (λ back. GatherSourceSquares game.now.nodes word there.items back.items) }
{
    match word {
        Unary::Find => Ok(from_below(game, there)),
        Unary::FindUp => from_above(alloc, game, &there),
        Unary::Child => from_children(alloc, game, &there),
        Unary::Parent => from_parents(alloc, game, &there),
        Unary::Not | Unary::Complement | Unary::Count | Unary::Power | Unary::Light | Unary::Dark =>
            Ok(there),
    }
}

fn from_below(game: &Game, there: Vec<u64>) -> Vec<u64>
    requires tree { IsTree game.now.nodes }
    requires count { length there.items ≡ length game.now.nodes }
    ensures { GatherSourceSquares game.now.nodes Find there.items result.items }
{
    let mut back = there;
    let count = game.len();
    for turn in 0..count {
        let k = count - 1 - turn;
        let more = back[k as usize];
        raise(&mut back, game, k, more);
    }
    back
}

// Adds squares at the parent of a node.
fn raise(back: &mut Vec<u64>, game: &Game, k: u32, more: u64)
    requires node { k < length game.now.nodes }
    requires count { length back.old.items ≡ length game.now.nodes }
    requires tree { IsTree game.now.nodes }
    ensures { AddSquaresToParent game.now.nodes k more back.old.items back.new.items }
{
    if let Some(parent) = game.parent(k) {
        back[parent as usize] |= more;
    }
}

fn from_children(alloc: Global, game: &Game, there: &[u64]) -> Result<Vec<u64>, NoMemory>
    requires tree { IsTree game.now.nodes }
    requires count { length there.now ≡ length game.now.nodes }
    ensures { IfOk result (λ back. GatherSourceSquares game.now.nodes Child there.now back.items) }
{
    let mut back = blank_sets(alloc, game.len() as usize)?;
    for k in 0..game.len() {
        let more = there[k as usize];
        raise(&mut back, game, k, more);
    }
    Ok(back)
}

fn from_parents(alloc: Global, game: &Game, there: &[u64]) -> Result<Vec<u64>, NoMemory>
    ensures { IfOk result (λ back. GatherSourceSquares game.now.nodes Parent there.now back.items) }
{
    let mut back = blank_sets(alloc, game.len() as usize)?;
    for k in 0..game.len() {
        back[k as usize] = set_of(game.parent(k), there);
    }
    Ok(back)
}

fn from_above(alloc: Global, game: &Game, there: &[u64]) -> Result<Vec<u64>, NoMemory>
    requires tree { IsTree game.now.nodes }
    ensures { IfOk result (λ back. GatherSourceSquares game.now.nodes FindUp there.now back.items) }
{
    let mut back = blank_sets(alloc, game.len() as usize)?;
    for k in 0..game.len() {
        back[k as usize] = with_above(game, there, &back, k);
    }
    Ok(back)
}

// The squares at a node and above it, given these of all nodes before it.
fn with_above(game: &Game, there: &[u64], back: &[u64], k: u32) -> u64
    requires { k < length game.now.nodes }
    ensures { result ≡ bit_or (get_or there.now k 0) (set_of_node back.now (node_at game.now.nodes k).parent) }
{
    set_at(there, k as usize) | set_of(game.parent(k), back)
}

// The squares at a node, or none without a node.
fn set_of(node: Option<u32>, sets: &[u64]) -> u64
    ensures { result ≡ set_of_node sets.now node }
{
    match node {
        Some(n) => set_at(sets, n as usize),
        None => 0,
    }
}
