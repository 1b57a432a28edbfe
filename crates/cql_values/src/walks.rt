//! Walks in a game tree from one of its nodes.
ghost use Rattle.std.specs.Prelude.{◌≡◌, ◌<◌, ◌++◌, ◌∷◌, [], ◌&&◌, length, map, option_to_list, IfOk, OnOk, if◌then◌else◌};
ghost use Rattle.std.specs.List.{range_with_len};
ghost use Rattle.cq_position.specs.Games as games;
ghost use Rattle.cq_position.specs.Games.{IsTree};
ghost use Rattle.cq_position.specs.Search as search_of;
ghost use Rattle.cql_values.specs.Trees.{searched_tree};

use crate::numbers::one_if;
use cq_common::NoMemory;
use pgn_tree::Game;
use std::alloc::Global;

/// Returns the way up from a node: itself, its parent, and so on to the root.
///
/// # Errors
///
/// `NoMemory` if out of memory.
pub fn way_up(alloc: Global, game: &Game, n: u32) -> Result<Vec<u32>, NoMemory>
    requires tree { IsTree game.now.nodes }
    requires node { n < length game.now.nodes }
    ensures { IfOk result (λ way. way.items ≡ games.way_up game.now.nodes n) }
{
    let mut way = Vec::new(alloc);
    let mut at = Some(n);
    while let Some(m) = at {
        way.push(m)?;
        at = game.parent(m);
    }
    Ok(way)
}

/// Returns the children of a node that are searched.
///
/// # Errors
///
/// `NoMemory` if out of memory.
pub fn children(alloc: Global, game: &Game, variations: bool, n: u32) -> Result<Vec<u32>, NoMemory>
    requires tree { IsTree game.now.nodes }
    requires node { n < length game.now.nodes }
    ensures { IfOk result (λ nodes. nodes.items ≡ search_of.children_in (searched_tree game.now variations) n) }
{
    let mut nodes = Vec::new(alloc);
    let mut next = game.first_child(n);
    while let Some(child) = next {
        push_if(&mut nodes, is_searched(game, variations, child), child)?;
        next = game.next_sibling(child);
    }
    Ok(nodes)
}

/// Returns the parent of a node, if it has one, as a list.
///
/// # Errors
///
/// `NoMemory` if out of memory.
pub fn parents(alloc: Global, game: &Game, n: u32) -> Result<Vec<u32>, NoMemory>
    requires { n < length game.now.nodes }
    ensures { IfOk result (λ nodes. nodes.items ≡ option_to_list (games.node_at game.now.nodes n).parent) }
{
    let mut nodes = Vec::new(alloc);
    if let Some(parent) = game.parent(n) {
        nodes.push(parent)?;
    }
    Ok(nodes)
}

/// Returns a node and its descendants, those of them that are searched.
///
/// # Errors
///
/// `NoMemory` if out of memory.
pub fn below(alloc: Global, game: &Game, variations: bool, n: u32) -> Result<Vec<u32>, NoMemory>
    requires tree { IsTree game.now.nodes }
    requires node { n < length game.now.nodes }
    ensures { IfOk result (λ nodes. nodes.items ≡ search_of.below_in (searched_tree game.now variations) n) }
{
    let mut nodes = Vec::new(alloc);
    let mut are_below = Vec::new(alloc);
    for k in 0..game.len() {
        let below = is_below_by(game, n, k, &are_below);
        are_below.push(below)?;
        let there = both(is_searched(game, variations, k), below);
        push_if(&mut nodes, there, k)?;
    }
    Ok(nodes)
}

// True if node `k` is node `n` or below it, given this of all nodes before `k`.
fn is_below_by(game: &Game, n: u32, k: u32, before: &[bool]) -> bool
    requires tree { IsTree game.now.nodes }
    requires node { k < length game.now.nodes }
    requires before { before.now ≡ map (games.is_below game.now.nodes n) (range_with_len 0 k) }
    ensures { result ≡ games.is_below game.now.nodes n k }
{
    if k == n {
        return true;
    }
    match game.parent(k) {
        Some(parent) => before[parent as usize],
        None => false,
    }
}

/// Returns true if both hold. Unlike `&&`, a call evaluates both.
pub fn both(a: bool, b: bool) -> bool
    ensures { result ≡ (a && b) }
{
    a && b
}

/// Adds a node to a list if `there` is true.
///
/// # Errors
///
/// `NoMemory` if out of memory.
pub fn push_if(nodes: &mut Vec<u32>, there: bool, node: u32) -> Result<(), NoMemory>
    ensures { OnOk result (nodes.new.items ≡ nodes.old.items ++ (if there then node ∷ [] else [])) }
{
    if there {
        nodes.push(node)?;
    }
    Ok(())
}

/// Returns true if a node is searched. With variations each node is, else only those of the main line.
pub fn is_searched(game: &Game, variations: bool, n: u32) -> bool
    requires { n < length game.now.nodes }
    ensures { result ≡ games.is_searched variations game.now.nodes n }
{
    variations || game.is_main(n)
}

/// Returns true if a node is the first child of its parent.
pub fn is_first_child(game: &Game, n: u32) -> bool
    requires { n < length game.now.nodes }
    ensures { result ≡ games.is_first_child game.now.nodes n }
{
    match game.parent(n) {
        Some(parent) => is_node(game.first_child(parent), n),
        None => false,
    }
}

fn is_node(found: Option<u32>, n: u32) -> bool
    ensures { result ≡ games.is_number found n }
{
    match found {
        Some(m) => m == n,
        None => false,
    }
}

/// Returns true if a node other than the root is not the first child of its parent.
pub fn begins_variation(game: &Game, n: u32) -> bool
    requires { n < length game.now.nodes }
    ensures { result ≡ search_of.begins_variation game.now.nodes n }
{
    n != 0 && !is_first_child(game, n)
}

/// Returns the number of moves from the root to a node, in plies.
///
/// # Errors
///
/// `NoMemory` if out of memory.
pub fn ply(alloc: Global, game: &Game, n: u32) -> Result<u32, NoMemory>
    requires tree { IsTree game.now.nodes }
    requires node { n < length game.now.nodes }
    ensures { IfOk result (λ moves. moves ≡ search_of.ply game.now.nodes n) }
{
    let way = way_up(alloc, game, n)?;
    Ok(way.len() as u32 - 1)
}

/// Returns the number of nodes on the way from the root to a node that begin a variation.
///
/// # Errors
///
/// `NoMemory` if out of memory.
pub fn depth(alloc: Global, game: &Game, n: u32) -> Result<u32, NoMemory>
    requires tree { IsTree game.now.nodes }
    requires node { n < length game.now.nodes }
    ensures { IfOk result (λ count. count ≡ search_of.depth game.now.nodes n) }
{
    let way = way_up(alloc, game, n)?;
    let mut count = 0;
    for k in 0..way.len() {
        count += one_if(begins_variation(game, way[k]));
    }
    Ok(count)
}
