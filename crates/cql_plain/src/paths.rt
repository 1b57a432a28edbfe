//! The nodes that the paths from a node reach.
ghost use Rattle.std.specs.Prelude.{◌≡◌, ◌<◌, ◌≤◌, ◌+◌, length, get_or, replicate, ℕ, true, false, IfOk, IfSome, None, option_map, pos};
ghost use Rattle.cq_position.specs.Games.{IsTree};
ghost use Rattle.cql_syntax.specs.Meaning as meaning;
ghost use Rattle.cql_syntax.specs.Values.{as_number};
ghost use Rattle.cql_plain.specs.Internal.Paths as path;
ghost use Rattle.cq_common.specs.Greatest.{IsGreatest, with_number};
ghost use Rattle.cql_plain.specs.Internal.Paths.{ArePaths, IsLength};
ghost use Rattle.cql_values.specs.ValueModel.{as_value};
ghost use Rattle.cql_values.specs.Trees.{searched_tree};

use cq_common::NoMemory;
use cql_syntax::Extent;
use cql_values::value::Value;
use cql_values::walks::{both, is_first_child, is_searched};
use pgn_tree::Game;
use std::alloc::Global;

/// The last step of a path to a node.
#[derive(Clone, Copy)]
pub(crate) struct PathStep {
    /// The place before the node: 0 before the first node of a path, else one more than the number of the node before it.
    pub(crate) before: u32,
    /// The number of nodes of the path up to this one.
    pub(crate) length: u32,
}

/// Returns for each node of the game the last step to it on the paths down from a node, or up with `back`. A node that is not reached has
/// none.
pub(crate) fn paths_from(
    alloc: Global,
    game: &Game,
    variations: bool,
    back: bool,
    primary: bool,
    n: u32,
) -> Result<Vec<Option<PathStep>>, NoMemory>
    requires tree { IsTree game.now.nodes }
    requires node { n < length game.now.nodes }
    ensures { IfOk result (λ steps. ArePaths (searched_tree game.now variations) back primary n steps.items) }
{
    if back {
        paths_up(alloc, game, variations, primary, n)
    } else {
        paths_down(alloc, game, variations, primary, n)
    }
}

fn paths_down(
    alloc: Global,
    game: &Game,
    variations: bool,
    primary: bool,
    n: u32,
) -> Result<Vec<Option<PathStep>>, NoMemory>
    requires tree { IsTree game.now.nodes }
    requires node { n < length game.now.nodes }
    ensures { IfOk result (λ steps. ArePaths (searched_tree game.now variations) false primary n steps.items) }
{
    let mut steps = Vec::new(alloc);
    for k in 0..game.len() {
        let reached = path_step_down(game, variations, primary, n, k, &steps);
        steps.push(reached)?;
    }
    Ok(steps)
}

// The last step to a node on the paths down from another, given this of all nodes before it.
fn path_step_down(
    game: &Game,
    variations: bool,
    primary: bool,
    n: u32,
    k: u32,
    steps: &[Option<PathStep>],
) -> Option<PathStep>
    requires tree { IsTree game.now.nodes }
    requires node { k < length game.now.nodes }
    requires before { length steps.now ≡ k }
    requires few { (i : ℕ) → path.nodes_to (get_or steps.now i None) ≤ length steps.now }
    ensures { result ≡ path.step_down (searched_tree game.now variations) primary n steps.now k }
{
    if k == n {
        return Some(PathStep {
            before: 0,
            length: 1,
        });
    }
    let parent = searched_above(game, variations, primary, k)?;
    let reached = steps[parent as usize]?;
    Some(PathStep {
        before: parent + 1,
        length: reached.length + 1,
    })
}

fn paths_up(
    alloc: Global,
    game: &Game,
    variations: bool,
    primary: bool,
    n: u32,
) -> Result<Vec<Option<PathStep>>, NoMemory>
    requires tree { IsTree game.now.nodes }
    requires node { n < length game.now.nodes }
    ensures { IfOk result (λ steps. ArePaths (searched_tree game.now variations) true primary n steps.items) }
{
    let mut steps = no_steps(alloc, game.len())?;
    let mut next = Some(n);
    let mut reached = PathStep {
        before: 0,
        length: 1,
    };
    while let Some(k) = next {
        steps[k as usize] = Some(reached);
        reached = PathStep {
            before: k + 1,
            length: reached.length + 1,
        };
        next = above(game, primary, k);
    }
    Ok(steps)
}

// No steps: none of the nodes is reached.
fn no_steps(alloc: Global, nodes: u32) -> Result<Vec<Option<PathStep>>, NoMemory>
    ensures { IfOk result (λ steps. steps.items ≡ replicate nodes None) }
{
    let mut steps = Vec::new(alloc);
    for _k in 0..nodes {
        steps.push(None)?;
    }
    Ok(steps)
}

// The parent of a node. With `primary` there is none unless the node is a first child.
fn above(game: &Game, primary: bool, k: u32) -> Option<u32>
    requires { k < length game.now.nodes }
    ensures value { result ≡ path.above (searched_tree game.now false) primary k }
    ensures before { IfSome result (λ p. p < k) }
{
    if !primary || is_first_child(game, k) {
        game.parent(k)
    } else {
        None
    }
}

// The same of a searched node; another node has none.
fn searched_above(game: &Game, variations: bool, primary: bool, k: u32) -> Option<u32>
    requires { k < length game.now.nodes }
    ensures value { result ≡ path.searched_above (searched_tree game.now variations) primary k }
    ensures before { IfSome result (λ p. p < k) }
{
    if is_searched(game, variations, k) {
        above(game, primary, k)
    } else {
        None
    }
}

/// Returns the greatest length that the extent allows, of the paths that end at some place of a set.
pub(crate) fn longest(steps: &[Option<PathStep>], ends: &[bool], extent: &Extent) -> Option<u32>
    requires { length ends.now ≡ length steps.now + 1 }
    ensures { IsGreatest (IsLength steps.now ends.now extent.now) result }
{
    let mut best = None;
    for k in 0..steps.len() {
        let nodes = nodes_to(steps[k]);
        let counts = both(ends[k + 1], allows(extent, nodes));
        best = with_number(best, counts, nodes);
    }
    best
}

fn nodes_to(step: Option<PathStep>) -> u32
    ensures { result ≡ path.nodes_to step }
{
    match step {
        Some(reached) => reached.length,
        None => 0,
    }
}

// True if an extent allows a length.
fn allows(extent: &Extent, nodes: u32) -> bool
    ensures { result ≡ meaning.allows extent.now nodes }
{
    match extent {
        Extent::Any => true,
        Extent::Within(least, most) => least.nodes() <= nodes && nodes <= most.nodes(),
    }
}

// The greatest of some numbers and, if it counts, one more.
fn with_number(best: Option<u32>, counts: bool, number: u32) -> Option<u32>
    ensures { result ≡ with_number best counts number }
{
    match best {
        Some(other) if counts => Some(other.max(number)),
        None if counts => Some(number),
        _ => best,
    }
}

/// Returns a length as a value; without a length, a number without a value.
pub(crate) fn number_of(best: Option<u32>) -> Value
    ensures { as_value result ≡ as_number (option_map pos best) }
{
    match best {
        Some(number) => Value::Number(Some(i64::from(number))),
        None => Value::Number(None),
    }
}
