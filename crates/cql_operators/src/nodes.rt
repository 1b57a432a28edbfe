//! The searched nodes as a set, and steps counted for the nodes of a set.
ghost use Rattle.std.specs.Prelude.{◌≡◌, ◌+◌, ◌≤◌, length, map, count_by, IfOk, OnOk, if◌then◌else◌};
ghost use Rattle.cq_position.specs.Games.{is_searched as is_searched_in, numbers};
ghost use Rattle.cq_position.specs.Search.{nodes_in};
ghost use Rattle.cql_values.specs.Trees.{searched_tree};
ghost use Rattle.cql_columns.specs.Scopes.{tree_in};
ghost use Rattle.cql_operators.specs.LineAtoms.{AreAllAsked};

use cq_common::{NoMemory, Steps};
use cql_columns::filter_column::blank_truths;
use cql_columns::scope::Scope;
use cql_values::walks::is_searched;
use pgn_tree::Game;
use std::alloc::Global;
use std::sync::ledger::Ledger;

/// Returns the searched nodes. Each takes a step.
///
/// # Errors
///
/// `NoMemory` if out of memory.
pub fn searched_nodes<L: Ledger>(
    alloc: Global,
    game: &Game,
    variations: bool,
    steps: &mut Steps<L>,
) -> Result<Vec<bool>, NoMemory>
    ensures nodes { IfOk result (λ all. all.items ≡ map (is_searched_in variations game.now.nodes) (numbers game.now.nodes)) }
    ensures exact { OnOk result (steps.new ≡ steps.old + length (nodes_in (searched_tree game.now variations))) }
    ensures most { steps.new ≤ steps.old + length (nodes_in (searched_tree game.now variations)) }
    ensures rises { steps.old ≤ steps.new }
{
    let mut all = Vec::with_capacity(alloc, game.len() as usize)?;
    for k in 0..game.len() {
        let there = is_searched(game, variations, k);
        all.push(there)?;
        tick_if(steps, there);
    }
    Ok(all)
}

/// Returns the searched nodes. Takes no steps.
///
/// # Errors
///
/// `NoMemory` if out of memory.
pub fn all_nodes(alloc: Global, scope: &Scope) -> Result<Vec<bool>, NoMemory>
    ensures { IfOk result (λ all. AreAllAsked (tree_in scope.now) all.items) }
{
    let mut all = blank_truths(alloc, scope.game.len() as usize)?;
    for k in 0..scope.game.len() {
        all[k as usize] = is_searched(scope.game, scope.variations, k);
    }
    Ok(all)
}

/// Takes a step for each node of a set.
pub fn tick_nodes<L: Ledger>(live: &[bool], steps: &mut Steps<L>)
    ensures { steps.new ≡ steps.old + count_by (λ b. b) live.now }
{
    for n in 0..live.len() {
        tick_if(steps, live[n]);
    }
}

fn tick_if<L: Ledger>(steps: &mut Steps<L>, there: bool)
    ensures { steps.new ≡ steps.old + (if there then 1 else 0) }
{
    if there {
        steps.tick();
    }
}
