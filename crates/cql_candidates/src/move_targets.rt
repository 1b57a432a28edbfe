//! Squares of a name as the goal of a move: all squares are tried at once, not one by one.
ghost use Rattle.std.specs.Prelude.{◌≡◌, ◌&&◌, ℕ, ◌<◌, length, get_or, true, false, IfOk};
ghost use Rattle.cq_position.specs.Games.{IsTree};
ghost use Rattle.cql_columns.specs.Columns.{IsNodeSet, is_live};
ghost use Rattle.cql_columns.specs.Scopes.{tree_in};
ghost use Rattle.cql_candidates.specs.MoveTargets.{TestsGoal, move_to_set_matches};

use crate::independent::is_independent_part;
use crate::moves::{PartColumns, meets_parts};
use cq_common::NoMemory;
use cql_columns::filter_column::{blank_truths, set_at};
use cql_columns::scope::Scope;
use cql_syntax::{Filter, Played};
use cql_values::filter_forms::is_name_part;
use cql_values::names::Names;
use cql_values::value::Value;
use std::alloc::Global;

/// Returns true only if the goal of the move is the square of a name, and no other part has an open name.
pub fn tests_goal(opened: &Names, name: &[u8], played: &Played) -> bool
    ensures { result ≡ true → TestsGoal opened.now name.now played.now }
{
    is_name_part(name, &played.goal)
        && is_independent_part(opened, &played.origin)
        && is_independent_part(opened, &played.taken)
        && is_independent_part(opened, &played.promoted)
}

/// Returns the nodes of a set whose move meets the columns and went to a square of the node's set.
///
/// # Errors
///
/// `NoMemory` if out of memory.
pub fn moves_to(
    alloc: Global,
    scope: &Scope,
    parts: &PartColumns,
    sets: &[u64],
    live: &[bool],
) -> Result<Vec<bool>, NoMemory>
    requires tree { IsTree scope.now.game.now.nodes }
    requires asked { IsNodeSet (tree_in scope.now) live.now }
    ensures { IfOk result (λ truths. (n : ℕ) → get_or truths.items n false
        ≡ (is_live live.now n && move_to_set_matches (tree_in scope.now) parts.now (get_or sets.now n 0) n)) }
{
    let mut truths = blank_truths(alloc, scope.game.len() as usize)?;
    for n in 0..scope.game.len() {
        truths[n as usize] = is_moved_to(live[n as usize], scope, parts, sets, n);
    }
    Ok(truths)
}

fn is_moved_to(asked: bool, scope: &Scope, parts: &PartColumns, sets: &[u64], n: u32) -> bool
    requires tree { IsTree scope.now.game.now.nodes }
    requires node { n < length scope.now.game.now.nodes }
    ensures { result ≡ (asked && move_to_set_matches (tree_in scope.now) parts.now (get_or sets.now n 0) n) }
{
    if !asked {
        return false;
    }
    let set = set_at(sets, n as usize);
    meets_parts(scope, parts, Some(Value::Set(set)), n)
}
