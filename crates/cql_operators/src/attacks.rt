//! Attacks from the squares of a column, all at once and not square by square.
ghost use Rattle.std.specs.Prelude.{Some, IfOk};
ghost use Rattle.cq_position.specs.Attacks.{attacks};
ghost use Rattle.cq_position.specs.Games.{node_at};
ghost use Rattle.cql_syntax.specs.Meaning as meaning;
ghost use Rattle.cql_syntax.specs.Values as spec;
ghost use Rattle.cql_columns.specs.Columns.{IsNodeSet, AreTruths, shown};
ghost use Rattle.cql_columns.specs.Scopes.{tree_in};

use crate::combine::{held, pair_column};
use cq_common::NoMemory;
use cql_columns::filter_column::FilterColumn;
use cql_columns::scope::Scope;
use cql_columns::standing_squares::standing_sets;
use cql_syntax::{Designator, Pair};
use std::alloc::Global;

/// Returns, for each live node, true if a man on some square of a column attacks a man of a designator.
///
/// # Errors
///
/// `NoMemory` if out of memory.
pub fn attack_truths(
    alloc: Global,
    squares: &FilterColumn,
    d: &Designator,
    scope: &Scope,
    live: &[bool],
) -> Result<Vec<bool>, NoMemory>
    requires asked { IsNodeSet (tree_in scope.now) live.now }
    ensures { IfOk result (λ truths. AreTruths truths.items live.now
        (λ n. spec.as_truth (spec.holds (spec.related (attacks (node_at scope.now.game.now.nodes n).position.men) (shown squares.now n)
        (meaning.standing_of (node_at scope.now.game.now.nodes n).position.men (Some d.now)))))) }
{
    let goals = standing_sets(alloc, d, scope, live)?;
    let goals = FilterColumn::Sets(goals);
    let attacking = pair_column(alloc, Pair::Attacks, scope, squares, &goals, live);
    drop(goals);
    let attacking = attacking?;
    let truths = held(alloc, &attacking, live);
    drop(attacking);
    truths
}
