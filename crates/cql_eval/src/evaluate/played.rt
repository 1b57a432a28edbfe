//! Moves to nodes, and the filters that they meet.
ghost use Rattle.std.specs.Prelude.{◌≡◌, ℕ, ◌≤◌, ◌+◌, [], length, true, get_or, option_map, IfOk};
ghost use Rattle.cq_position.specs.Games.{IsTree};
ghost use Rattle.cql_syntax.specs.Meaning as meaning;
ghost use Rattle.cql_syntax.specs.TreeOf.{filter_tree, played_tree, written_tree};
ghost use Rattle.cql_syntax.specs.Values.{as_truth};
ghost use Rattle.cql_columns.specs.Columns.{IsNodeSet, IsColumn, Where, shown};
ghost use Rattle.cql_columns.specs.Costs.{played_cost, written_cost, searched_len};
ghost use Rattle.cql_columns.specs.FlatTrees.{IsFlatMove, IsFlatPart};
ghost use Rattle.cql_columns.specs.Scopes.{tree_in};
ghost use Rattle.cql_candidates.specs.MoveTargets.{ArePartColumns, parts_cost};

use super::columns::met_column;
use super::evaluate;
use cq_common::{NoMemory, Steps};
use cql_candidates::moves::{PartColumns, promotion_nodes};
use cql_columns::filter_column::FilterColumn;
use cql_columns::scope::Scope;
use cql_operators::tree::nodes_before;
use cql_syntax::{Filter, Played};
use std::alloc::Global;
use std::sync::ledger::Ledger;

/// The truth that the move to a node meets a filter. Its origin and the man it took are evaluated at the node before, its goal and
/// promotion at the node itself. If the filter has a promotion, no other move is looked at.
#[cycle(evaluate)]
#[tactic(auto, unfolding(cql_syntax::specs::Meaning::value, cql_columns::specs::Costs::filter_cost, cql_columns::specs::FlatTrees::unflat))]
pub(super) fn played_column<L: Ledger>(
    alloc: Global,
    played: &Played,
    scope: &Scope,
    live: &[bool],
    steps: &mut Steps<L>,
) -> Result<FilterColumn, NoMemory>
    requires tree { IsTree scope.now.game.now.nodes }
    requires asked { IsNodeSet (tree_in scope.now) live.now }
    requires flat { IsFlatMove (played_tree played.now) }
    ensures value { IfOk result (λ c. IsColumn c live.now
        (λ n. as_truth (meaning.played_value (tree_in scope.now) [] scope.now.names.now (played_tree played.now) n))) }
    ensures cost { steps.new ≤ steps.old + played_cost (searched_len (tree_in scope.now)) (played_tree played.now) }
    ensures rises { steps.old ≤ steps.new }
{
    let promotes = played.promoted.is_some();
    let some = promotion_nodes(alloc, scope, promotes, live)?;
    let some = some.as_slice();
    let parts = part_columns(alloc, played, scope, some, steps)?;
    let goal = written_column(alloc, &played.goal, scope, some, steps)?;
    met_column(alloc, scope, parts, goal, some)
}

/// The columns of the parts of a move, without its goal, for the moves that led to the nodes of a set.
#[cycle(evaluate)]
#[tactic(auto, unfolding(cql_syntax::specs::Meaning::value, cql_columns::specs::Costs::filter_cost, cql_columns::specs::FlatTrees::unflat))]
pub(super) fn part_columns<L: Ledger>(
    alloc: Global,
    played: &Played,
    scope: &Scope,
    live: &[bool],
    steps: &mut Steps<L>,
) -> Result<PartColumns, NoMemory>
    requires tree { IsTree scope.now.game.now.nodes }
    requires asked { IsNodeSet (tree_in scope.now) live.now }
    requires flat { IsFlatMove (played_tree played.now) }
    ensures value { IfOk result (ArePartColumns (tree_in scope.now) scope.now.names.now played.now live.now) }
    ensures cost { steps.new ≤ steps.old + parts_cost (searched_len (tree_in scope.now)) played.now }
    ensures rises { steps.old ≤ steps.new }
{
    let wide = nodes_before(alloc, scope, live)?;
    let wide = wide.as_slice();
    let origin = written_column(alloc, &played.origin, scope, wide, steps)?;
    let taken = written_column(alloc, &played.taken, scope, wide, steps)?;
    let promoted = written_column(alloc, &played.promoted, scope, live, steps)?;
    Ok(PartColumns {
        origin,
        taken,
        promoted,
    })
}

/// The column of a part, if it is written.
#[cycle(evaluate)]
#[tactic(auto, unfolding(cql_syntax::specs::Meaning::value, cql_columns::specs::Costs::filter_cost, cql_columns::specs::FlatTrees::unflat))]
pub(super) fn written_column<L: Ledger>(
    alloc: Global,
    written: &Option<Box<Filter>>,
    scope: &Scope,
    live: &[bool],
    steps: &mut Steps<L>,
) -> Result<Option<FilterColumn>, NoMemory>
    requires tree { IsTree scope.now.game.now.nodes }
    requires asked { IsNodeSet (tree_in scope.now) live.now }
    requires flat { IsFlatPart (written_tree written.now) }
    ensures value { IfOk result (λ column. Where live.now (λ n. option_map (λ c. shown c n) column
        ≡ meaning.written_value (tree_in scope.now) [] scope.now.names.now (written_tree written.now) n)) }
    ensures cost { steps.new ≤ steps.old + written_cost (searched_len (tree_in scope.now)) (written_tree written.now) }
    ensures rises { steps.old ≤ steps.new }
{
    match written {
        Some(filter) => {
            let column = evaluate(alloc, filter, scope, live, steps)?;
            Ok(Some(column))
        }
        None => Ok(None),
    }
}
