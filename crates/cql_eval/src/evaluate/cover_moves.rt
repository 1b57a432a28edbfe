//! Candidate squares of a name for a filter of the move that led to a node.
ghost use Rattle.std.specs.Prelude.{◌≡◌, ℕ, [], length, option_map, true, IfOk, OnOk};
ghost use Rattle.cq_position.specs.Games.{IsTree};
ghost use Rattle.cql_syntax.specs.Meaning as meaning;
ghost use Rattle.cql_syntax.specs.TreeOf.{played_tree, written_tree};
ghost use Rattle.cql_syntax.specs.Values as spec;
ghost use Rattle.cql_columns.specs.Columns.{IsNodeSet, shown};
ghost use Rattle.cql_columns.specs.FlatTrees.{IsFlatMove, IsFlatPart};
ghost use Rattle.cql_columns.specs.Scopes.{tree_in};
ghost use Rattle.cql_candidates.specs.Covers.{AreRetained, IsNecessaryPart};
ghost use Rattle.cql_candidates.specs.MoveTargets.{move_matches};
ghost use Rattle.cql_eval.specs.Internal.Trials.{AreNecessaryParts, LeavesHolding};

use super::played::written_column;
use super::trial::Trial;
use cq_common::{NoMemory, Steps};
use cql_candidates::covers::{retain_move_squares, retain_where_holds, with_squares};
use cql_candidates::independent::is_independent_and_present;
use cql_candidates::moves::{PartColumns, matching_moves};
use cql_columns::filter_column::FilterColumn;
use cql_columns::scope::Scope;
use cql_operators::tree::nodes_before;
use cql_syntax::{Filter, Played};
use cql_values::filter_forms::part_gives_only_name;
use cql_values::names::Names;
use std::alloc::Global;
use std::sync::ledger::Ledger;

/// Keeps those squares of sets with which the moves may meet a filter. If a part is the name's own square, these are the squares of the
/// moves. If the parts without open names are met, they are all squares.
#[cycle(evaluate)]
#[tactic(auto, unfolding(cql_syntax::specs::Meaning::value, cql_columns::specs::FlatTrees::unflat))]
pub(super) fn cover_played<L: Ledger>(
    alloc: Global,
    trial: &Trial,
    played: &Played,
    sets: &mut [u64],
    steps: &mut Steps<L>,
) -> Result<(), NoMemory>
    requires tree { IsTree trial.now.scope.now.game.now.nodes }
    requires asked { IsNodeSet (tree_in trial.now.scope.now) trial.now.live.now }
    requires count { length sets.old ≡ length trial.now.live.now }
    requires flat { IsFlatMove (played_tree played.now) }
    ensures cut { OnOk result (LeavesHolding trial.now
        (λ e n. spec.as_truth (meaning.played_value (tree_in trial.now.scope.now) [] e (played_tree played.now) n)) sets.old sets.new) }
    ensures len { length sets.new ≡ length sets.old }
    ensures cost { steps.new ≡ steps.old }
{
    let origin = part_gives_only_name(trial.name, &played.origin);
    let goal = part_gives_only_name(trial.name, &played.goal);
    let taken = part_gives_only_name(trial.name, &played.taken);
    retain_move_squares(sets, trial.live, trial.scope, origin, goal, taken);
    if !asks_without(trial.opened, played) {
        return Ok(());
    }
    let some = with_squares(alloc, trial.scope, trial.live, sets)?;
    let some = some.as_slice();
    let parts = independent_columns(alloc, trial, played, some, steps)?;
    let goal = independent_column(alloc, trial, &played.goal, some, steps)?;
    cut_unmet(alloc, trial.scope, parts, goal, some, sets)
}

// Removes all squares at the nodes of a set to which no move that meets the columns led.
fn cut_unmet(
    alloc: Global,
    scope: &Scope,
    parts: PartColumns,
    goal: Option<FilterColumn>,
    live: &[bool],
    sets: &mut [u64],
) -> Result<(), NoMemory>
    requires tree { IsTree scope.now.game.now.nodes }
    requires asked { IsNodeSet (tree_in scope.now) live.now }
    requires count { length sets.old ≡ length live.now }
    ensures cut { OnOk result (AreRetained live.now
        (λ n s. move_matches (tree_in scope.now) parts (option_map (λ c. shown c n) goal) n ≡ true) sets.old sets.new) }
    ensures len { length sets.new ≡ length sets.old }
{
    let met = matching_moves(alloc, scope, &parts, &goal, live);
    drop(parts);
    drop(goal);
    let truths = FilterColumn::Truths(met?);
    retain_where_holds(sets, live, &truths);
    drop(truths);
    Ok(())
}

// The columns of those parts of a move that have no open name, without its goal, for the moves that led to the nodes of a set.
#[cycle(evaluate)]
#[tactic(auto, unfolding(cql_columns::specs::FlatTrees::unflat))]
fn independent_columns<L: Ledger>(
    alloc: Global,
    trial: &Trial,
    played: &Played,
    live: &[bool],
    steps: &mut Steps<L>,
) -> Result<PartColumns, NoMemory>
    requires tree { IsTree trial.now.scope.now.game.now.nodes }
    requires asked { IsNodeSet (tree_in trial.now.scope.now) live.now }
    requires flat { IsFlatMove (played_tree played.now) }
    ensures asks { IfOk result
        (AreNecessaryParts (tree_in trial.now.scope.now) trial.now.opened.now trial.now.scope.now.names.now played.now live.now) }
    ensures cost { steps.new ≡ steps.old }
{
    let wide = nodes_before(alloc, trial.scope, live)?;
    let wide = wide.as_slice();
    let origin = independent_column(alloc, trial, &played.origin, wide, steps)?;
    let taken = independent_column(alloc, trial, &played.taken, wide, steps)?;
    let promoted = independent_column(alloc, trial, &played.promoted, live, steps)?;
    Ok(PartColumns {
        origin,
        taken,
        promoted,
    })
}

// Returns true if some part that is written has no open name. If there is none, no part need be evaluated.
fn asks_without(opened: &Names, played: &Played) -> bool {
    is_independent_and_present(opened, &played.origin)
        || is_independent_and_present(opened, &played.goal)
        || is_independent_and_present(opened, &played.taken)
        || is_independent_and_present(opened, &played.promoted)
}

// The column at these nodes of a part without open names, and `None` for another part.
#[cycle(evaluate)]
fn independent_column<L: Ledger>(
    alloc: Global,
    trial: &Trial,
    written: &Option<Box<Filter>>,
    live: &[bool],
    steps: &mut Steps<L>,
) -> Result<Option<FilterColumn>, NoMemory>
    requires tree { IsTree trial.now.scope.now.game.now.nodes }
    requires asked { IsNodeSet (tree_in trial.now.scope.now) live.now }
    requires flat { IsFlatPart (written_tree written.now) }
    ensures asks { IfOk result (IsNecessaryPart (tree_in trial.now.scope.now) trial.now.opened.now trial.now.scope.now.names.now
        (written_tree written.now) live.now) }
    ensures cost { steps.new ≡ steps.old }
{
    if !is_independent_and_present(trial.opened, written) {
        return Ok(None);
    }
    written_column(alloc, written, trial.scope, live, steps)
}
