//! Candidate squares for a disjunction: those that are candidates for one of its filters.
ghost use Rattle.std.specs.Prelude.{◌≡◌, ℕ, length, OnOk};
ghost use Rattle.cq_position.specs.Games.{IsTree};
ghost use Rattle.cql_syntax.specs.TreeOf.{filter_tree, filters_tree};
ghost use Rattle.cql_syntax.specs.Values as spec;
ghost use Rattle.cql_columns.specs.Columns.{IsNodeSet};
ghost use Rattle.cql_columns.specs.FlatTrees.{IsFlat, AreFlat};
ghost use Rattle.cql_columns.specs.Scopes.{tree_in, value_with, values_with};
ghost use Rattle.cql_candidates.specs.Covers.{AreAdded, MayHold};
ghost use Rattle.cql_eval.specs.Internal.Trials.{LeavesHolding};

use super::covers::cover;
use super::trial::Trial;
use cq_common::{NoMemory, Steps};
use cql_candidates::covers::{add_sets, copy_sets, cut};
use cql_columns::filter_column::{FilterColumn, blank_sets};
use cql_syntax::{Filter, Filters};
use std::alloc::Global;
use std::sync::ledger::Ledger;

/// Keeps those squares of sets with which one of the filters may hold.
#[cycle(evaluate)]
pub(super) fn cover_some<L: Ledger>(
    alloc: Global,
    trial: &Trial,
    parts: &Filters,
    sets: &mut [u64],
    steps: &mut Steps<L>,
) -> Result<(), NoMemory>
    requires tree { IsTree trial.now.scope.now.game.now.nodes }
    requires asked { IsNodeSet (tree_in trial.now.scope.now) trial.now.live.now }
    requires count { length sets.old ≡ length trial.now.live.now }
    requires flat { AreFlat (filters_tree parts.now) }
    ensures cut { OnOk result (LeavesHolding trial.now
        (λ e n. spec.some_holds (values_with trial.now.scope.now (filters_tree parts.now) e n)) sets.old sets.new) }
    ensures len { length sets.new ≡ length sets.old }
    ensures cost { steps.new ≡ steps.old }
{
    let mut kept = blank_sets(alloc, trial.live.len())?;
    for part in parts.as_slice() {
        add_covered(alloc, trial, part, sets, &mut kept, steps)?;
    }
    let left = FilterColumn::Sets(kept);
    cut(sets, trial.live, &left);
    drop(left);
    Ok(())
}

// Adds the squares of sets with which a filter may hold.
#[cycle(evaluate)]
fn add_covered<L: Ledger>(
    alloc: Global,
    trial: &Trial,
    part: &Filter,
    sets: &[u64],
    kept: &mut [u64],
    steps: &mut Steps<L>,
) -> Result<(), NoMemory>
    requires tree { IsTree trial.now.scope.now.game.now.nodes }
    requires asked { IsNodeSet (tree_in trial.now.scope.now) trial.now.live.now }
    requires count { length sets.now ≡ length trial.now.live.now }
    requires kept { length kept.old ≡ length trial.now.live.now }
    requires flat { IsFlat (filter_tree part.now) }
    ensures added { OnOk result (AreAdded trial.now.live.now (MayHold trial.now.opened.now trial.now.scope.now.names.now trial.now.name.now
        (value_with trial.now.scope.now (filter_tree part.now))) sets.now kept.old kept.new) }
    ensures len { length kept.new ≡ length kept.old }
    ensures cost { steps.new ≡ steps.old }
{
    let mut left = copy_sets(alloc, sets)?;
    cover(alloc, trial, part, &mut left, steps)?;
    add_sets(kept, &left);
    Ok(())
}
