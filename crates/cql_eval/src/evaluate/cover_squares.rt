//! Candidate squares of a name for a filter on the squares of a set under another name.
ghost use Rattle.std.specs.Prelude.{◌≡◌, ℕ, ◌∷◌, length, false, OnOk};
ghost use Rattle.std.specs.Str.{bytes_eq};
ghost use Rattle.cq_position.specs.Games.{IsTree};
ghost use Rattle.cql_syntax.specs.Meaning as meaning;
ghost use Rattle.cql_syntax.specs.TreeOf.{filter_tree};
ghost use Rattle.cql_syntax.specs.Values as spec;
ghost use Rattle.cql_columns.specs.Columns.{IsNodeSet};
ghost use Rattle.cql_columns.specs.FlatTrees.{IsFlat};
ghost use Rattle.cql_columns.specs.Scopes.{tree_in, value_with};
ghost use Rattle.cql_eval.specs.Internal.Trials.{LeavesHolding};

use super::covers::cover;
use super::evaluate;
use super::trial::Trial;
use cq_common::{NoMemory, Steps};
use cq_geometry::Square;
use cql_candidates::covers::with_squares;
use cql_candidates::independent::{is_independent, is_some_square_of_other_name};
use cql_candidates::pairs::{PairTrial, retain_paired, tests_attack_pair};
use cql_syntax::{Filter, Form};
use std::alloc::Global;
use std::sync::ledger::Ledger;

/// Keeps those squares of sets with which a filter on some square of a set under another name may hold.
#[cycle(evaluate)]
#[tactic(auto, unfolding(cql_syntax::specs::Meaning::value, cql_columns::specs::FlatTrees::unflat))]
pub(super) fn cover_square<L: Ledger>(
    alloc: Global,
    trial: &Trial,
    asked: &Filter,
    sets: &mut [u64],
    steps: &mut Steps<L>,
) -> Result<(), NoMemory>
    requires tree { IsTree trial.now.scope.now.game.now.nodes }
    requires asked { IsNodeSet (tree_in trial.now.scope.now) trial.now.live.now }
    requires count { length sets.old ≡ length trial.now.live.now }
    requires flat { IsFlat (filter_tree asked.now) }
    ensures cut { OnOk result (LeavesHolding trial.now
        (value_with trial.now.scope.now (filter_tree asked.now)) sets.old sets.new) }
    ensures len { length sets.new ≡ length sets.old }
    ensures cost { steps.new ≡ steps.old }
{
    match &asked.form {
        Form::Square(every, inner, squares, part) => {
            let inner = inner.as_slice();
            if !is_some_square_of_other_name(*every, inner, trial.name) {
                return Ok(());
            }
            cover_inner(alloc, trial, inner, part, sets, steps)?;
            cover_pair(alloc, trial, inner, squares, part, sets, steps)
        }
        _ => Ok(()),
    }
}

// Keeps the squares for the inner filter, with any square under the other name.
#[cycle(evaluate)]
fn cover_inner<L: Ledger>(
    alloc: Global,
    trial: &Trial,
    inner: &[u8],
    part: &Filter,
    sets: &mut [u64],
    steps: &mut Steps<L>,
) -> Result<(), NoMemory>
    requires tree { IsTree trial.now.scope.now.game.now.nodes }
    requires asked { IsNodeSet (tree_in trial.now.scope.now) trial.now.live.now }
    requires count { length sets.old ≡ length trial.now.live.now }
    requires flat { IsFlat (filter_tree part.now) }
    requires other { bytes_eq inner.now trial.now.name.now ≡ false }
    ensures cut { OnOk result ((x : meaning.Names → ℕ → spec.Value) → LeavesHolding trial.now
        (λ e n. spec.square_of false (x e n)
        (λ s. spec.holds (value_with trial.now.scope.now (filter_tree part.now) ((inner.now, s) ∷ e) n))) sets.old sets.new) }
    ensures len { length sets.new ≡ length sets.old }
    ensures cost { steps.new ≡ steps.old }
{
    let wider = trial.opened.with(alloc, inner, Square::new(0))?;
    let within = Trial {
        opened: &wider,
        ..*trial
    };
    cover(alloc, &within, part, sets, steps)?;
    Ok(())
}

// Keeps the squares for the inner filter if it relates the two names: the other square is any of the set.
#[cycle(evaluate)]
fn cover_pair<L: Ledger>(
    alloc: Global,
    trial: &Trial,
    inner: &[u8],
    squares: &Filter,
    part: &Filter,
    sets: &mut [u64],
    steps: &mut Steps<L>,
) -> Result<(), NoMemory>
    requires tree { IsTree trial.now.scope.now.game.now.nodes }
    requires asked { IsNodeSet (tree_in trial.now.scope.now) trial.now.live.now }
    requires count { length sets.old ≡ length trial.now.live.now }
    requires flat { IsFlat (filter_tree squares.now) }
    requires other { bytes_eq inner.now trial.now.name.now ≡ false }
    ensures cut { OnOk result (LeavesHolding trial.now
        (λ e n. spec.square_of false (value_with trial.now.scope.now (filter_tree squares.now) e n)
        (λ s. spec.holds (value_with trial.now.scope.now (filter_tree part.now) ((inner.now, s) ∷ e) n))) sets.old sets.new) }
    ensures len { length sets.new ≡ length sets.old }
    ensures cost { steps.new ≡ steps.old }
{
    if !tests_attack_pair(trial.name, inner, part) {
        return Ok(());
    }
    if !is_independent(trial.opened, squares) {
        return Ok(());
    }
    let some = with_squares(alloc, trial.scope, trial.live, sets)?;
    let some = some.as_slice();
    let column = evaluate(alloc, squares, trial.scope, some, steps)?;
    let paired = PairTrial {
        scope: trial.scope,
        live: some,
        name: trial.name,
        other: inner,
        column: &column,
    };
    retain_paired(sets, &paired, part);
    drop(column);
    Ok(())
}
