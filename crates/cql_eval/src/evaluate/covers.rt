//! Candidate squares: of the squares of sets, those with which a filter may hold.
ghost use Rattle.std.specs.Prelude.{◌≡◌, ◌⊎◌, ℕ, length, true, OnOk};
ghost use Rattle.cq_position.specs.Games.{IsTree, node_at};
ghost use Rattle.cql_syntax.specs.Meaning as meaning;
ghost use Rattle.cql_syntax.specs.TreeOf.{filter_tree, filters_tree};
ghost use Rattle.cql_syntax.specs.Values as spec;
ghost use Rattle.cql_syntax.specs.declared.leaves.Pair.TheVariants.{Attacks, AttackedBy};
ghost use Rattle.cql_columns.specs.Columns.{IsNodeSet};
ghost use Rattle.cql_columns.specs.FlatTrees.{IsFlat, AreFlat};
ghost use Rattle.cql_columns.specs.Scopes.{tree_in, value_with, values_with};
ghost use Rattle.cql_candidates.specs.Covers.{IsIndependent};
ghost use Rattle.cql_eval.specs.Internal.Trials.{LeavesHolding, LeavesHaving};

use super::cover_moves::cover_played;
use super::cover_some::cover_some;
use super::cover_squares::cover_square;
use super::evaluate;
use super::trial::Trial;
use cq_common::{NoMemory, Steps};
use cql_candidates::covers::{
    any_nonempty, cut, retain_attackers, retain_where_holds, uniform_sets, union_at_live,
    with_squares,
};
use cql_candidates::independent::{converse, is_independent};
use cql_candidates::order::{SORT_CLASS, is_of_class};
use cql_columns::filter_column::FilterColumn;
use cql_operators::from_other_nodes::{reads_other_nodes, source_nodes, squares_of_sources};
use cql_syntax::{Filter, Filters, Form, Pair, Unary};
use cql_values::filter_forms::{
    gives_only_name, is_attack, is_conjunction, is_disjunction, is_intersection,
};
use std::alloc::Global;
use std::sync::ledger::Ledger;

/// Keeps those squares of sets with which a filter may hold.
#[cycle(evaluate)]
#[tactic(auto, unfolding(cql_syntax::specs::Meaning::value, cql_columns::specs::FlatTrees::unflat))]
pub(super) fn cover<L: Ledger>(
    alloc: Global,
    trial: &Trial,
    asked: &Filter,
    sets: &mut [u64],
    steps: &mut Steps<L>,
) -> Result<(), NoMemory>
    requires tree { IsTree trial.now.scope.now.game.now.nodes }
    requires asked { IsNodeSet (tree_in trial.now.scope.now) trial.now.live.now }
    requires count { length sets.old ≡ length trial.now.live.now }
    requires flat { IsFlat (filter_tree asked.now) }
    ensures cut { OnOk result (LeavesHolding trial.now
        (value_with trial.now.scope.now (filter_tree asked.now)) sets.old sets.new) }
    ensures len { length sets.new ≡ length sets.old }
    ensures cost { steps.new ≡ steps.old }
{
    if !any_nonempty(sets) {
        return Ok(());
    }
    if is_independent(trial.opened, asked) {
        return cover_independent(alloc, trial, asked, sets, steps);
    }
    if gives_only_name(trial.name, asked) {
        return cover_set(alloc, trial, asked, sets, steps);
    }
    match &asked.form {
        Form::Chain(chain, parts) => {
            if is_disjunction(*chain) {
                return cover_some(alloc, trial, parts, sets, steps);
            }
            if !is_conjunction(*chain) {
                return Ok(());
            }
            cover_all(alloc, trial, parts, sets, steps)
        }
        Form::Square(..) => cover_square(alloc, trial, asked, sets, steps),
        Form::Unary(word, part) => cover_other_nodes(alloc, trial, *word, part, sets, steps),
        Form::Played(played) => cover_played(alloc, trial, played, sets, steps),
        // A set whose men attack the square, or are attacked from it.
        Form::Pair(pair, first, second) => {
            if !is_attack(*pair) {
                return Ok(());
            }
            if !gives_only_name(trial.name, second) {
                return Ok(());
            }
            cover_related(alloc, trial, converse(*pair), first, sets, steps)
        }
        _ => Ok(()),
    }
}

// Keeps the squares for a filter without open names.
#[cycle(evaluate)]
fn cover_independent<L: Ledger>(
    alloc: Global,
    trial: &Trial,
    asked: &Filter,
    sets: &mut [u64],
    steps: &mut Steps<L>,
) -> Result<(), NoMemory>
    requires tree { IsTree trial.now.scope.now.game.now.nodes }
    requires asked { IsNodeSet (tree_in trial.now.scope.now) trial.now.live.now }
    requires count { length sets.old ≡ length trial.now.live.now }
    requires flat { IsFlat (filter_tree asked.now) }
    requires free { IsIndependent trial.now.opened.now (filter_tree asked.now) }
    ensures cut { OnOk result (LeavesHolding trial.now
        (value_with trial.now.scope.now (filter_tree asked.now)) sets.old sets.new) }
    ensures len { length sets.new ≡ length sets.old }
    ensures cost { steps.new ≡ steps.old }
{
    let some = with_squares(alloc, trial.scope, trial.live, sets)?;
    let column = evaluate(alloc, asked, trial.scope, &some, steps)?;
    retain_where_holds(sets, &some, &column);
    drop(column);
    Ok(())
}

// Keeps the squares for filters that must all hold, class by class.
#[cycle(evaluate)]
fn cover_all<L: Ledger>(
    alloc: Global,
    trial: &Trial,
    parts: &Filters,
    sets: &mut [u64],
    steps: &mut Steps<L>,
) -> Result<(), NoMemory>
    requires tree { IsTree trial.now.scope.now.game.now.nodes }
    requires asked { IsNodeSet (tree_in trial.now.scope.now) trial.now.live.now }
    requires count { length sets.old ≡ length trial.now.live.now }
    requires flat { AreFlat (filters_tree parts.now) }
    ensures cut { OnOk result (LeavesHolding trial.now
        (λ e n. spec.all_hold (values_with trial.now.scope.now (filters_tree parts.now) e n)) sets.old sets.new) }
    ensures len { length sets.new ≡ length sets.old }
    ensures cost { steps.new ≡ steps.old }
{
    for class in 0..SORT_CLASS {
        cover_class(alloc, trial, class, parts, sets, steps)?;
    }
    Ok(())
}

// Keeps the squares for the filters of a class.
#[cycle(evaluate)]
fn cover_class<L: Ledger>(
    alloc: Global,
    trial: &Trial,
    class: u32,
    parts: &Filters,
    sets: &mut [u64],
    steps: &mut Steps<L>,
) -> Result<(), NoMemory>
    requires tree { IsTree trial.now.scope.now.game.now.nodes }
    requires asked { IsNodeSet (tree_in trial.now.scope.now) trial.now.live.now }
    requires count { length sets.old ≡ length trial.now.live.now }
    requires flat { AreFlat (filters_tree parts.now) }
    ensures cut { OnOk result (LeavesHolding trial.now
        (λ e n. spec.all_hold (values_with trial.now.scope.now (filters_tree parts.now) e n)) sets.old sets.new) }
    ensures len { length sets.new ≡ length sets.old }
    ensures cost { steps.new ≡ steps.old }
{
    for part in parts.as_slice() {
        cover_if(alloc, trial, class, part, sets, steps)?;
    }
    Ok(())
}

// Keeps the squares for one filter, if it is of the class.
#[cycle(evaluate)]
fn cover_if<L: Ledger>(
    alloc: Global,
    trial: &Trial,
    class: u32,
    part: &Filter,
    sets: &mut [u64],
    steps: &mut Steps<L>,
) -> Result<(), NoMemory>
    requires tree { IsTree trial.now.scope.now.game.now.nodes }
    requires asked { IsNodeSet (tree_in trial.now.scope.now) trial.now.live.now }
    requires count { length sets.old ≡ length trial.now.live.now }
    requires flat { IsFlat (filter_tree part.now) }
    ensures cut { OnOk result (LeavesHolding trial.now
        (value_with trial.now.scope.now (filter_tree part.now)) sets.old sets.new) }
    ensures len { length sets.new ≡ length sets.old }
    ensures cost { steps.new ≡ steps.old }
{
    if !is_of_class(part, class) {
        return Ok(());
    }
    cover(alloc, trial, part, sets, steps)
}

// Keeps the squares for a word that evaluates its part at other nodes: those with which the part may hold at one of these.
#[cycle(evaluate)]
fn cover_other_nodes<L: Ledger>(
    alloc: Global,
    trial: &Trial,
    word: Unary,
    part: &Filter,
    sets: &mut [u64],
    steps: &mut Steps<L>,
) -> Result<(), NoMemory>
    requires tree { IsTree trial.now.scope.now.game.now.nodes }
    requires asked { IsNodeSet (tree_in trial.now.scope.now) trial.now.live.now }
    requires count { length sets.old ≡ length trial.now.live.now }
    requires flat { IsFlat (filter_tree part.now) }
    ensures cut { OnOk result (LeavesHolding trial.now
        (λ e. meaning.unary_of (tree_in trial.now.scope.now) word
        (value_with trial.now.scope.now (filter_tree part.now) e)) sets.old sets.new) }
    ensures len { length sets.new ≡ length sets.old }
    ensures cost { steps.new ≡ steps.old }
{
    if !reads_other_nodes(word) {
        return Ok(());
    }
    let wide = source_nodes(alloc, word, trial.scope, trial.live)?;
    let wide = wide.as_slice();
    let mut there = uniform_sets(alloc, wide, union_at_live(trial.live, sets))?;
    let elsewhere = Trial {
        live: wide,
        ..*trial
    };
    cover(alloc, &elsewhere, part, &mut there, steps)?;
    let back = squares_of_sources(alloc, word, trial.scope.game, there)?;
    let left = FilterColumn::Sets(back);
    cut(sets, trial.live, &left);
    drop(left);
    Ok(())
}

// Keeps those squares of sets that the value of a filter may have.
#[cycle(evaluate)]
#[tactic(auto, unfolding(cql_syntax::specs::Meaning::value, cql_columns::specs::FlatTrees::unflat))]
fn cover_set<L: Ledger>(
    alloc: Global,
    trial: &Trial,
    asked: &Filter,
    sets: &mut [u64],
    steps: &mut Steps<L>,
) -> Result<(), NoMemory>
    requires tree { IsTree trial.now.scope.now.game.now.nodes }
    requires asked { IsNodeSet (tree_in trial.now.scope.now) trial.now.live.now }
    requires count { length sets.old ≡ length trial.now.live.now }
    requires flat { IsFlat (filter_tree asked.now) }
    ensures cut { OnOk result (LeavesHaving trial.now
        (value_with trial.now.scope.now (filter_tree asked.now)) sets.old sets.new) }
    ensures len { length sets.new ≡ length sets.old }
    ensures cost { steps.new ≡ steps.old }
{
    if is_independent(trial.opened, asked) {
        return cover_independent_set(alloc, trial, asked, sets, steps);
    }
    match &asked.form {
        Form::Chain(chain, parts) => {
            if !is_intersection(*chain) {
                return Ok(());
            }
            cover_each(alloc, trial, parts, sets, steps)
        }
        Form::Pair(pair, first, second) => {
            if !is_attack(*pair) {
                return Ok(());
            }
            cover_set(alloc, trial, first, sets, steps)?;
            cover_related(alloc, trial, *pair, second, sets, steps)
        }
        _ => Ok(()),
    }
}

// Keeps the squares of a set filter without open names.
#[cycle(evaluate)]
fn cover_independent_set<L: Ledger>(
    alloc: Global,
    trial: &Trial,
    asked: &Filter,
    sets: &mut [u64],
    steps: &mut Steps<L>,
) -> Result<(), NoMemory>
    requires tree { IsTree trial.now.scope.now.game.now.nodes }
    requires asked { IsNodeSet (tree_in trial.now.scope.now) trial.now.live.now }
    requires count { length sets.old ≡ length trial.now.live.now }
    requires flat { IsFlat (filter_tree asked.now) }
    requires free { IsIndependent trial.now.opened.now (filter_tree asked.now) }
    ensures cut { OnOk result (LeavesHaving trial.now
        (value_with trial.now.scope.now (filter_tree asked.now)) sets.old sets.new) }
    ensures len { length sets.new ≡ length sets.old }
    ensures cost { steps.new ≡ steps.old }
{
    let some = with_squares(alloc, trial.scope, trial.live, sets)?;
    let column = evaluate(alloc, asked, trial.scope, &some, steps)?;
    cut(sets, &some, &column);
    drop(column);
    Ok(())
}

// Keeps the squares for an intersection: each of its sets must have them.
#[cycle(evaluate)]
fn cover_each<L: Ledger>(
    alloc: Global,
    trial: &Trial,
    parts: &Filters,
    sets: &mut [u64],
    steps: &mut Steps<L>,
) -> Result<(), NoMemory>
    requires tree { IsTree trial.now.scope.now.game.now.nodes }
    requires asked { IsNodeSet (tree_in trial.now.scope.now) trial.now.live.now }
    requires count { length sets.old ≡ length trial.now.live.now }
    requires flat { AreFlat (filters_tree parts.now) }
    ensures cut { OnOk result (LeavesHaving trial.now
        (λ e n. spec.intersection_of (values_with trial.now.scope.now (filters_tree parts.now) e n)) sets.old sets.new) }
    ensures len { length sets.new ≡ length sets.old }
    ensures cost { steps.new ≡ steps.old }
{
    for part in parts.as_slice() {
        cover_set(alloc, trial, part, sets, steps)?;
    }
    Ok(())
}

// Keeps the squares whose men attack a set filter without open names, or are attacked from it.
#[cycle(evaluate)]
fn cover_related<L: Ledger>(
    alloc: Global,
    trial: &Trial,
    pair: Pair,
    second: &Filter,
    sets: &mut [u64],
    steps: &mut Steps<L>,
) -> Result<(), NoMemory>
    requires tree { IsTree trial.now.scope.now.game.now.nodes }
    requires asked { IsNodeSet (tree_in trial.now.scope.now) trial.now.live.now }
    requires count { length sets.old ≡ length trial.now.live.now }
    requires flat { IsFlat (filter_tree second.now) }
    requires attack { (pair ≡ Attacks) ⊎ (pair ≡ AttackedBy) }
    ensures cut { OnOk result ((v : meaning.Names → ℕ → spec.Value) → LeavesHaving trial.now
        (λ e n. spec.pair_of (node_at trial.now.scope.now.game.now.nodes n).position.men pair (v e n)
        (value_with trial.now.scope.now (filter_tree second.now) e n)) sets.old sets.new) }
    ensures len { length sets.new ≡ length sets.old }
    ensures cost { steps.new ≡ steps.old }
{
    if !is_independent(trial.opened, second) {
        return Ok(());
    }
    let some = with_squares(alloc, trial.scope, trial.live, sets)?;
    let column = evaluate(alloc, second, trial.scope, &some, steps)?;
    retain_attackers(sets, &some, trial.scope, pair, &column);
    drop(column);
    Ok(())
}
