//! Squares that are tried all at once, for a filter that tests if the move went to some square.
ghost use Rattle.std.specs.Prelude.{◌≡◌, ℕ, ◌&&◌, ◌∷◌, [], get_or, length, true, false, IfOk, IfSome};
ghost use Rattle.cq_position.specs.Games.{IsTree};
ghost use Rattle.cq_symmetry.specs.Images.{is_in};
ghost use Rattle.cql_syntax.specs.Meaning as meaning;
ghost use Rattle.cql_syntax.specs.TreeOf.{filter_tree, played_tree};
ghost use Rattle.cql_syntax.specs.Values as spec;
ghost use Rattle.cql_eval.specs.Internal.Bindings.{holds_with};
ghost use Rattle.cql_columns.specs.Columns.{IsNodeSet, AreTruths, is_live, shown};
ghost use Rattle.cql_columns.specs.FlatTrees.{IsFlat, IsFlatMove};
ghost use Rattle.cql_columns.specs.Scopes.{tree_in};
ghost use Rattle.cql_candidates.specs.MoveTargets.{move_to_set_matches};

use super::played::part_columns;
use cq_common::{NoMemory, Steps};
use cql_candidates::covers::sets_of;
use cql_candidates::move_targets::{moves_to, tests_goal};
use cql_candidates::moves::{PartColumns, promotion_nodes};
use cql_columns::binding::Binding;
use cql_syntax::{Filter, Form, Played};
use cql_values::filter_forms::is_conjunction;
use cql_values::names::Names;
use std::alloc::Global;
use std::sync::ledger::Ledger;

/// The truth that a filter holds with some square of a column, if it tests that the move went there; `None` for another filter.
#[cycle(evaluate)]
#[tactic(auto, unfolding(cql_syntax::specs::Meaning::value, cql_columns::specs::FlatTrees::unflat))]
pub(super) fn goal_truths<L: Ledger>(
    alloc: Global,
    opened: &Names,
    binding: &Binding,
    asked: &Filter,
    live: &[bool],
    steps: &mut Steps<L>,
) -> Result<Option<Vec<bool>>, NoMemory>
    requires tree { IsTree binding.now.scope.now.game.now.nodes }
    requires asked { IsNodeSet (tree_in binding.now.scope.now) live.now }
    requires flat { IsFlat (filter_tree asked.now) }
    requires some { binding.now.every ≡ false }
    requires opened { opened.now ≡ (binding.now.name.now, 0) ∷ [] }
    ensures value { IfOk result (λ at_once. IfSome at_once (λ truths. AreTruths truths.items live.now
        (λ n. spec.square_of binding.now.every (shown binding.now.squares.now n) (holds_with binding.now (filter_tree asked.now) n)))) }
    ensures cost { steps.new ≡ steps.old }
{
    match &asked.form {
        // A chain of one filter.
        Form::Chain(chain, parts) => {
            if !is_conjunction(*chain) {
                return Ok(None);
            }
            if parts.len() != 1 {
                return Ok(None);
            }
            for part in parts.as_slice() {
                return goal_truths(alloc, opened, binding, part, live, steps);
            }
            Ok(None)
        }
        Form::Played(played) => goal_met(alloc, opened, binding, played, live, steps),
        _ => Ok(None),
    }
}

// The truth that the move went to a square of the node's set. If the filter has a promotion, no other move is looked at.
#[cycle(evaluate)]
#[tactic(auto, unfolding(cql_syntax::specs::Meaning::value, cql_columns::specs::FlatTrees::unflat))]
fn goal_met<L: Ledger>(
    alloc: Global,
    opened: &Names,
    binding: &Binding,
    played: &Played,
    live: &[bool],
    steps: &mut Steps<L>,
) -> Result<Option<Vec<bool>>, NoMemory>
    requires tree { IsTree binding.now.scope.now.game.now.nodes }
    requires asked { IsNodeSet (tree_in binding.now.scope.now) live.now }
    requires flat { IsFlatMove (played_tree played.now) }
    requires some { binding.now.every ≡ false }
    requires opened { opened.now ≡ (binding.now.name.now, 0) ∷ [] }
    ensures value { IfOk result (λ at_once. IfSome at_once (λ truths. AreTruths truths.items live.now
        (λ n. spec.square_of binding.now.every (shown binding.now.squares.now n)
        (λ s. meaning.played_value (tree_in binding.now.scope.now) []
        ((binding.now.name.now, s) ∷ binding.now.scope.now.names.now) (played_tree played.now) n)))) }
    ensures cost { steps.new ≡ steps.old }
{
    if !tests_goal(opened, binding.name, played) {
        return Ok(None);
    }
    let promotes = played.promoted.is_some();
    let some = promotion_nodes(alloc, binding.scope, promotes, live)?;
    let some = some.as_slice();
    let parts = part_columns(alloc, played, binding.scope, some, steps)?;
    let there = moves_to_square(alloc, binding, &parts, some);
    drop(parts);
    there
}

// The truth that the move to a node of a set went to a square of the column, and meets the columns of its other parts.
fn moves_to_square(
    alloc: Global,
    binding: &Binding,
    parts: &PartColumns,
    live: &[bool],
) -> Result<Option<Vec<bool>>, NoMemory>
    requires tree { IsTree binding.now.scope.now.game.now.nodes }
    requires asked { IsNodeSet (tree_in binding.now.scope.now) live.now }
    ensures { IfOk result (λ there. IfSome there (λ truths. (n : ℕ) → (set : ℕ) × (is_live live.now n ≡ true
        → is_in set ≡ spec.has (shown binding.now.squares.now n)) × (get_or truths.items n false
        ≡ (is_live live.now n && move_to_set_matches (tree_in binding.now.scope.now) parts.now set n)))) }
{
    let sets = sets_of(alloc, live, binding.squares)?;
    let truths = moves_to(alloc, binding.scope, parts, &sets, live)?;
    Ok(Some(truths))
}
