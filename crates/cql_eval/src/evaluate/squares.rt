//! Filters on the squares of a set, one by one.
ghost use Rattle.std.specs.Prelude.{◌≡◌, ℕ, ◌≤◌, ◌+◌, ◌*◌, ◌∷◌, [], length, true, false, get_or, IfOk};
ghost use Rattle.cq_position.specs.Games.{IsTree};
ghost use Rattle.cql_syntax.specs.TreeOf.{filter_tree};
ghost use Rattle.cql_syntax.specs.Values as spec;
ghost use Rattle.cql_columns.specs.SquareTrials.{AreUnsettled, CoverSquares};
ghost use Rattle.cql_eval.specs.Internal.Bindings.{holds_with};
ghost use Rattle.cql_columns.specs.Columns.{IsNodeSet, AreTruths, shown};
ghost use Rattle.cql_columns.specs.Costs.{filter_cost, searched_len};
ghost use Rattle.cql_columns.specs.FlatTrees.{IsFlat};
ghost use Rattle.cql_columns.specs.Scopes.{tree_in};
ghost use Rattle.cql_candidates.specs.Covers.{AreWorthTrying};

use super::covers::cover;
use super::evaluate;
use super::goals::goal_truths;
use super::trial::Trial;
use crate::local::local_truths;
use cq_common::{NoMemory, Steps};
use cq_geometry::Square;
use cql_candidates::attacks::{attacked_designator, is_only_attack_test};
use cql_candidates::covers::sets_of;
use cql_candidates::independent::only_name;
use cql_columns::binding::Binding;
use cql_columns::filter_column::FilterColumn;
use cql_columns::nodes::{any_live, same};
use cql_columns::scope::Scope;
use cql_operators::attacks::attack_truths;
use cql_operators::squares::{decided, having, unsettled, wanted_squares};
use cql_syntax::Filter;
use cql_values::names::Names;
use cql_values::sets::has_square;
use std::alloc::Global;
use std::sync::ledger::Ledger;

/// The truth that a filter holds with every square of a set, or with some. A test that the move went to some square is evaluated for all
/// squares at once. Otherwise only candidate squares are tried.
#[cycle(evaluate)]
pub(super) fn square_filter_truths<L: Ledger>(
    alloc: Global,
    binding: &Binding,
    asked: &Filter,
    live: &[bool],
    steps: &mut Steps<L>,
) -> Result<Vec<bool>, NoMemory>
    requires tree { IsTree binding.now.scope.now.game.now.nodes }
    requires asked { IsNodeSet (tree_in binding.now.scope.now) live.now }
    requires flat { IsFlat (filter_tree asked.now) }
    ensures value { IfOk result (λ truths. AreTruths truths.items live.now
        (λ n. spec.square_of binding.now.every (shown binding.now.squares.now n) (holds_with binding.now (filter_tree asked.now) n))) }
    ensures cost { steps.new ≤ steps.old + 64 * filter_cost (searched_len (tree_in binding.now.scope.now)) (filter_tree asked.now) }
    ensures rises { steps.old ≤ steps.new }
{
    let every = binding.every;
    if every {
        return square_truths(alloc, binding, asked, live, steps);
    }
    // This filter is evaluated for all squares at once, so nothing is gained if some are left out.
    if is_only_attack_test(binding.name, asked) {
        return square_truths(alloc, binding, asked, live, steps);
    }
    let opened = only_name(alloc, binding.name)?;
    let at_once = goal_truths(alloc, &opened, binding, asked, live, steps)?;
    if let Some(truths) = at_once {
        return Ok(truths);
    }
    let sets = covered_sets(alloc, &opened, binding, asked, live, steps)?;
    let worth = FilterColumn::Sets(sets);
    let among = Binding {
        squares: &worth,
        ..*binding
    };
    let truths = square_truths(alloc, &among, asked, live, steps);
    drop(worth);
    truths
}

// The squares of a column with which a filter may hold.
#[cycle(evaluate)]
fn covered_sets<L: Ledger>(
    alloc: Global,
    opened: &Names,
    binding: &Binding,
    asked: &Filter,
    live: &[bool],
    steps: &mut Steps<L>,
) -> Result<Vec<u64>, NoMemory>
    requires tree { IsTree binding.now.scope.now.game.now.nodes }
    requires asked { IsNodeSet (tree_in binding.now.scope.now) live.now }
    requires flat { IsFlat (filter_tree asked.now) }
    requires opened { opened.now ≡ (binding.now.name.now, 0) ∷ [] }
    ensures worth { IfOk result (λ sets. AreWorthTrying (shown binding.now.squares.now) live.now
        (holds_with binding.now (filter_tree asked.now)) sets.items) }
    ensures cost { steps.new ≡ steps.old }
{
    let mut sets = sets_of(alloc, live, binding.squares)?;
    let trial = Trial {
        scope: binding.scope,
        opened,
        name: binding.name,
        live,
    };
    cover(alloc, &trial, asked, &mut sets, steps)?;
    Ok(sets)
}

/// The truth that a filter holds with every square of a set, or with some. It is evaluated at all nodes at once or node by node if its form
/// allows it, and square by square if not.
#[cycle(evaluate)]
fn square_truths<L: Ledger>(
    alloc: Global,
    binding: &Binding,
    asked: &Filter,
    live: &[bool],
    steps: &mut Steps<L>,
) -> Result<Vec<bool>, NoMemory>
    requires tree { IsTree binding.now.scope.now.game.now.nodes }
    requires asked { IsNodeSet (tree_in binding.now.scope.now) live.now }
    requires flat { IsFlat (filter_tree asked.now) }
    ensures value { IfOk result (λ truths. AreTruths truths.items live.now
        (λ n. spec.square_of binding.now.every (shown binding.now.squares.now n) (holds_with binding.now (filter_tree asked.now) n))) }
    ensures cost { steps.new ≤ steps.old + 64 * filter_cost (searched_len (tree_in binding.now.scope.now)) (filter_tree asked.now) }
    ensures rises { steps.old ≤ steps.new }
{
    match attacked_designator(binding.every, binding.name, asked) {
        Some(d) => return attack_truths(alloc, binding.squares, d, binding.scope, live),
        None => {}
    }
    let here = local_truths(alloc, binding, asked, live)?;
    if let Some(truths) = here {
        return Ok(truths);
    }
    let mut left = same(alloc, live)?;
    let wanted = wanted_squares(live, binding.squares);
    for number in 0..64 {
        let square = Square::new(number);
        left = square_turn(alloc, binding, square, wanted, asked, left, steps)?;
    }
    decided(alloc, binding.every, left)
}

/// The nodes that this square doesn't settle, of those that no square before it does.
#[cycle(evaluate)]
fn square_turn<L: Ledger>(
    alloc: Global,
    binding: &Binding,
    square: Square,
    wanted: u64,
    asked: &Filter,
    left: Vec<bool>,
    steps: &mut Steps<L>,
) -> Result<Vec<bool>, NoMemory>
    requires tree { IsTree binding.now.scope.now.game.now.nodes }
    requires asked { IsNodeSet (tree_in binding.now.scope.now) left.items }
    requires wanted { CoverSquares (shown binding.now.squares.now) left.items wanted }
    requires flat { IsFlat (filter_tree asked.now) }
    ensures value { IfOk result (λ later. AreUnsettled binding.now.every (shown binding.now.squares.now)
        (λ n. holds_with binding.now (filter_tree asked.now) n square) square left.items later.items) }
    ensures cost { steps.new ≤ steps.old + filter_cost (searched_len (tree_in binding.now.scope.now)) (filter_tree asked.now) }
    ensures rises { steps.old ≤ steps.new }
{
    if !has_square(wanted, square) {
        return Ok(left);
    }
    let there = having(alloc, &left, binding.squares, square)?;
    if !any_live(&there) {
        return Ok(left);
    }
    let names = binding.scope.names.with(alloc, binding.name, square)?;
    let inner = Scope {
        names: &names,
        ..*binding.scope
    };
    let column = evaluate(alloc, asked, &inner, &there, steps)?;
    let later = unsettled(binding.every, left, &there, &column);
    drop(column);
    Ok(later)
}
