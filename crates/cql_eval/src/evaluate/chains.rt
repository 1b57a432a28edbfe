//! The columns of the parts of a filter.
ghost use Rattle.std.specs.Prelude.{◌≡◌, ℕ, ◌≤◌, ◌+◌, [], length, true, false, IfOk, OnOk};
ghost use Rattle.cq_position.specs.Games.{IsTree};
ghost use Rattle.cql_syntax.specs.Meaning as meaning;
ghost use Rattle.cql_syntax.specs.TreeOf.{filter_tree, filters_tree, filters_in, terms_tree};
ghost use Rattle.cql_syntax.specs.Values as spec;
ghost use Rattle.cql_columns.specs.Columns.{IsNodeSet, IsColumn, Where, all_shown, terms_shown};
ghost use Rattle.cql_columns.specs.Costs.{filters_cost, terms_cost, searched_len};
ghost use Rattle.cql_columns.specs.FlatTrees.{IsFlat, AreFlat, AreFlatTerms};
ghost use Rattle.cql_columns.specs.Scopes.{tree_in, values_in};
ghost use Rattle.cql_candidates.specs.Classes.{is_of, is_before, is_as_wanted_if, are_as_wanted, cost_if, cost_of, CoverClasses, IsLeft};
ghost use Rattle.cql_candidates.specs.Occupancy.{AreOccupancies};

use super::columns::negated_column;
use super::evaluate;
use cq_common::{NoMemory, Steps};
use cql_candidates::by_occupancy::{conjuncts, occupancy_column};
use cql_candidates::ever_standing::{ImageScope, fails_everywhere, occupancies_of};
use cql_candidates::order::{COST_CLASSES, classes_of, is_of_class, may_have};
use cql_columns::filter_column::FilterColumn;
use cql_columns::nodes::same;
use cql_columns::scope::Scope;
use cql_operators::narrow::narrow;
use cql_syntax::{Filter, Filters, Terms};
use std::alloc::Global;
use std::sync::ledger::Ledger;

/// The truth that some of several filters holds, at each node.
#[cycle(evaluate)]
pub(super) fn some_column<L: Ledger>(
    alloc: Global,
    filters: &Filters,
    scope: &Scope,
    live: &[bool],
    steps: &mut Steps<L>,
) -> Result<FilterColumn, NoMemory>
    requires tree { IsTree scope.now.game.now.nodes }
    requires asked { IsNodeSet (tree_in scope.now) live.now }
    requires flat { AreFlat (filters_tree filters.now) }
    ensures value { IfOk result (λ c. IsColumn c live.now
        (λ n. spec.some_holds (values_in scope.now (filters_tree filters.now) n))) }
    ensures cost { steps.new ≤ steps.old + filters_cost (searched_len (tree_in scope.now)) (filters_tree filters.now) }
    ensures rises { steps.old ≤ steps.new }
{
    let fails = left_by(alloc, COST_CLASSES, false, filters, scope, live, steps)?;
    negated_column(alloc, FilterColumn::Truths(fails), live)
}

/// The nodes of a set at which each filter of a class before `past` holds or, if not `want`, doesn't. The filters are evaluated class by
/// class, each at the nodes that those before it leave open.
#[cycle(evaluate)]
pub(crate) fn left_by<L: Ledger>(
    alloc: Global,
    past: u32,
    want: bool,
    filters: &Filters,
    scope: &Scope,
    live: &[bool],
    steps: &mut Steps<L>,
) -> Result<Vec<bool>, NoMemory>
    requires tree { IsTree scope.now.game.now.nodes }
    requires asked { IsNodeSet (tree_in scope.now) live.now }
    requires flat { AreFlat (filters_tree filters.now) }
    ensures left { IfOk result (λ left. IsLeft (tree_in scope.now) live.now
        (are_as_wanted (is_before past) (tree_in scope.now) scope.now.names.now want (filters_tree filters.now)) left.items) }
    ensures cost { steps.new ≤ steps.old
        + cost_of (is_before past) (searched_len (tree_in scope.now)) (filters_tree filters.now) }
    ensures rises { steps.old ≤ steps.new }
{
    let occupancies = occupancies_of(alloc, want, filters, scope, live)?;
    let occupancies = occupancies.as_slice();
    let all = filters.as_slice();
    let classes = classes_of(all);
    let image_scope = ImageScope {
        want,
        occupancies,
        classes,
    };
    let mut left = same(alloc, live)?;
    for class in 0..past {
        narrow_by_class(alloc, class, &image_scope, filters, scope, &mut left, steps)?;
    }
    Ok(left)
}

// Removes the nodes of a set at which a filter of a class is not as wanted.
#[cycle(evaluate)]
fn narrow_by_class<L: Ledger>(
    alloc: Global,
    class: u32,
    image_scope: &ImageScope,
    filters: &Filters,
    scope: &Scope,
    left: &mut [bool],
    steps: &mut Steps<L>,
) -> Result<(), NoMemory>
    requires tree { IsTree scope.now.game.now.nodes }
    requires asked { IsNodeSet (tree_in scope.now) left.old }
    requires occupancies { AreOccupancies (tree_in scope.now) left.old image_scope.now.occupancies.now }
    requires classes { CoverClasses image_scope.now.classes (filters_in filters.now) }
    requires flat { AreFlat (filters_tree filters.now) }
    ensures len { length left.new ≡ length left.old }
    ensures left { OnOk result (IsLeft (tree_in scope.now) left.old
        (are_as_wanted (is_of class) (tree_in scope.now) scope.now.names.now image_scope.now.want (filters_tree filters.now)) left.new) }
    ensures cost { steps.new ≤ steps.old
        + cost_of (is_of class) (searched_len (tree_in scope.now)) (filters_tree filters.now) }
    ensures rises { steps.old ≤ steps.new }
{
    if !may_have(image_scope.classes, class) {
        return Ok(());
    }
    for filter in filters.as_slice() {
        narrow_if_of_class(alloc, class, image_scope, filter, scope, left, steps)?;
    }
    Ok(())
}

// Removes such nodes for one filter, if it is of the class.
#[cycle(evaluate)]
fn narrow_if_of_class<L: Ledger>(
    alloc: Global,
    class: u32,
    image_scope: &ImageScope,
    filter: &Filter,
    scope: &Scope,
    left: &mut [bool],
    steps: &mut Steps<L>,
) -> Result<(), NoMemory>
    requires tree { IsTree scope.now.game.now.nodes }
    requires asked { IsNodeSet (tree_in scope.now) left.old }
    requires occupancies { AreOccupancies (tree_in scope.now) left.old image_scope.now.occupancies.now }
    requires flat { IsFlat (filter_tree filter.now) }
    ensures len { length left.new ≡ length left.old }
    ensures left { OnOk result (IsLeft (tree_in scope.now) left.old
        (is_as_wanted_if (is_of class) (tree_in scope.now) scope.now.names.now image_scope.now.want (filter_tree filter.now)) left.new) }
    ensures cost { steps.new ≤ steps.old
        + cost_if (is_of class) (searched_len (tree_in scope.now)) (filter_tree filter.now) }
    ensures rises { steps.old ≤ steps.new }
{
    if !is_of_class(filter, class) {
        return Ok(());
    }
    if fails_everywhere(image_scope, filter) {
        return Ok(());
    }
    let parts = conjuncts(filter);
    let told = occupancy_column(alloc, image_scope, parts, left)?;
    if let Some(column) = told {
        narrow(left, &column, image_scope.want);
        drop(column);
        return Ok(());
    }
    let column = evaluate(alloc, filter, scope, left, steps)?;
    narrow(left, &column, image_scope.want);
    drop(column);
    Ok(())
}

/// The column of each of some filters.
#[cycle(evaluate)]
#[tactic(auto, unfolding(cql_syntax::specs::Meaning::value))]
pub(super) fn columns_of<L: Ledger>(
    alloc: Global,
    filters: &Filters,
    scope: &Scope,
    live: &[bool],
    steps: &mut Steps<L>,
) -> Result<Vec<FilterColumn>, NoMemory>
    requires tree { IsTree scope.now.game.now.nodes }
    requires asked { IsNodeSet (tree_in scope.now) live.now }
    requires flat { AreFlat (filters_tree filters.now) }
    ensures value { IfOk result (λ columns. Where live.now (λ n. all_shown columns.items n
        ≡ values_in scope.now (filters_tree filters.now) n)) }
    ensures cost { steps.new ≤ steps.old + filters_cost (searched_len (tree_in scope.now)) (filters_tree filters.now) }
    ensures rises { steps.old ≤ steps.new }
{
    let mut columns = Vec::new(alloc);
    for filter in filters.as_slice() {
        let column = evaluate(alloc, filter, scope, live, steps)?;
        columns.push(column)?;
    }
    Ok(columns)
}

/// The column of each term of a sum, and a flag that is true if it is subtracted.
#[cycle(evaluate)]
#[tactic(auto, unfolding(cql_syntax::specs::Meaning::value))]
pub(super) fn terms_of<L: Ledger>(
    alloc: Global,
    terms: &Terms,
    scope: &Scope,
    live: &[bool],
    steps: &mut Steps<L>,
) -> Result<Vec<(bool, FilterColumn)>, NoMemory>
    requires tree { IsTree scope.now.game.now.nodes }
    requires asked { IsNodeSet (tree_in scope.now) live.now }
    requires flat { AreFlatTerms (terms_tree terms.now) }
    ensures value { IfOk result (λ columns. Where live.now (λ n. terms_shown columns.items n
        ≡ meaning.term_values (tree_in scope.now) [] scope.now.names.now (terms_tree terms.now) n)) }
    ensures cost { steps.new ≤ steps.old + terms_cost (searched_len (tree_in scope.now)) (terms_tree terms.now) }
    ensures rises { steps.old ≤ steps.new }
{
    let mut columns = Vec::new(alloc);
    for term in terms.as_slice() {
        let column = evaluate(alloc, &term.filter, scope, live, steps)?;
        columns.push((term.minus, column))?;
    }
    Ok(columns)
}
