//! The column of a filter, by recursion on the filter.
ghost use Rattle.std.specs.Prelude.{◌≡◌, ℕ, ◌<◌, ◌≤◌, ◌+◌, ◌*◌, ◌∷◌, length, true, false, get_or, not, option_map, IfOk, if◌then◌else◌};
ghost use Rattle.std.specs.List.{list_any, range_with_len};
ghost use Rattle.cq_position.specs.Games.{IsTree};
ghost use Rattle.cql_syntax.specs.Meaning as meaning;
ghost use Rattle.cql_syntax.specs.TreeOf.{filter_tree, filters_tree, terms_tree, played_tree, written_tree, line_tree};
ghost use Rattle.cql_syntax.specs.Values as spec;
ghost use Rattle.cql_columns.specs.SquareTrials.{AreUnsettled};
ghost use Rattle.cql_columns.specs.Columns.{IsNodeSet, AreTruths, IsColumn, Where, is_as_wanted, shown, all_shown, terms_shown};
ghost use Rattle.cql_columns.specs.Costs.{filter_cost, filters_cost, terms_cost, played_cost, written_cost, line_cost, searched_len};
ghost use Rattle.cql_columns.specs.FlatTrees.{IsFlat, AreFlat, AreFlatTerms, IsFlatMove, IsFlatPart, IsFlatLine};
ghost use Rattle.cql_columns.specs.Scopes.{tree_in, value_in, values_in};

mod chains;
mod columns;
mod cover_moves;
mod cover_some;
mod cover_squares;
mod covers;
mod goals;
mod lines;
mod played;
mod squares;
mod trial;

pub(crate) use chains::left_by;
use chains::{columns_of, some_column, terms_of};
use columns::{
    any_values_column, chain_values_column, chosen_column, found_column, here_column,
    numbered_column, paired_column, reached_column, standing_column, sum_column, word_column,
};
use cq_common::{NoMemory, Steps};
use cql_candidates::order::COST_CLASSES;
use cql_columns::binding::Binding;
use cql_columns::filter_column::FilterColumn;
use cql_columns::nodes::any_live;
use cql_columns::scope::Scope;
use cql_operators::from_other_nodes::{reads_other_nodes, source_nodes};
use cql_operators::narrow::part_of;
use cql_syntax::{Chain, Filter, Filters, Form, Kind, Unary};
use cql_values::headers::{has_text, is_result, rating};
use cql_values::numbers::count_value;
use cql_values::value::Value;
use cql_values::words::directions;
use lines::line_column;
use played::played_column;
use squares::square_filter_truths;
use std::alloc::Global;
use std::sync::ledger::Ledger;

/// The values of a filter at each live node, with squares bound to names. With no live node nothing is looked at.
#[cycle(evaluate)]
#[tactic(auto, unfolding(cql_syntax::specs::Meaning::value, cql_syntax::specs::Contexts::designator_image, cql_columns::specs::Costs::filter_cost, cql_columns::specs::FlatTrees::unflat))]
pub(crate) fn evaluate<L: Ledger>(
    alloc: Global,
    f: &Filter,
    scope: &Scope,
    live: &[bool],
    steps: &mut Steps<L>,
) -> Result<FilterColumn, NoMemory>
    requires tree { IsTree scope.now.game.now.nodes }
    requires asked { IsNodeSet (tree_in scope.now) live.now }
    requires flat { IsFlat (filter_tree f.now) }
    ensures value { IfOk result (λ c. IsColumn c live.now
        (value_in scope.now (filter_tree f.now))) }
    ensures cost { steps.new ≤ steps.old + filter_cost (searched_len (tree_in scope.now)) (filter_tree f.now) }
    ensures rises { steps.old ≤ steps.new }
{
    if !any_live(live) {
        return Ok(FilterColumn::Constant(Value::Truth(false)));
    }
    match &f.form {
        Form::Squares(d) => standing_column(alloc, d, scope, live),
        Form::Number(number) => Ok(FilterColumn::Constant(count_value(*number))),
        Form::Name(name) => Ok(FilterColumn::Constant(scope.names.squares_of(name.as_slice()))),
        Form::Plain(word) => word_column(alloc, *word, scope, live),
        Form::Tagged(field, text) => {
            let holds = has_text(scope.game, *field, text.as_slice());
            Ok(FilterColumn::Constant(Value::Truth(holds)))
        }
        Form::Outcome(outcome) => {
            let holds = is_result(*outcome, scope.game.result());
            Ok(FilterColumn::Constant(Value::Truth(holds)))
        }
        Form::Elo(of) => Ok(FilterColumn::Constant(Value::Number(rating(scope.game, *of)))),
        Form::Unary(word, part) => { unary_column(alloc, *word, part, scope, live, steps) }
        Form::Steps(way, m, n, part) => {
            let column = evaluate(alloc, part, scope, live, steps)?;
            reached_column(alloc, directions(*way), *m, *n, column, live)
        }
        Form::Chain(chain, parts) => { chain_column(alloc, *chain, parts, scope, live, steps) }
        Form::Sum(terms) => {
            let columns = terms_of(alloc, terms, scope, live, steps)?;
            sum_column(alloc, columns, live)
        }
        Form::Pair(pair, first, second) => {
            let first = evaluate(alloc, first, scope, live, steps)?;
            let second = evaluate(alloc, second, scope, live, steps)?;
            paired_column(alloc, *pair, scope, first, second, live)
        }
        Form::If(condition, then, otherwise) => {
            let first = evaluate(alloc, condition, scope, live, steps)?;
            let second = column_where(alloc, true, &first, then, scope, live, steps)?;
            let third = column_where(alloc, false, &first, otherwise, scope, live, steps)?;
            chosen_column(alloc, first, second, third, live)
        }
        Form::Square(every, name, squares, asked) => {
            let squares = evaluate(alloc, squares, scope, live, steps)?;
            let binding = Binding {
                scope: &*scope,
                every: *every,
                name: name.as_slice(),
                squares: &squares,
            };
            let truths = square_filter_truths(alloc, &binding, asked, live, steps);
            drop(squares);
            Ok(FilterColumn::Truths(truths?))
        }
        Form::Played(played) => played_column(alloc, played, scope, live, steps),
        Form::Sort(.., part) => {
            let column = evaluate(alloc, part, scope, live, steps)?;
            numbered_column(alloc, column, live)
        }
        Form::Comment(_) => Ok(FilterColumn::Constant(Value::Truth(true))),
        Form::Any(kind, parts) => { any_column(alloc, *kind, parts, scope, live, steps) }
        Form::Line(line) => line_column(alloc, line, scope, live, steps),
        // No family is in a flat query.
        Form::Transform(..) => Ok(FilterColumn::Constant(Value::Truth(false))),
    }
}

// The values of a part at the nodes at which a column holds or, if not `want`, doesn't hold. It is not evaluated at others.
#[cycle(evaluate)]
fn column_where<L: Ledger>(
    alloc: Global,
    want: bool,
    first: &FilterColumn,
    part: &Filter,
    scope: &Scope,
    live: &[bool],
    steps: &mut Steps<L>,
) -> Result<FilterColumn, NoMemory>
    requires tree { IsTree scope.now.game.now.nodes }
    requires asked { IsNodeSet (tree_in scope.now) live.now }
    requires flat { IsFlat (filter_tree part.now) }
    ensures value { IfOk result (λ c. Where live.now (λ n. is_as_wanted want (spec.holds (shown first.now n)) ≡ true
        → shown c n ≡ value_in scope.now (filter_tree part.now) n)) }
    ensures cost { steps.new ≤ steps.old + filter_cost (searched_len (tree_in scope.now)) (filter_tree part.now) }
    ensures rises { steps.old ≤ steps.new }
{
    let there = part_of(alloc, scope, live, first, want)?;
    evaluate(alloc, part, scope, &there, steps)
}

/// The values of a filter of a word or mark and a part. Some words evaluate their part at other nodes.
#[cycle(evaluate)]
fn unary_column<L: Ledger>(
    alloc: Global,
    word: Unary,
    part: &Filter,
    scope: &Scope,
    live: &[bool],
    steps: &mut Steps<L>,
) -> Result<FilterColumn, NoMemory>
    requires tree { IsTree scope.now.game.now.nodes }
    requires asked { IsNodeSet (tree_in scope.now) live.now }
    requires flat { IsFlat (filter_tree part.now) }
    ensures value { IfOk result (λ c. IsColumn c live.now (meaning.unary_of (tree_in scope.now) word
        (value_in scope.now (filter_tree part.now)))) }
    ensures cost { steps.new ≤ steps.old + filter_cost (searched_len (tree_in scope.now)) (filter_tree part.now) }
    ensures rises { steps.old ≤ steps.new }
{
    if reads_other_nodes(word) {
        let wide = source_nodes(alloc, word, scope, live)?;
        let wide = wide.as_slice();
        let column = evaluate(alloc, part, scope, wide, steps)?;
        return found_column(alloc, word, scope, wide, column);
    }
    let column = evaluate(alloc, part, scope, live, steps)?;
    here_column(alloc, word, scope, column, live)
}

/// The values of a filter of any number of parts.
#[cycle(evaluate)]
fn chain_column<L: Ledger>(
    alloc: Global,
    chain: Chain,
    parts: &Filters,
    scope: &Scope,
    live: &[bool],
    steps: &mut Steps<L>,
) -> Result<FilterColumn, NoMemory>
    requires tree { IsTree scope.now.game.now.nodes }
    requires asked { IsNodeSet (tree_in scope.now) live.now }
    requires flat { AreFlat (filters_tree parts.now) }
    ensures value { IfOk result (λ c. IsColumn c live.now
        (λ n. spec.chain_of chain (values_in scope.now (filters_tree parts.now) n))) }
    ensures cost { steps.new ≤ steps.old + filters_cost (searched_len (tree_in scope.now)) (filters_tree parts.now) }
    ensures rises { steps.old ≤ steps.new }
{
    match chain {
        Chain::And | Chain::All => {
            let left = left_by(alloc, COST_CLASSES, true, parts, scope, live, steps)?;
            Ok(FilterColumn::Truths(left))
        }
        Chain::Or => some_column(alloc, parts, scope, live, steps),
        _ => {
            let columns = columns_of(alloc, parts, scope, live, steps)?;
            chain_values_column(alloc, chain, columns, live)
        }
    }
}

/// The values of a family of filters of a kind.
#[cycle(evaluate)]
fn any_column<L: Ledger>(
    alloc: Global,
    kind: Kind,
    parts: &Filters,
    scope: &Scope,
    live: &[bool],
    steps: &mut Steps<L>,
) -> Result<FilterColumn, NoMemory>
    requires tree { IsTree scope.now.game.now.nodes }
    requires asked { IsNodeSet (tree_in scope.now) live.now }
    requires flat { AreFlat (filters_tree parts.now) }
    ensures value { IfOk result (λ c. IsColumn c live.now
        (λ n. spec.any_of kind (values_in scope.now (filters_tree parts.now) n))) }
    ensures cost { steps.new ≤ steps.old + filters_cost (searched_len (tree_in scope.now)) (filters_tree parts.now) }
    ensures rises { steps.old ≤ steps.new }
{
    match kind {
        Kind::Position => some_column(alloc, parts, scope, live, steps),
        _ => {
            let columns = columns_of(alloc, parts, scope, live, steps)?;
            any_values_column(alloc, kind, columns, live)
        }
    }
}
