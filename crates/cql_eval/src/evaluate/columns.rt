//! The columns of forms of filters, from their own contents and the columns of their parts.
ghost use Rattle.std.specs.Prelude.{◌≡◌, ℕ, ◌&&◌, Bool, List, not, true, Some, is_some, option_map, IfOk};
ghost use Rattle.cq_position.specs.Games.{IsTree, node_at};
ghost use Rattle.cql_syntax.specs.Meaning as meaning;
ghost use Rattle.cql_syntax.specs.Values as spec;
ghost use Rattle.cql_values.specs.FilterValues.{unary_result};
ghost use Rattle.cql_columns.specs.Columns.{IsNodeSet, IsColumn, is_live, shown, all_shown, terms_shown};
ghost use Rattle.cql_columns.specs.Scopes.{tree_in};
ghost use Rattle.cql_operators.specs.OtherNodes.{is_from_other_nodes, CoverSourceNodes};
ghost use Rattle.cql_candidates.specs.MoveTargets.{move_matches};

use cq_common::NoMemory;
use cq_geometry::Compass;
use cql_candidates::moves::{PartColumns, matching_moves};
use cql_columns::filter_column::FilterColumn;
use cql_columns::scope::Scope;
use cql_columns::standing_squares::standing_sets;
use cql_operators::combine::{
    any_values, chain_values, if_truths, negated_truths, numbered, pair_column, reached_values,
    sum_values, unary_values,
};
use cql_operators::from_other_nodes::nodes_that_find;
use cql_operators::narrow::narrowed;
use cql_operators::words::word_values;
use cql_syntax::{Chain, Designator, Kind, Pair, Plain, Unary};
use std::alloc::Global;

/// The squares of a designator on which its men are.
pub(super) fn standing_column(
    alloc: Global,
    d: &Designator,
    scope: &Scope,
    live: &[bool],
) -> Result<FilterColumn, NoMemory>
    requires asked { IsNodeSet (tree_in scope.now) live.now }
    ensures { IfOk result (λ c. IsColumn c live.now
        (λ n. meaning.standing_of (node_at scope.now.game.now.nodes n).position.men (Some d.now))) }
{
    let sets = standing_sets(alloc, d, scope, live)?;
    Ok(FilterColumn::Sets(sets))
}

/// The values of a word.
pub(super) fn word_column(
    alloc: Global,
    word: Plain,
    scope: &Scope,
    live: &[bool],
) -> Result<FilterColumn, NoMemory>
    requires tree { IsTree scope.now.game.now.nodes }
    requires asked { IsNodeSet (tree_in scope.now) live.now }
    ensures { IfOk result (λ c. IsColumn c live.now (meaning.word_of (tree_in scope.now) word)) }
{
    let values = word_values(alloc, word, scope, live)?;
    Ok(FilterColumn::Values(values))
}

/// The values of a word that evaluates its part at the node itself.
pub(super) fn here_column(
    alloc: Global,
    word: Unary,
    scope: &Scope,
    column: FilterColumn,
    live: &[bool],
) -> Result<FilterColumn, NoMemory>
    requires asked { IsNodeSet (tree_in scope.now) live.now }
    ensures { IfOk result (λ c. IsColumn c live.now
        (λ n. unary_result (node_at scope.now.game.now.nodes n).position.men word (shown column n))) }
{
    match word {
        Unary::Not => negated_column(alloc, column, live),
        _ => unary_values_column(alloc, word, scope, column, live),
    }
}

fn unary_values_column(
    alloc: Global,
    word: Unary,
    scope: &Scope,
    column: FilterColumn,
    live: &[bool],
) -> Result<FilterColumn, NoMemory>
    requires asked { IsNodeSet (tree_in scope.now) live.now }
    ensures { IfOk result (λ c. IsColumn c live.now
        (λ n. unary_result (node_at scope.now.game.now.nodes n).position.men word (shown column n))) }
{
    let values = unary_values(alloc, word, scope, &column, live);
    drop(column);
    Ok(FilterColumn::Values(values?))
}

/// The values of a word that evaluates its part at other nodes, from the column of the part at these nodes.
pub(super) fn found_column(
    alloc: Global,
    word: Unary,
    scope: &Scope,
    wide: &[bool],
    column: FilterColumn,
) -> Result<FilterColumn, NoMemory>
    requires tree { IsTree scope.now.game.now.nodes }
    requires asked { IsNodeSet (tree_in scope.now) wide.now }
    requires word { is_from_other_nodes word ≡ true }
    ensures { IfOk result (λ c. (v : ℕ → spec.Value) → IsColumn column wide.now v
        → (live : List Bool) → IsNodeSet (tree_in scope.now) live → CoverSourceNodes (tree_in scope.now) word live wide.now
        → IsColumn c live (meaning.unary_of (tree_in scope.now) word v)) }
{
    let set = narrowed(alloc, wide, &column, true)?;
    drop(column);
    let found = nodes_that_find(alloc, word, scope.game, set)?;
    Ok(FilterColumn::Truths(found))
}

/// The truth that the move to a node meets the columns of its parts.
pub(super) fn met_column(
    alloc: Global,
    scope: &Scope,
    parts: PartColumns,
    goal: Option<FilterColumn>,
    live: &[bool],
) -> Result<FilterColumn, NoMemory>
    requires tree { IsTree scope.now.game.now.nodes }
    requires asked { IsNodeSet (tree_in scope.now) live.now }
    ensures { IfOk result (λ c. (n : ℕ) → shown c n ≡ spec.as_truth
        (is_live live.now n && move_matches (tree_in scope.now) parts (option_map (λ c. shown c n) goal) n)) }
{
    let truths = matching_moves(alloc, scope, &parts, &goal, live);
    drop(parts);
    drop(goal);
    Ok(FilterColumn::Truths(truths?))
}

/// The truth that a column doesn't hold.
pub(super) fn negated_column(
    alloc: Global,
    column: FilterColumn,
    live: &[bool],
) -> Result<FilterColumn, NoMemory>
    ensures { IfOk result (λ c. IsColumn c live.now (λ n. spec.as_truth (not (spec.holds (shown column n))))) }
{
    let truths = negated_truths(alloc, &column, live);
    drop(column);
    Ok(FilterColumn::Truths(truths?))
}

/// The truth that a column has a number.
pub(super) fn numbered_column(
    alloc: Global,
    column: FilterColumn,
    live: &[bool],
) -> Result<FilterColumn, NoMemory>
    ensures { IfOk result (λ c. IsColumn c live.now (λ n. spec.as_truth (is_some (spec.amount (shown column n))))) }
{
    let truths = numbered(alloc, &column, live);
    drop(column);
    Ok(FilterColumn::Truths(truths?))
}

/// The truth that the second column holds if the first does, and the third if not.
pub(super) fn chosen_column(
    alloc: Global,
    first: FilterColumn,
    second: FilterColumn,
    third: FilterColumn,
    live: &[bool],
) -> Result<FilterColumn, NoMemory>
    ensures { IfOk result (λ c. IsColumn c live.now
        (λ n. spec.if_of (shown first n) (shown second n) (shown third n))) }
{
    let truths = if_truths(alloc, &first, &second, &third, live);
    drop(first);
    drop(second);
    drop(third);
    Ok(FilterColumn::Truths(truths?))
}

/// The values of a filter of two parts, from their columns.
pub(super) fn paired_column(
    alloc: Global,
    pair: Pair,
    scope: &Scope,
    first: FilterColumn,
    second: FilterColumn,
    live: &[bool],
) -> Result<FilterColumn, NoMemory>
    requires asked { IsNodeSet (tree_in scope.now) live.now }
    ensures { IfOk result (λ c. IsColumn c live.now
        (λ n. spec.pair_of (node_at scope.now.game.now.nodes n).position.men pair (shown first n) (shown second n))) }
{
    let paired = pair_column(alloc, pair, scope, &first, &second, live);
    drop(first);
    drop(second);
    paired
}

/// The squares in some directions from those of a column.
pub(super) fn reached_column(
    alloc: Global,
    directions: &[Compass],
    least: u32,
    most: u32,
    column: FilterColumn,
    live: &[bool],
) -> Result<FilterColumn, NoMemory>
    ensures { IfOk result (λ c. IsColumn c live.now
        (λ n. spec.reached_of directions.now least most (shown column n))) }
{
    let values = reached_values(alloc, directions, least, most, &column, live);
    drop(column);
    Ok(FilterColumn::Values(values?))
}

/// The values of a filter of any number of parts, from their columns.
pub(super) fn chain_values_column(
    alloc: Global,
    chain: Chain,
    columns: Vec<FilterColumn>,
    live: &[bool],
) -> Result<FilterColumn, NoMemory>
    ensures { IfOk result (λ c. IsColumn c live.now (λ n. spec.chain_of chain (all_shown columns.items n))) }
{
    let values = chain_values(alloc, chain, columns.as_slice(), live);
    drop(columns);
    Ok(FilterColumn::Values(values?))
}

/// The values of a family of filters of a kind, from their columns.
pub(super) fn any_values_column(
    alloc: Global,
    kind: Kind,
    columns: Vec<FilterColumn>,
    live: &[bool],
) -> Result<FilterColumn, NoMemory>
    ensures { IfOk result (λ c. IsColumn c live.now (λ n. spec.any_of kind (all_shown columns.items n))) }
{
    let values = any_values(alloc, kind, columns.as_slice(), live);
    drop(columns);
    Ok(FilterColumn::Values(values?))
}

/// The sum of columns, some of which are subtracted.
pub(super) fn sum_column(
    alloc: Global,
    terms: Vec<(bool, FilterColumn)>,
    live: &[bool],
) -> Result<FilterColumn, NoMemory>
    ensures { IfOk result (λ c. IsColumn c live.now (λ n. spec.total_of (terms_shown terms.items n))) }
{
    let values = sum_values(alloc, terms.as_slice(), live);
    drop(terms);
    Ok(FilterColumn::Values(values?))
}
