//! Columns made of the columns of parts.
ghost use Rattle.std.specs.Prelude.{◌≡◌, ℕ, List, ◌<◌, ◌&&◌, length, map, true, not, IfOk, OnOk};
ghost use Rattle.cq_position.specs.Games.{node_at};
ghost use Rattle.cq_position.specs.declared.men.Man.{Man};
ghost use Rattle.cq_symmetry.specs.Images.{is_in};
ghost use Rattle.cql_syntax.specs.Values as spec;
ghost use Rattle.cql_values.specs.FilterValues.{unary_result, is_true};
ghost use Rattle.cql_values.specs.ValueModel.{as_value, terms_as_values};
ghost use Rattle.cql_columns.specs.Columns.{IsNodeSet, AreSets, AreTruths, AreValues, IsColumn, IsNumbered, shown, all_shown, terms_shown};
ghost use Rattle.cql_columns.specs.Scopes.{tree_in};

use crate::narrow::has_number;
use cq_common::NoMemory;
use cq_geometry::Compass;
use cql_columns::filter_column::{FilterColumn, blank_sets, blank_truths, blank_values};
use cql_columns::scope::Scope;
use cql_columns::spans::{first_live, first_live_node, live_end, live_node_end};
use cql_syntax::{Chain, Kind, Pair, Unary};
use cql_values::combine::{any_of, chain_of, compares, if_of, related, unary_of_value};
use cql_values::numbers::total;
use cql_values::sets::reached;
use cql_values::value::Value;
use pgn_tree::Game;
use std::alloc::Global;

/// Returns, for each live node, true if the column doesn't hold there.
///
/// # Errors
///
/// `NoMemory` if out of memory.
pub fn negated_truths(
    alloc: Global,
    column: &FilterColumn,
    live: &[bool],
) -> Result<Vec<bool>, NoMemory>
    ensures { IfOk result (λ truths. AreTruths truths.items live.now (λ n. spec.as_truth (not (spec.holds (shown column.now n))))) }
{
    let end = live_end(live);
    let mut truths = blank_truths(alloc, end)?;
    for n in first_live(live)..end {
        truths[n] = fails(live[n], column, n);
    }
    Ok(truths)
}

fn fails(asked: bool, column: &FilterColumn, n: usize) -> bool
    ensures { result ≡ (asked && not (spec.holds (shown column.now n))) }
{
    asked && !column.at(n).holds()
}

/// Returns, for each live node, true if the column holds there.
///
/// # Errors
///
/// `NoMemory` if out of memory.
pub fn held(alloc: Global, column: &FilterColumn, live: &[bool]) -> Result<Vec<bool>, NoMemory>
    ensures { IfOk result (λ truths. AreTruths truths.items live.now (λ n. spec.as_truth (spec.holds (shown column.now n)))) }
{
    let end = live_end(live);
    let mut truths = blank_truths(alloc, end)?;
    for n in first_live(live)..end {
        truths[n] = holds_at(live[n], column, n);
    }
    Ok(truths)
}

fn holds_at(asked: bool, column: &FilterColumn, n: usize) -> bool
    ensures { result ≡ (asked && spec.holds (shown column.now n)) }
{
    asked && column.at(n).holds()
}

/// Returns the nodes of a set at which a column has a number.
///
/// # Errors
///
/// `NoMemory` if out of memory.
pub fn numbered(alloc: Global, column: &FilterColumn, live: &[bool]) -> Result<Vec<bool>, NoMemory>
    ensures { IfOk result (λ left. IsNumbered live.now column.now left.items) }
{
    let mut left = blank_truths(alloc, live.len())?;
    for n in 0..live.len() {
        left[n] = has_number(live[n], column, n);
    }
    Ok(left)
}

/// Returns the truths of the second column where the first holds, else those of the third.
///
/// # Errors
///
/// `NoMemory` if out of memory.
pub fn if_truths(
    alloc: Global,
    first: &FilterColumn,
    second: &FilterColumn,
    third: &FilterColumn,
    live: &[bool],
) -> Result<Vec<bool>, NoMemory>
    ensures { IfOk result (λ truths. AreTruths truths.items live.now
        (λ n. spec.if_of (shown first.now n) (shown second.now n) (shown third.now n))) }
{
    let end = live_end(live);
    let mut truths = blank_truths(alloc, end)?;
    for n in first_live(live)..end {
        truths[n] = is_chosen(first, second, third, n);
    }
    Ok(truths)
}

fn is_chosen(first: &FilterColumn, second: &FilterColumn, third: &FilterColumn, n: usize) -> bool
    ensures { result ≡ spec.holds (spec.if_of (shown first.now n) (shown second.now n) (shown third.now n)) }
{
    if_of(first.at(n), second.at(n), third.at(n)).holds()
}

/// Returns the values of a word or mark, by the column of its part. For a word that searches other nodes the result is that of `not`.
///
/// # Errors
///
/// `NoMemory` if out of memory.
pub fn unary_values(
    alloc: Global,
    word: Unary,
    scope: &Scope,
    column: &FilterColumn,
    live: &[bool],
) -> Result<Vec<Value>, NoMemory>
    requires asked { IsNodeSet (tree_in scope.now) live.now }
    ensures { IfOk result (λ values. AreValues values.items live.now
        (λ n. unary_result (node_at scope.now.game.now.nodes n).position.men word (shown column.now n))) }
{
    let end = live_node_end(live, scope.game.len());
    let mut values = blank_values(alloc, end as usize)?;
    for n in first_live_node(live, scope.game.len())..end {
        values[n as usize] = unary_value(live[n as usize], word, scope.game, column, n);
    }
    Ok(values)
}

fn unary_value(asked: bool, word: Unary, game: &Game, column: &FilterColumn, n: u32) -> Value
    requires { n < length game.now.nodes }
    ensures { asked ≡ true → as_value result ≡ unary_result (node_at game.now.nodes n).position.men word (shown column.now n) }
{
    if asked {
        unary_of_value(word, game.position(n), column.at(n as usize))
    } else {
        Value::Truth(false)
    }
}

/// Returns the squares reached by `least` to `most` steps from those of a column.
///
/// # Errors
///
/// `NoMemory` if out of memory.
pub fn reached_values(
    alloc: Global,
    directions: &[Compass],
    least: u32,
    most: u32,
    column: &FilterColumn,
    live: &[bool],
) -> Result<Vec<Value>, NoMemory>
    ensures { IfOk result (λ values. AreValues values.items live.now
        (λ n. spec.reached_of directions.now least most (shown column.now n))) }
{
    let end = live_end(live);
    let mut values = blank_values(alloc, end)?;
    for n in first_live(live)..end {
        values[n] = reached_value(live[n], directions, least, most, column.at(n));
    }
    Ok(values)
}

fn reached_value(asked: bool, directions: &[Compass], least: u32, most: u32, value: Value) -> Value
    ensures { asked ≡ true → as_value result ≡ spec.reached_of directions.now least most (as_value value) }
{
    if asked {
        reached(directions, least, most, value)
    } else {
        Value::Truth(false)
    }
}

/// Returns the column of a filter of two parts: squares of attacks or between two sets, or truths of a comparison.
///
/// # Errors
///
/// `NoMemory` if out of memory.
pub fn pair_column(
    alloc: Global,
    pair: Pair,
    scope: &Scope,
    first: &FilterColumn,
    second: &FilterColumn,
    live: &[bool],
) -> Result<FilterColumn, NoMemory>
    requires asked { IsNodeSet (tree_in scope.now) live.now }
    ensures { IfOk result (λ c. IsColumn c live.now
        (λ n. spec.pair_of (node_at scope.now.game.now.nodes n).position.men pair (shown first.now n) (shown second.now n))) }
{
    match pair {
        Pair::Attacks | Pair::AttackedBy | Pair::Between => {
            let sets = pair_sets(alloc, pair, scope, first, second, live)?;
            Ok(FilterColumn::Sets(sets))
        }
        Pair::Less | Pair::AtMost | Pair::Equal | Pair::AtLeast | Pair::Greater => {
            let truths = pair_truths(alloc, pair, first, second, live)?;
            Ok(FilterColumn::Truths(truths))
        }
    }
}

/// Returns the squares of a filter of two parts, by the columns of the parts.
///
/// # Errors
///
/// `NoMemory` if out of memory.
pub fn pair_sets(
    alloc: Global,
    pair: Pair,
    scope: &Scope,
    first: &FilterColumn,
    second: &FilterColumn,
    live: &[bool],
) -> Result<Vec<u64>, NoMemory>
    requires asked { IsNodeSet (tree_in scope.now) live.now }
    ensures { IfOk result (λ sets. AreSets sets.items live.now (λ n. spec.as_squares (spec.has
        (spec.pair_of (node_at scope.now.game.now.nodes n).position.men pair (shown first.now n) (shown second.now n))))) }
{
    let end = live_node_end(live, scope.game.len());
    let mut sets = blank_sets(alloc, end as usize)?;
    for n in first_live_node(live, scope.game.len())..end {
        sets[n as usize] = pair_set(live[n as usize], pair, scope.game, first, second, n);
    }
    Ok(sets)
}

fn pair_set(
    asked: bool,
    pair: Pair,
    game: &Game,
    first: &FilterColumn,
    second: &FilterColumn,
    n: u32,
) -> u64
    requires { n < length game.now.nodes }
    ensures { asked ≡ true → is_in result
        ≡ spec.has (spec.pair_of (node_at game.now.nodes n).position.men pair (shown first.now n) (shown second.now n)) }
{
    if asked {
        related(
            game.position(n),
            pair,
            first.at(n as usize),
            second.at(n as usize),
        )
    } else {
        0
    }
}

fn pair_truths(
    alloc: Global,
    pair: Pair,
    first: &FilterColumn,
    second: &FilterColumn,
    live: &[bool],
) -> Result<Vec<bool>, NoMemory>
    ensures { IfOk result (λ truths. (men : ℕ → List Man) → AreTruths truths.items live.now
        (λ n. spec.as_truth (is_true (spec.pair_of (men n) pair (shown first.now n) (shown second.now n))))) }
{
    let end = live_end(live);
    let mut truths = blank_truths(alloc, end)?;
    for n in first_live(live)..end {
        truths[n] = pair_truth(live[n], pair, first, second, n);
    }
    Ok(truths)
}

fn pair_truth(
    asked: bool,
    pair: Pair,
    first: &FilterColumn,
    second: &FilterColumn,
    n: usize,
) -> bool
    ensures { asked ≡ true → (men : List Man) → result ≡ is_true (spec.pair_of men pair (shown first.now n) (shown second.now n)) }
{
    asked && compares(pair, first.at(n), second.at(n))
}

/// Returns the values of a filter of any number of parts, by the columns of the parts.
///
/// # Errors
///
/// `NoMemory` if out of memory.
pub fn chain_values(
    alloc: Global,
    chain: Chain,
    columns: &[FilterColumn],
    live: &[bool],
) -> Result<Vec<Value>, NoMemory>
    ensures { IfOk result (λ values. AreValues values.items live.now (λ n. spec.chain_of chain (all_shown columns.now n))) }
{
    let end = live_end(live);
    let mut values = blank_values(alloc, end)?;
    let mut row = Vec::with_capacity(alloc, columns.len())?;
    for n in first_live(live)..end {
        values[n] = chain_value(&mut row, live[n], chain, columns, n)?;
    }
    Ok(values)
}

fn chain_value(
    row: &mut Vec<Value>,
    asked: bool,
    chain: Chain,
    columns: &[FilterColumn],
    n: usize,
) -> Result<Value, NoMemory>
    ensures { IfOk result (λ value. asked ≡ true → as_value value ≡ spec.chain_of chain (all_shown columns.now n)) }
{
    if !asked {
        return Ok(Value::Truth(false));
    }
    put_values(row, columns, n)?;
    Ok(chain_of(chain, row.as_slice()))
}

/// Returns the values of any of some filters of a kind, by their columns.
///
/// # Errors
///
/// `NoMemory` if out of memory.
pub fn any_values(
    alloc: Global,
    kind: Kind,
    columns: &[FilterColumn],
    live: &[bool],
) -> Result<Vec<Value>, NoMemory>
    ensures { IfOk result (λ values. AreValues values.items live.now (λ n. spec.any_of kind (all_shown columns.now n))) }
{
    let end = live_end(live);
    let mut values = blank_values(alloc, end)?;
    let mut row = Vec::with_capacity(alloc, columns.len())?;
    for n in first_live(live)..end {
        values[n] = any_value(&mut row, live[n], kind, columns, n)?;
    }
    Ok(values)
}

fn any_value(
    row: &mut Vec<Value>,
    asked: bool,
    kind: Kind,
    columns: &[FilterColumn],
    n: usize,
) -> Result<Value, NoMemory>
    ensures { IfOk result (λ value. asked ≡ true → as_value value ≡ spec.any_of kind (all_shown columns.now n)) }
{
    if !asked {
        return Ok(Value::Truth(false));
    }
    put_values(row, columns, n)?;
    Ok(any_of(kind, row.as_slice()))
}

// Replaces a row by the values of columns at a node.
fn put_values(row: &mut Vec<Value>, columns: &[FilterColumn], n: usize) -> Result<(), NoMemory>
    ensures { OnOk result (map as_value row.new.items ≡ all_shown columns.now n) }
{
    row.clear();
    for column in columns {
        row.push(column.at(n))?;
    }
    Ok(())
}

/// Returns the sums of columns. A column is subtracted if its flag is true, else added.
///
/// # Errors
///
/// `NoMemory` if out of memory.
pub fn sum_values(
    alloc: Global,
    terms: &[(bool, FilterColumn)],
    live: &[bool],
) -> Result<Vec<Value>, NoMemory>
    ensures { IfOk result (λ values. AreValues values.items live.now (λ n. spec.total_of (terms_shown terms.now n))) }
{
    let end = live_end(live);
    let mut values = blank_values(alloc, end)?;
    let mut row = Vec::with_capacity(alloc, terms.len())?;
    for n in first_live(live)..end {
        values[n] = sum_value(&mut row, live[n], terms, n)?;
    }
    Ok(values)
}

fn sum_value(
    row: &mut Vec<(bool, Value)>,
    asked: bool,
    terms: &[(bool, FilterColumn)],
    n: usize,
) -> Result<Value, NoMemory>
    ensures { IfOk result (λ value. asked ≡ true → as_value value ≡ spec.total_of (terms_shown terms.now n)) }
{
    if !asked {
        return Ok(Value::Truth(false));
    }
    put_terms(row, terms, n)?;
    Ok(total(row.as_slice()))
}

// Replaces a row by the values of terms at a node.
fn put_terms(
    row: &mut Vec<(bool, Value)>,
    terms: &[(bool, FilterColumn)],
    n: usize,
) -> Result<(), NoMemory>
    ensures { OnOk result (terms_as_values row.new.items ≡ terms_shown terms.now n) }
{
    row.clear();
    for term in terms {
        row.push((term.0, term.1.at(n)))?;
    }
    Ok(())
}
