//! Removal of nodes from a set, by a column.
ghost use Rattle.std.specs.Prelude.{◌≡◌, ◌&&◌, get_or, length, false, None, is_some, IfOk};
ghost use Rattle.cql_syntax.specs.Values.{holds, amount};
ghost use Rattle.cql_values.specs.ValueModel.{as_value};
ghost use Rattle.cql_values.specs.declared.value.Value.TheVariants.{Truth, Set, Number};
ghost use Rattle.cql_columns.specs.Columns.{is_as_wanted, shown, IsNodeSet, AreKept, IsNarrowed, IsNumbered, IsPart};
ghost use Rattle.cql_columns.specs.Scopes.{tree_in};

use cq_common::NoMemory;
use cql_columns::filter_column::{FilterColumn, number_at, set_at, truth_at, value_at};
use cql_columns::nodes::same;
use cql_columns::scope::Scope;
use cql_columns::spans::{first_live, live_end};
use cql_values::value::Value;
use std::alloc::Global;

/// Leaves those nodes of a set at which a column holds, or with `want` false those at which it doesn't.
pub fn narrow(left: &mut [bool], column: &FilterColumn, want: bool)
    ensures len { length left.new ≡ length left.old }
    ensures nodes { IsNarrowed left.old column.now want left.new }
{
    match column {
        FilterColumn::Truths(truths) => keep_by_truths(left, truths, want),
        FilterColumn::Sets(sets) => keep_by_sets(left, sets, want),
        FilterColumn::Numbers(numbers) => keep_by_numbers(left, numbers, want),
        FilterColumn::Values(values) => keep_by_values(left, values, want),
        FilterColumn::Constant(value) => keep_if(left, value.holds() == want),
    }
}

/// Leaves those nodes of a set at which the truth is true. After the end of the truths it is false.
pub fn keep_true(left: &mut [bool], truths: &[bool])
    ensures { AreKept (λ n. get_or truths.now n false) left.old left.new }
{
    keep_by_truths(left, truths, true);
}

fn keep_by_truths(left: &mut [bool], truths: &[bool], want: bool)
    ensures { AreKept (λ n. is_as_wanted want (holds (as_value (Truth (get_or truths.now n false))))) left.old left.new }
{
    for n in first_live(left)..live_end(left) {
        left[n] = kept_by_truths(left[n], truths, n, want);
    }
}

fn kept_by_truths(asked: bool, truths: &[bool], n: usize, want: bool) -> bool
    ensures { result ≡ (asked && is_as_wanted want (holds (as_value (Truth (get_or truths.now n false))))) }
{
    asked && Value::Truth(truth_at(truths, n)).holds() == want
}

fn keep_by_sets(left: &mut [bool], sets: &[u64], want: bool)
    ensures { AreKept (λ n. is_as_wanted want (holds (as_value (Set (get_or sets.now n 0))))) left.old left.new }
{
    for n in first_live(left)..live_end(left) {
        left[n] = kept_by_sets(left[n], sets, n, want);
    }
}

fn kept_by_sets(asked: bool, sets: &[u64], n: usize, want: bool) -> bool
    ensures { result ≡ (asked && is_as_wanted want (holds (as_value (Set (get_or sets.now n 0))))) }
{
    asked && Value::Set(set_at(sets, n)).holds() == want
}

fn keep_by_numbers(left: &mut [bool], numbers: &[Option<i64>], want: bool)
    ensures { AreKept (λ n. is_as_wanted want (holds (as_value (Number (get_or numbers.now n None))))) left.old left.new }
{
    for n in first_live(left)..live_end(left) {
        left[n] = kept_by_numbers(left[n], numbers, n, want);
    }
}

fn kept_by_numbers(asked: bool, numbers: &[Option<i64>], n: usize, want: bool) -> bool
    ensures { result ≡ (asked && is_as_wanted want (holds (as_value (Number (get_or numbers.now n None))))) }
{
    asked && Value::Number(number_at(numbers, n)).holds() == want
}

fn keep_by_values(left: &mut [bool], values: &[Value], want: bool)
    ensures { AreKept (λ n. is_as_wanted want (holds (as_value (get_or values.now n (Truth false))))) left.old left.new }
{
    for n in first_live(left)..live_end(left) {
        left[n] = kept_by_values(left[n], values, n, want);
    }
}

fn kept_by_values(asked: bool, values: &[Value], n: usize, want: bool) -> bool
    ensures { result ≡ (asked && is_as_wanted want (holds (as_value (get_or values.now n (Truth false))))) }
{
    asked && value_at(values, n).holds() == want
}

/// Leaves those nodes of a set at which a column has a number.
pub fn keep_numbered(left: &mut [bool], column: &FilterColumn)
    ensures len { length left.new ≡ length left.old }
    ensures nodes { IsNumbered left.old column.now left.new }
{
    for n in first_live(left)..live_end(left) {
        left[n] = has_number(left[n], column, n);
    }
}

pub(crate) fn has_number(asked: bool, column: &FilterColumn, n: usize) -> bool
    ensures { result ≡ (asked && is_some (amount (shown column.now n))) }
{
    asked && column.at(n).number().is_some()
}

// Leaves all nodes of the set, or none.
fn keep_if(left: &mut [bool], all: bool)
    ensures { AreKept (λ n. all) left.old left.new }
{
    if !all {
        left.fill(false);
    }
}

/// Returns the nodes of a set at which a column holds, or with `want` false those at which it doesn't.
///
/// # Errors
///
/// `NoMemory` if out of memory.
pub fn narrowed(
    alloc: Global,
    live: &[bool],
    column: &FilterColumn,
    want: bool,
) -> Result<Vec<bool>, NoMemory>
    ensures { IfOk result (λ left. IsNarrowed live.now column.now want left.items) }
{
    let mut left = same(alloc, live)?;
    narrow(&mut left, column, want);
    Ok(left)
}

/// Returns the live nodes of a game at which a column holds, or with `want` false those at which it doesn't.
///
/// # Errors
///
/// `NoMemory` if out of memory.
pub fn part_of(
    alloc: Global,
    scope: &Scope,
    live: &[bool],
    column: &FilterColumn,
    want: bool,
) -> Result<Vec<bool>, NoMemory>
    requires asked { IsNodeSet (tree_in scope.now) live.now }
    ensures { IfOk result (λ left. IsPart (tree_in scope.now) live.now column.now want left.items) }
{
    narrowed(alloc, live, column, want)
}
