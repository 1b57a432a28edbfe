//! The nodes of a set that are left as squares are tried one by one.
ghost use Rattle.std.specs.Prelude.{◌≡◌, ℕ, ◌<◌, ◌&&◌, length, get_or, true, false, not, IfOk, if◌then◌else◌};
ghost use Rattle.cql_syntax.specs.Values as spec;
ghost use Rattle.cql_values.specs.ValueModel.{as_value};
ghost use Rattle.cql_columns.specs.SquareTrials.{AreNodesWithSquare, AreLeftOpen, CoverSquares};
ghost use Rattle.cql_values.specs.declared.value.Value.TheVariants.{Set};
ghost use Rattle.cql_columns.specs.Columns.{shown, AreKept};

use cq_common::NoMemory;
use cq_geometry::Square;
use cql_columns::filter_column::{FilterColumn, set_at, squares_if, truth_at};
use cql_columns::nodes::same;
use cql_columns::spans::{first_live, live_end};
use cql_values::sets::has_square;
use cql_values::value::Value;
use std::alloc::Global;

/// Returns a set with all squares that a column has at the live nodes.
pub fn wanted_squares(live: &[bool], squares: &FilterColumn) -> u64
    ensures { CoverSquares (shown squares.now) live.now result }
{
    let mut wanted = 0;
    for n in 0..live.len() {
        wanted |= squares_if(live[n], squares, n);
    }
    wanted
}

/// Returns the nodes of a set at which the column has a square.
///
/// # Errors
///
/// `NoMemory` if out of memory.
pub fn having(
    alloc: Global,
    left: &[bool],
    squares: &FilterColumn,
    square: Square,
) -> Result<Vec<bool>, NoMemory>
    ensures { IfOk result (λ there. AreNodesWithSquare (shown squares.now) square left.now there.items) }
{
    let mut there = same(alloc, left)?;
    keep_having(&mut there, squares, square);
    Ok(there)
}

fn keep_having(there: &mut [bool], squares: &FilterColumn, square: Square)
    ensures { AreKept (λ n. spec.has (shown squares.now n) square) there.old there.new }
{
    match squares {
        FilterColumn::Sets(sets) => keep_by_sets(there, sets, square),
        _ => keep_by_values(there, squares, square),
    }
}

fn keep_by_sets(there: &mut [bool], sets: &[u64], square: Square)
    ensures { AreKept (λ n. spec.has (as_value (Set (get_or sets.now n 0))) square) there.old there.new }
{
    for n in 0..there.len() {
        there[n] = has_in_sets(there[n], sets, square, n);
    }
}

fn has_in_sets(asked: bool, sets: &[u64], square: Square, n: usize) -> bool
    ensures { result ≡ (asked && spec.has (as_value (Set (get_or sets.now n 0))) square) }
{
    asked && has_one(Value::Set(set_at(sets, n)), square)
}

fn keep_by_values(there: &mut [bool], squares: &FilterColumn, square: Square)
    ensures { AreKept (λ n. spec.has (shown squares.now n) square) there.old there.new }
{
    for n in 0..there.len() {
        there[n] = has_there(there[n], squares, square, n);
    }
}

fn has_there(asked: bool, squares: &FilterColumn, square: Square, n: usize) -> bool
    ensures { result ≡ (asked && spec.has (shown squares.now n) square) }
{
    asked && has_one(squares.at(n), square)
}

fn has_one(value: Value, square: Square) -> bool
    ensures { result ≡ spec.has (as_value value) square }
{
    has_square(value.squares(), square)
}

/// Returns the nodes of a set that stay open. Without `every`, a node of `there` is settled if the column holds there. With `every`, it is
/// settled if the column doesn't.
pub fn unsettled(every: bool, left: Vec<bool>, there: &[bool], column: &FilterColumn) -> Vec<bool>
    requires { length there.now ≡ length left.items }
    ensures { AreLeftOpen every (λ n. spec.holds (shown column.now n)) left.items there.now result.items }
{
    let mut later = left;
    settle(every, &mut later, there, column);
    later
}

fn settle(every: bool, left: &mut [bool], there: &[bool], column: &FilterColumn)
    requires { length there.now ≡ length left.old }
    ensures { AreLeftOpen every (λ n. spec.holds (shown column.now n)) left.old there.now left.new }
{
    for n in first_live(there)..live_end(there) {
        left[n] = keeps(every, left[n], truth_at(there, n), column, n);
    }
}

fn keeps(every: bool, asked: bool, there: bool, column: &FilterColumn, n: usize) -> bool
    ensures { result ≡ (asked && not (there
        && (if every then not (spec.holds (shown column.now n)) else spec.holds (shown column.now n)))) }
{
    asked && !(there && column.at(n).holds() != every)
}

/// Returns the truths of a `square` filter after all squares are tried. With `every` a node is true if it stayed open, else if it was
/// settled.
///
/// # Errors
///
/// `NoMemory` if out of memory.
pub fn decided(alloc: Global, every: bool, left: Vec<bool>) -> Result<Vec<bool>, NoMemory>
    ensures { IfOk result (λ truths. (n : ℕ) → n < length left.items
        → get_or truths.items n false ≡ (if get_or left.items n false then every else not every)) }
{
    let mut truths = Vec::with_capacity(alloc, left.len())?;
    for n in 0..left.len() {
        let truth = left[n] == every;
        truths.push(truth)?;
    }
    Ok(truths)
}
