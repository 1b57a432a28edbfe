//! The values of a filter at the nodes of a game.
ghost use Rattle.std.specs.Prelude.{◌≡◌, get_or, length, true, false, None, IfOk};
ghost use Rattle.cq_symmetry.specs.Images.{is_in};
ghost use Rattle.cql_syntax.specs.Values.{has};
ghost use Rattle.cql_values.specs.declared.value.Value.TheVariants.{Truth};
ghost use Rattle.cql_columns.specs.Columns.{kept_at, shown};

use cq_common::NoMemory;
use cql_values::value::Value;
use std::alloc::Global;

/// The value of a filter at each node. A list may end after the last live node.
#[derive(Drop)]
pub enum FilterColumn {
    Truths(Vec<bool>),
    /// Bit k of a word is square k.
    Sets(Vec<u64>),
    Numbers(Vec<Option<i64>>),
    /// Values of any kind.
    Values(Vec<Value>),
    /// One value at all nodes.
    Constant(Value),
}

impl FilterColumn {
    /// Returns the value at a node. After the end of a column it is a default of the column's kind.
    pub fn at(&self, n: usize) -> Value
        ensures { result ≡ kept_at self.now n }
    {
        match self {
            FilterColumn::Truths(truths) => Value::Truth(truth_at(truths, n)),
            FilterColumn::Sets(sets) => Value::Set(set_at(sets, n)),
            FilterColumn::Numbers(numbers) => Value::Number(number_at(numbers, n)),
            FilterColumn::Values(values) => value_at(values, n),
            FilterColumn::Constant(value) => *value,
        }
    }
}

/// Returns a list of truths for `nodes` nodes, to be overwritten.
///
/// # Errors
///
/// `NoMemory` if out of memory.
pub fn blank_truths(alloc: Global, nodes: usize) -> Result<Vec<bool>, NoMemory>
    ensures { IfOk result (λ truths. length truths.items ≡ nodes) }
{
    Ok(vec![in alloc; false; nodes]?)
}

/// Returns a list of sets for `nodes` nodes, to be overwritten.
///
/// # Errors
///
/// `NoMemory` if out of memory.
pub fn blank_sets(alloc: Global, nodes: usize) -> Result<Vec<u64>, NoMemory>
    ensures { IfOk result (λ sets. length sets.items ≡ nodes) }
{
    Ok(vec![in alloc; 0; nodes]?)
}

/// Returns a list of values for `nodes` nodes, to be overwritten.
///
/// # Errors
///
/// `NoMemory` if out of memory.
pub fn blank_values(alloc: Global, nodes: usize) -> Result<Vec<Value>, NoMemory>
    ensures { IfOk result (λ values. length values.items ≡ nodes) }
{
    Ok(vec![in alloc; Value::Truth(false); nodes]?)
}

/// Returns the truth at a node, or false after the end.
pub fn truth_at(truths: &[bool], n: usize) -> bool
    ensures { result ≡ get_or truths.now n false }
{
    if n < truths.len() { truths[n] } else { false }
}

/// Returns the set at a node, or the empty set after the end.
pub fn set_at(sets: &[u64], n: usize) -> u64
    ensures { result ≡ get_or sets.now n 0 }
{
    if n < sets.len() { sets[n] } else { 0 }
}

/// Returns the number at a node, or none after the end.
pub fn number_at(numbers: &[Option<i64>], n: usize) -> Option<i64>
    ensures { result ≡ get_or numbers.now n None }
{
    if n < numbers.len() { numbers[n] } else { None }
}

/// Returns the value at a node, or false after the end.
pub fn value_at(values: &[Value], n: usize) -> Value
    ensures { result ≡ get_or values.now n (Truth false) }
{
    if n < values.len() {
        values[n]
    } else {
        Value::Truth(false)
    }
}

/// Returns the squares of a column at a node. If `asked` is false, the column isn't read, and any set will do.
pub fn squares_if(asked: bool, column: &FilterColumn, n: usize) -> u64
    ensures { asked ≡ true → is_in result ≡ has (shown column.now n) }
{
    if asked { column.at(n).squares() } else { 0 }
}
