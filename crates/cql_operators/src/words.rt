//! Columns of words.
ghost use Rattle.std.specs.Prelude.{◌≡◌, ◌<◌, length, true, IfOk};
ghost use Rattle.cq_position.specs.Games.{IsTree};
ghost use Rattle.cql_syntax.specs.Meaning as meaning;
ghost use Rattle.cql_syntax.specs.Values.{count};
ghost use Rattle.cql_values.specs.Counts.{moves_on};
ghost use Rattle.cql_values.specs.ValueModel.{as_value};
ghost use Rattle.cql_columns.specs.Columns.{IsNodeSet, AreValues};
ghost use Rattle.cql_columns.specs.Scopes.{tree_in};

use cq_common::NoMemory;
use cql_columns::filter_column::blank_values;
use cql_columns::scope::Scope;
use cql_columns::spans::{first_live_node, live_node_end};
use cql_syntax::Plain;
use cql_values::counts::counts;
use cql_values::numbers::count_value;
use cql_values::value::Value;
use cql_values::words::word_at;
use std::alloc::Global;

/// Returns the values of a word. `ply` and `depth` are counted in one pass over the game.
///
/// # Errors
///
/// `NoMemory` if out of memory.
pub fn word_values(
    alloc: Global,
    word: Plain,
    scope: &Scope,
    live: &[bool],
) -> Result<Vec<Value>, NoMemory>
    requires tree { IsTree scope.now.game.now.nodes }
    requires asked { IsNodeSet (tree_in scope.now) live.now }
    ensures { IfOk result (λ values. AreValues values.items live.now (meaning.word_of (tree_in scope.now) word)) }
{
    match word {
        Plain::Ply => counted_values(alloc, false, scope, live),
        Plain::Depth => counted_values(alloc, true, scope, live),
        _ => values_one_by_one(alloc, word, scope, live),
    }
}

fn counted_values(
    alloc: Global,
    variations_alone: bool,
    scope: &Scope,
    live: &[bool],
) -> Result<Vec<Value>, NoMemory>
    requires tree { IsTree scope.now.game.now.nodes }
    requires asked { IsNodeSet (tree_in scope.now) live.now }
    ensures { IfOk result (λ values. AreValues values.items live.now (λ n. count (moves_on variations_alone scope.now.game.now.nodes n))) }
{
    let counts = counts(alloc, scope.game, variations_alone)?;
    let end = live_node_end(live, scope.game.len());
    let mut values = blank_values(alloc, end as usize)?;
    for n in first_live_node(live, scope.game.len())..end {
        values[n as usize] = count_value(counts[n as usize]);
    }
    Ok(values)
}

fn values_one_by_one(
    alloc: Global,
    word: Plain,
    scope: &Scope,
    live: &[bool],
) -> Result<Vec<Value>, NoMemory>
    requires tree { IsTree scope.now.game.now.nodes }
    requires asked { IsNodeSet (tree_in scope.now) live.now }
    ensures { IfOk result (λ values. AreValues values.items live.now (meaning.word_of (tree_in scope.now) word)) }
{
    let end = live_node_end(live, scope.game.len());
    let mut values = blank_values(alloc, end as usize)?;
    for n in first_live_node(live, scope.game.len())..end {
        values[n as usize] = word_value(alloc, live[n as usize], word, scope, n)?;
    }
    Ok(values)
}

fn word_value(
    alloc: Global,
    asked: bool,
    word: Plain,
    scope: &Scope,
    n: u32,
) -> Result<Value, NoMemory>
    requires tree { IsTree scope.now.game.now.nodes }
    requires node { n < length scope.now.game.now.nodes }
    ensures { IfOk result (λ value. asked ≡ true → as_value value ≡ meaning.word_of (tree_in scope.now) word n) }
{
    if asked {
        word_at(alloc, word, scope.game, scope.variations, n)
    } else {
        Ok(Value::Truth(false))
    }
}
