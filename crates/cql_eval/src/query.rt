//! The column of a query.
ghost use Rattle.std.specs.Prelude.{◌≡◌, ℕ, ◌+◌, ◌≤◌, ◌<◌, ◌&&◌, ◌++◌, ◌∷◌, [], length, map, get_or, count_by, false, true, None, IfOk, OnOk, if◌then◌else◌};
ghost use Rattle.std.specs.List.{range_with_len};
ghost use Rattle.cq_position.specs.Games.{IsTree};
ghost use Rattle.cq_position.specs.Search.{nodes_in};
ghost use Rattle.cql_syntax.specs.Hits.{is_hit};
ghost use Rattle.cql_syntax.specs.Meaning.{value};
ghost use Rattle.cql_syntax.specs.TreeOf.{filter_tree, filters_tree};
ghost use Rattle.cql_syntax.specs.Values.{holds, amount};
ghost use Rattle.cql_values.specs.Trees.{searched_tree};
ghost use Rattle.cql_columns.specs.Columns.{IsNodeSet, is_live, shown};
ghost use Rattle.cql_columns.specs.Costs.{filter_cost, filters_cost, searched_len};
ghost use Rattle.cql_columns.specs.FlatTrees.{IsFlat};
ghost use Rattle.cql_columns.specs.Scopes.{tree_in};
ghost use Rattle.cql_eval.specs.Hits.{hits_of, keys_of, hit_column, key_columns, key_row_of, item_numbers, AreKeysAtHits};
ghost use Rattle.cql_candidates.specs.Classes.{is_of, is_as_wanted_if, cost_if, IsLeft};

use crate::column::Column;
use crate::evaluate::{evaluate, left_by};
use cq_common::{NoMemory, Steps};
use cql_candidates::order::SORT_CLASS;
use cql_columns::filter_column::FilterColumn;
use cql_columns::nodes::same;
use cql_columns::scope::Scope;
use cql_operators::combine::numbered;
use cql_operators::narrow::{keep_numbered, narrowed};
use cql_operators::nodes::{searched_nodes, tick_nodes};
use cql_syntax::{Filter, FlatQuery, Form};
use cql_values::names::Names;
use pgn_tree::Game;
use std::alloc::Global;
use std::sync::ledger::Ledger;

/// The hits of a query in a game, and the values of its sort items at every searched node. At a node that is not searched no item holds or
/// has a value.
///
/// Each searched node is a step, and so is each look at the atoms of a line.
///
/// # Errors
///
/// `NoMemory` if out of memory.
pub fn columns<L: Ledger>(
    alloc: Global,
    query: &FlatQuery,
    game: &Game,
    steps: &mut Steps<L>,
) -> Result<Column, NoMemory>
    ensures hits { IfOk result (λ column. hits_of column
        ≡ hit_column (searched_tree game.now query.now.variations) (filters_tree query.now.items)) }
    ensures keys { IfOk result (λ column. keys_of column
        ≡ key_columns (searched_tree game.now query.now.variations) (filters_tree query.now.items)) }
    ensures nodes { IfOk result (λ column. length (hits_of column) ≡ length game.now.nodes) }
    ensures least { OnOk result (steps.old + length (nodes_in (searched_tree game.now query.now.variations)) ≤ steps.new) }
    ensures most { steps.new ≤ steps.old + length (nodes_in (searched_tree game.now query.now.variations))
        + filters_cost (searched_len (searched_tree game.now query.now.variations)) (filters_tree query.now.items) }
{
    // A game's nodes are a tree.
    prove!(game.is_tree());
    let names = Names::new(alloc);
    let scope = Scope {
        game,
        variations: query.variations,
        names: &names,
    };
    let all = searched_nodes(alloc, game, query.variations, steps)?;
    let mut left = same(alloc, &all)?;
    let mut keys = Vec::new(alloc);
    for item in query.items.as_slice() {
        left = narrowed_by(alloc, item, &scope, &all, &left, &mut keys, steps)?;
    }
    Ok(Column { hits: left, keys })
}

/// The hits of a query in a game, and the values of its sort items at the hits alone. The items are evaluated class by class, each at the
/// nodes that those before it leave, and the sort items last.
///
/// Each searched node is a step, and so is each look at the atoms of a line.
///
/// # Errors
///
/// `NoMemory` if out of memory.
pub fn hit_columns<L: Ledger>(
    alloc: Global,
    query: &FlatQuery,
    game: &Game,
    steps: &mut Steps<L>,
) -> Result<Column, NoMemory>
    ensures hits { IfOk result (λ column. hits_of column
        ≡ hit_column (searched_tree game.now query.now.variations) (filters_tree query.now.items)) }
    ensures keys { IfOk result (λ column. AreKeysAtHits (searched_tree game.now query.now.variations) (filters_tree query.now.items)
        (hits_of column) (keys_of column)) }
    ensures nodes { IfOk result (λ column. length (hits_of column) ≡ length game.now.nodes) }
    ensures least { OnOk result (steps.old + length (nodes_in (searched_tree game.now query.now.variations)) ≤ steps.new) }
    ensures most { steps.new ≤ steps.old + length (nodes_in (searched_tree game.now query.now.variations))
        + filters_cost (searched_len (searched_tree game.now query.now.variations)) (filters_tree query.now.items) }
{
    let all = searched_nodes(alloc, game, query.variations, steps)?;
    let column = columns_of(alloc, query, game, &all, steps)?;
    Ok(column)
}

/// The hits and values at the searched nodes of a set alone. At other nodes no item holds.
///
/// Each node of the set is a step, and so is each look at the atoms of a line.
///
/// # Errors
///
/// `NoMemory` if out of memory.
pub fn hit_columns_at<L: Ledger>(
    alloc: Global,
    query: &FlatQuery,
    game: &Game,
    live: &[bool],
    steps: &mut Steps<L>,
) -> Result<Column, NoMemory>
    requires { IsNodeSet (searched_tree game.now query.now.variations) live.now }
    ensures hits { IfOk result (λ column. (n : ℕ) → get_or (hits_of column) n false
        ≡ (is_live live.now n && is_hit (searched_tree game.now query.now.variations) (filters_tree query.now.items) n)) }
    ensures keys { IfOk result (λ column. AreKeysAtHits (searched_tree game.now query.now.variations) (filters_tree query.now.items)
        (hits_of column) (keys_of column)) }
    ensures nodes { IfOk result (λ column. length (hits_of column) ≡ length game.now.nodes) }
    ensures least { OnOk result (steps.old + count_by (λ b. b) live.now ≤ steps.new) }
    ensures most { steps.new ≤ steps.old + count_by (λ b. b) live.now
        + filters_cost (searched_len (searched_tree game.now query.now.variations)) (filters_tree query.now.items) }
{
    tick_nodes(live, steps);
    let column = columns_of(alloc, query, game, live, steps)?;
    Ok(column)
}

// The hits and values of the items at the nodes of a set.
fn columns_of<L: Ledger>(
    alloc: Global,
    query: &FlatQuery,
    game: &Game,
    live: &[bool],
    steps: &mut Steps<L>,
) -> Result<Column, NoMemory>
    requires { IsNodeSet (searched_tree game.now query.now.variations) live.now }
    ensures left { IfOk result (λ column. IsLeft (searched_tree game.now query.now.variations) live.now
        (is_hit (searched_tree game.now query.now.variations) (filters_tree query.now.items)) (hits_of column)) }
    ensures keys { IfOk result (λ column. AreKeysAtHits (searched_tree game.now query.now.variations) (filters_tree query.now.items)
        (hits_of column) (keys_of column)) }
    ensures cost { steps.new ≤ steps.old
        + filters_cost (searched_len (searched_tree game.now query.now.variations)) (filters_tree query.now.items) }
    ensures rises { steps.old ≤ steps.new }
{
    // A game's nodes are a tree.
    prove!(game.is_tree());
    let names = Names::new(alloc);
    let scope = Scope {
        game,
        variations: query.variations,
        names: &names,
    };
    let items = &query.items;
    let mut left = left_by(alloc, SORT_CLASS, true, items, &scope, live, steps)?;
    let mut keys = Vec::new(alloc);
    for item in items.as_slice() {
        sort_by(alloc, item, &scope, &mut left, &mut keys, steps)?;
    }
    Ok(Column { hits: left, keys })
}

// Removes the nodes of a set at which a sort item has no value, and adds its values at the nodes of the set. Another item changes nothing.
#[tactic(auto, unfolding(cql_syntax::specs::Meaning::value, cql_columns::specs::Costs::filter_cost, cql_columns::specs::FlatTrees::unflat, cql_candidates::specs::Classes::form_class))]
fn sort_by<L: Ledger>(
    alloc: Global,
    item: &Filter,
    scope: &Scope,
    left: &mut [bool],
    keys: &mut Vec<Vec<Option<i64>>>,
    steps: &mut Steps<L>,
) -> Result<(), NoMemory>
    requires tree { IsTree scope.now.game.now.nodes }
    requires names { scope.now.names.now ≡ [] }
    requires asked { IsNodeSet (tree_in scope.now) left.old }
    requires flat { IsFlat (filter_tree item.now) }
    ensures len { length left.new ≡ length left.old }
    ensures left { OnOk result (IsLeft (tree_in scope.now) left.old
        (is_as_wanted_if (is_of 5) (tree_in scope.now) [] true (filter_tree item.now)) left.new) }
    ensures keys { OnOk result (map (λ row. row.items) keys.new.items ≡ map (λ row. row.items) keys.old.items
        ++ map (key_row_of (tree_in scope.now) left.old) (item_numbers (filter_tree item.now))) }
    ensures cost { steps.new ≤ steps.old + cost_if (is_of 5) (searched_len (tree_in scope.now)) (filter_tree item.now) }
    ensures rises { steps.old ≤ steps.new }
{
    match &item.form {
        Form::Sort(.., number) => {
            let column = evaluate(alloc, number, scope, left, steps)?;
            push_row(alloc, &column, left, keys)?;
            keep_numbered(left, &column);
            drop(column);
            Ok(())
        }
        _ => Ok(()),
    }
}

// The nodes left at which an item holds. For a sort item, its values at the `asked` nodes are added.
#[tactic(auto, unfolding(cql_syntax::specs::Meaning::value, cql_columns::specs::Costs::filter_cost, cql_columns::specs::FlatTrees::unflat))]
fn narrowed_by<L: Ledger>(
    alloc: Global,
    item: &Filter,
    scope: &Scope,
    asked: &[bool],
    left: &[bool],
    keys: &mut Vec<Vec<Option<i64>>>,
    steps: &mut Steps<L>,
) -> Result<Vec<bool>, NoMemory>
    requires tree { IsTree scope.now.game.now.nodes }
    requires names { scope.now.names.now ≡ [] }
    requires asked { IsNodeSet (tree_in scope.now) asked.now }
    requires left { IsNodeSet (tree_in scope.now) left.now }
    requires within { (n : ℕ) → is_live left.now n ≡ true → is_live asked.now n ≡ true }
    requires flat { IsFlat (filter_tree item.now) }
    ensures asked { IfOk result (λ later. IsNodeSet (tree_in scope.now) later.items) }
    ensures each { IfOk result (λ later. (n : ℕ) → is_live later.items n
        ≡ (is_live left.now n && holds (value (tree_in scope.now) [] [] (filter_tree item.now) n))) }
    ensures keys { OnOk result (map (λ row. row.items) keys.new.items ≡ map (λ row. row.items) keys.old.items
        ++ map (key_row_of (tree_in scope.now) asked.now) (item_numbers (filter_tree item.now))) }
    ensures cost { steps.new ≤ steps.old + filter_cost (searched_len (tree_in scope.now)) (filter_tree item.now) }
    ensures rises { steps.old ≤ steps.new }
{
    match &item.form {
        Form::Sort(.., number) => {
            let column = evaluate(alloc, number, scope, asked, steps)?;
            push_row(alloc, &column, asked, keys)?;
            let later = numbered(alloc, &column, left);
            drop(column);
            Ok(later?)
        }
        _ => {
            let column = evaluate(alloc, item, scope, left, steps)?;
            let later = narrowed(alloc, left, &column, true);
            drop(column);
            Ok(later?)
        }
    }
}

// Adds the numbers of a column at the live nodes, and none at others.
fn push_row(
    alloc: Global,
    column: &FilterColumn,
    live: &[bool],
    keys: &mut Vec<Vec<Option<i64>>>,
) -> Result<(), NoMemory>
    ensures { OnOk result (map (λ row. row.items) keys.new.items ≡ map (λ row. row.items) keys.old.items
        ++ (map (λ n. if is_live live.now n then amount (shown column.now n) else None) (range_with_len 0 (length live.now)) ∷ [])) }
{
    let row = key_row(alloc, column, live)?;
    keys.push(row)?;
    Ok(())
}

// The numbers of a column at the live nodes, and none at others.
fn key_row(
    alloc: Global,
    column: &FilterColumn,
    live: &[bool],
) -> Result<Vec<Option<i64>>, NoMemory>
    ensures { IfOk result (λ row. row.items
        ≡ map (λ n. if is_live live.now n then amount (shown column.now n) else None) (range_with_len 0 (length live.now))) }
{
    let mut row = Vec::new(alloc);
    for n in 0..live.len() {
        let number = number_if(live[n], column, n);
        row.push(number)?;
    }
    Ok(row)
}

fn number_if(asked: bool, column: &FilterColumn, n: usize) -> Option<i64>
    ensures { result ≡ (if asked then amount (shown column.now n) else None) }
{
    if asked { column.at(n).number() } else { None }
}
