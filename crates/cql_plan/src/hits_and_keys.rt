//! The hits of a query in a game, and the keys of its sort items over them, from the query's column.
ghost use Rattle.std.specs.Prelude.{◌≡◌, ◌≢◌, ◌+◌, ◌<◌, ◌++◌, [], length, map, true, Some, All, AllPairs, IfOk, OnOk};
ghost use Rattle.cql_eval.specs.Hits.{hits_of, keys_of, hit_column, item_numbers, AreKeysAtHits};
ghost use Rattle.cql_syntax.specs.Hits.{hits_in, all_keys, item_keys};
ghost use Rattle.cql_syntax.specs.TreeOf.{filter_tree, filters_tree};
ghost use Rattle.cql_values.specs.Trees.{searched_tree};
ghost use Rattle.cql_plan.specs.Internal.Items.{item_holds};
ghost use Rattle.cql_plan.specs.Internal.KeyRows.{AreRowsFrom};

use crate::keys::key_over;
use cq_common::NoMemory;
use cql_eval::Column;
use cql_syntax::{Filter, FlatQuery, Form};
use cql_values::walks::push_if;
use pgn_tree::Game;
use std::alloc::Global;

/// The column of a query in a game.
#[derive(Drop)]
pub(crate) struct QueryColumn<'a> {
    pub(crate) query: &'a FlatQuery,
    pub(crate) game: &'a Game,
    pub(crate) column: Column,
    ghost hits: { hits_of column ≡ hit_column (searched_tree game.now query.now.variations) (filters_tree query.now.items) },
    ghost keys: { AreKeysAtHits (searched_tree game.now query.now.variations) (filters_tree query.now.items)
        (hits_of column) (keys_of column) },
    ghost nodes: { length (hits_of column) ≡ length game.now.nodes },
}

/// The numbers of the nodes at which all of the items hold, increasing. With variations all nodes are searched, else those of the main
/// line.
pub(crate) fn hits(alloc: Global, told: &QueryColumn) -> Result<Vec<u32>, NoMemory>
    ensures value { IfOk result (λ found. found.items
        ≡ hits_in (searched_tree told.now.game.now told.now.query.now.variations) (filters_tree told.now.query.now.items)) }
    ensures increasing { IfOk result (λ found. AllPairs (λ m n. m < n) found.items) }
    ensures inside { IfOk result (λ found. All (λ n. n < length told.now.game.now.nodes) found.items) }
{
    let mut found = Vec::new(alloc);
    for k in 0..told.game.len() {
        let there = told.column.hit(k);
        push_if(&mut found, there, k)?;
    }
    Ok(found)
}

/// One key for each sort item over the hits, the first item first: its greatest value there, or with `min` the least. Over no nodes there
/// are no keys.
pub(crate) fn keys(alloc: Global, told: &QueryColumn, nodes: &[u32]) -> Result<Vec<i64>, NoMemory>
    requires { nodes.now
        ≡ hits_in (searched_tree told.now.game.now told.now.query.now.variations) (filters_tree told.now.query.now.items) }
    ensures keys { IfOk result (λ keys. nodes.now ≢ [] → map Some keys.items
        ≡ all_keys (searched_tree told.now.game.now told.now.query.now.variations) nodes.now (filters_tree told.now.query.now.items)) }
    ensures none { IfOk result (λ keys. nodes.now ≡ [] → keys.items ≡ []) }
{
    let mut keys = Vec::new(alloc);
    if nodes.is_empty() {
        return Ok(keys);
    }
    for item in told.query.items.as_slice() {
        add_key(&mut keys, item, told, nodes)?;
    }
    Ok(keys)
}

// Adds the key of an item, if it is a sort item.
#[tactic(auto, unfolding(cql_syntax::specs::Meaning::value))]
fn add_key(
    keys: &mut Vec<i64>,
    item: &Filter,
    told: &QueryColumn,
    nodes: &[u32],
) -> Result<(), NoMemory>
    requires some { 0 < length nodes.now }
    requires holds { All (λ n. item_holds (searched_tree told.now.game.now told.now.query.now.variations) n item.now ≡ true) nodes.now }
    requires rows { AreRowsFrom (searched_tree told.now.game.now told.now.query.now.variations) nodes.now (keys_of told.now.column)
        (length keys.old.items) (item_numbers (filter_tree item.now)) }
    ensures keys { OnOk result (map Some keys.new.items ≡ map Some keys.old.items
        ++ item_keys (searched_tree told.now.game.now told.now.query.now.variations) nodes.now (filter_tree item.now)) }
    ensures count { OnOk result (length keys.new.items ≡ length keys.old.items + length (item_numbers (filter_tree item.now))) }
{
    match &item.form {
        Form::Sort(least, ..) => {
            let row = told.column.row(keys.len());
            let key = key_over(row, *least, nodes);
            keys.push(key)?;
            Ok(())
        }
        _ => Ok(()),
    }
}
