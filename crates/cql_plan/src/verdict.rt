//! The result of a query in a game.
ghost use Rattle.std.specs.Prelude.{◌≡◌, ◌≢◌, ◌+◌, ◌<◌, ◌≤◌, [], length, map, Some, All, AllPairs, IfOk, OnOk};
ghost use Rattle.cq_position.specs.Search.{nodes_in};
ghost use Rattle.cql_columns.specs.Costs.{filters_cost, searched_len};
ghost use Rattle.cql_syntax.specs.Hits.{hits_in, all_keys};
ghost use Rattle.cql_syntax.specs.TreeOf.{filters_tree};
ghost use Rattle.cql_values.specs.Trees.{searched_tree};
ghost use Rattle.cql_plan.specs.Verdicts.{nodes_of, keys_of};

use crate::hits_and_keys::{QueryColumn, hits, keys};
use cq_common::{NoMemory, Shared, Steps};
use cql_eval::hit_columns;
use cql_syntax::FlatQuery;
use pgn_tree::Game;
use std::alloc::Global;
use std::sync::ledger::Ledger;

/// The hits of a query in a game, and the sort keys of the game.
#[derive(Drop, Debug)]
pub struct Verdict {
    pub(crate) nodes: Vec<u32>,
    pub(crate) keys: Vec<i64>,
}

impl Shared for Verdict {}

impl Verdict {
    /// The numbers of the nodes at which the query hits, increasing.
    pub fn nodes(&self) -> &[u32]
        ensures { result.now ≡ nodes_of self.now }
    {
        self.nodes.as_slice()
    }

    /// The keys of the sort items over the hits, the first item first; none if there is no hit.
    pub fn keys(&self) -> &[i64]
        ensures { result.now ≡ keys_of self.now }
    {
        self.keys.as_slice()
    }
}

/// The result of a flat query in a game.
pub(crate) fn find<L: Ledger>(
    alloc: Global,
    query: &FlatQuery,
    game: &Game,
    steps: &mut Steps<L>,
) -> Result<Verdict, NoMemory>
    ensures nodes { IfOk result (λ v. v.nodes.items
        ≡ hits_in (searched_tree game.now query.now.variations) (filters_tree query.now.items)) }
    ensures increasing { IfOk result (λ v. AllPairs (λ m n. m < n) v.nodes.items) }
    ensures inside { IfOk result (λ v. All (λ n. n < length game.now.nodes) v.nodes.items) }
    ensures keys { IfOk result (λ v. v.nodes.items ≢ [] → map Some v.keys.items
        ≡ all_keys (searched_tree game.now query.now.variations) v.nodes.items (filters_tree query.now.items)) }
    ensures no_keys { IfOk result (λ v. v.nodes.items ≡ [] → v.keys.items ≡ []) }
    ensures least { OnOk result (steps.old + length (nodes_in (searched_tree game.now query.now.variations)) ≤ steps.new) }
    ensures most { steps.new ≤ steps.old + length (nodes_in (searched_tree game.now query.now.variations))
        + filters_cost (searched_len (searched_tree game.now query.now.variations)) (filters_tree query.now.items) }
{
    let column = hit_columns(alloc, query, game, steps)?;
    let told = QueryColumn {
        query,
        game,
        column,
    };
    let nodes = hits(alloc, &told)?;
    let keys = keys(alloc, &told, nodes.as_slice());
    drop(told);
    Ok(Verdict { nodes, keys: keys? })
}
