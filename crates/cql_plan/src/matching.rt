//! The match of one game.
ghost use Rattle.std.specs.Prelude.{◌≡◌, ◌≢◌, ◌+◌, ◌<◌, ◌≤◌, [], true, false, length, map, Some, All, AllPairs, IfOk, OnOk};
ghost use Rattle.cq_position.specs.Search.{nodes_in};
ghost use Rattle.cql_columns.specs.Costs.{filters_cost, searched_len};
ghost use Rattle.cql_plan.specs.Needs.{query_passes};
ghost use Rattle.cql_plan.specs.Plans.{query_of};
ghost use Rattle.cql_plan.specs.Verdicts.{nodes_of, keys_of};
ghost use Rattle.cql_syntax.specs.Flat.{flat_query};
ghost use Rattle.cql_syntax.specs.Hits.{hits, keys};
ghost use Rattle.cql_syntax.specs.TreeOf.{query_tree};
ghost use Rattle.cql_values.specs.Trees.{searched_tree};

use crate::plan::Plan;
use crate::plan::making::may_hold;
use crate::verdict::{Verdict, find};
use cq_common::{NoMemory, Steps};
use pgn_tree::Game;
use std::alloc::Global;
use std::sync::ledger::Ledger;

/// The hits of the plan's query in a game, and its keys.
///
/// A game that fails the needs of the query ([`may_hold`]) takes no step. Else each searched node is a step, and so is each look at the
/// atoms of a line. These looks are at most the cost of the flat items, in which the part of a `square` counts 64 times.
///
/// # Errors
///
/// `NoMemory` if out of memory.
pub fn match_game<L: Ledger>(
    alloc: Global,
    plan: &Plan,
    game: &Game,
    steps: &mut Steps<L>,
) -> Result<Verdict, NoMemory>
    ensures nodes { IfOk result (λ v. nodes_of v ≡ hits (query_tree (query_of plan.now).query) game.now) }
    ensures increasing { IfOk result (λ v. AllPairs (λ m n. m < n) (nodes_of v)) }
    ensures inside { IfOk result (λ v. All (λ n. n < length game.now.nodes) (nodes_of v)) }
    ensures keys { IfOk result (λ v. nodes_of v ≢ [] → map Some (keys_of v) ≡ keys (query_tree (query_of plan.now).query) game.now) }
    ensures no_keys { IfOk result (λ v. nodes_of v ≡ [] → keys_of v ≡ []) }
    ensures turned_away { query_passes (query_tree (query_of plan.now).query) game.now ≡ false
        → IfOk result (λ v. nodes_of v ≡ []) }
    ensures no_steps { query_passes (query_tree (query_of plan.now).query) game.now ≡ false → steps.new ≡ steps.old }
    ensures least { query_passes (query_tree (query_of plan.now).query) game.now ≡ true
        → OnOk result (steps.old + length (nodes_in (searched_tree game.now (query_of plan.now).query.variations)) ≤ steps.new) }
    ensures most { steps.new ≤ steps.old + length (nodes_in (searched_tree game.now (query_of plan.now).query.variations))
        + filters_cost (searched_len (searched_tree game.now (query_of plan.now).query.variations))
        (flat_query (query_tree (query_of plan.now).query)).items }
{
    if !may_hold(plan, game) {
        return Ok(Verdict {
            nodes: Vec::new(alloc),
            keys: Vec::new(alloc),
        });
    }
    find(alloc, plan.joined(), game, steps)
}
