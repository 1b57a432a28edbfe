//! The making of a plan, its parts, and the test of a game by the needs of its query.
ghost use Rattle.std.specs.Prelude.{◌≡◌, ◌≢◌, [], true, IfOk};
ghost use Rattle.cql_syntax.specs.Hits.{hits};
ghost use Rattle.cql_syntax.specs.TreeOf.{filters_tree, query_tree};
ghost use Rattle.cql_plan.specs.Needs.{query_passes};
ghost use Rattle.cql_plan.specs.Plans.{query_of, joined_of, IsJoinedFormOf};

use crate::joining::join;
use crate::needs::all_needed;
use crate::plan::Plan;
use cq_common::NoMemory;
use cql_rewrite::expand;
use cql_syntax::{FlatQuery, TypedQuery};
use pgn_tree::Game;
use std::alloc::Global;

impl Plan {
    /// The plan of a query.
    ///
    /// # Errors
    ///
    /// `NoMemory` if out of memory.
    pub fn make(alloc: Global, query: &TypedQuery) -> Result<Plan, NoMemory>
        ensures { IfOk result (λ plan. query_tree (query_of plan).query ≡ query_tree query.now.query) }
    {
        let flat = expand(alloc, query)?;
        let joined = join(alloc, &flat)?;
        let query = TypedQuery {
            query: query.query.copy()?,
        };
        Ok(Plan {
            query,
            flat,
            joined,
        })
    }

    /// The query that it was made from.
    pub fn query(&self) -> &TypedQuery
        ensures { result.now ≡ query_of self.now }
    {
        &self.query
    }

    /// The form of the query that is evaluated.
    pub fn joined(&self) -> &FlatQuery
        ensures value { result.now ≡ joined_of self.now }
        ensures asked { IsJoinedFormOf (query_tree (query_of self.now).query) result.now.variations (filters_tree result.now.items) }
    {
        &self.joined
    }
}

/// Returns true if a game has the needs of the query; else there is no hit. Its positions are looked at only if men are needed, for each
/// man up to the first that has it. It allocates no memory.
pub fn may_hold(plan: &Plan, game: &Game) -> bool
    ensures value { result ≡ query_passes (query_tree (query_of plan.now).query) game.now }
    ensures hit { hits (query_tree (query_of plan.now).query) game.now ≢ [] → result ≡ true }
{
    all_needed(&plan.flat.items, plan.flat.variations, game)
}
