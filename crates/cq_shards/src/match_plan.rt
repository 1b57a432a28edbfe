//! The result of a plan in a game, by a thread that counts no steps.
ghost use Rattle.std.specs.Prelude.{◌≡◌, ◌≢◌, ◌<◌, [], map, Some, IfOk};
ghost use Rattle.cql_syntax.specs.Hits.{hits, keys};
ghost use Rattle.cql_plan.specs.Verdicts.{keys_of, nodes_of};
ghost use Rattle.cql_syntax.specs.QueryTrees.{trees_of};
ghost use Rattle.cq_shared.specs.Plans.{queries_of};
ghost use Rattle.cq_shared.specs.Verdicts as all;
ghost use Rattle.cq_shards.specs.PlanQuery.{query_in};

use cq_common::{NoMemory, Steps};
use cq_shared::{SharedPlan, Verdicts, match_all};
use cql_plan::{Plan, Verdict, match_game};
use pgn_tree::Game;
use std::alloc::Global;
use std::marker::Brand;
use std::sync::ledger::{Blank, Ledger};

/// The hits of the plan's query in a game, and its keys.
pub(crate) fn match_plan(alloc: Global, plan: &Plan, game: &Game) -> Result<Verdict, NoMemory>
    ensures nodes { IfOk result (λ v. nodes_of v ≡ hits (query_in plan.now) game.now) }
    ensures keys { IfOk result (λ v. nodes_of v ≢ [] → map Some (keys_of v) ≡ keys (query_in plan.now) game.now) }
{
    counted::<Brand>(alloc, plan, game, Blank::new(1))
}

// The hits and keys, from a blank for the count of steps.
fn counted<L: Ledger>(
    alloc: Global,
    plan: &Plan,
    game: &Game,
    blank: Blank,
) -> Result<Verdict, NoMemory>
    requires { (blank.name ≡ L.name) × (blank.parts ≡ L.parts) × (0 < blank.parts) }
    ensures nodes { IfOk result (λ v. nodes_of v ≡ hits (query_in plan.now) game.now) }
    ensures keys { IfOk result (λ v. nodes_of v ≢ [] → map Some (keys_of v) ≡ keys (query_in plan.now) game.now) }
{
    let mut steps = Steps::<L>::new(blank);
    match_game(alloc, plan, game, &mut steps)
}

/// The hits of each query of a plan in a game, and its keys.
pub(crate) fn match_shared_plan(
    alloc: Global,
    plan: &SharedPlan,
    game: &Game,
) -> Result<Verdicts, NoMemory>
    ensures nodes { IfOk result (λ v. all.nodes_of v ≡ map (λ q. hits q game.now) (trees_of (queries_of plan.now))) }
    ensures keys { IfOk result (λ v. all.HaveKeys game.now (trees_of (queries_of plan.now)) (all.nodes_of v) (all.keys_of v)) }
{
    all_counted::<Brand>(alloc, plan, game, Blank::new(1))
}

// The hits and keys, from a blank for the count of steps.
fn all_counted<L: Ledger>(
    alloc: Global,
    plan: &SharedPlan,
    game: &Game,
    blank: Blank,
) -> Result<Verdicts, NoMemory>
    requires { (blank.name ≡ L.name) × (blank.parts ≡ L.parts) × (0 < blank.parts) }
    ensures nodes { IfOk result (λ v. all.nodes_of v ≡ map (λ q. hits q game.now) (trees_of (queries_of plan.now))) }
    ensures keys { IfOk result (λ v. all.HaveKeys game.now (trees_of (queries_of plan.now)) (all.nodes_of v) (all.keys_of v)) }
{
    let mut steps = Steps::<L>::new(blank);
    match_all(alloc, plan, game, &mut steps)
}
