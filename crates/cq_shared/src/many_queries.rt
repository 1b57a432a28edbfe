//! The hits of several queries in one game, and their keys.
ghost use Rattle.std.specs.Prelude.{◌≡◌, ◌+◌, ◌<◌, ◌≤◌, length, map, All, AllPairs, IfOk};
ghost use Rattle.cql_syntax.specs.Hits.{hits};
ghost use Rattle.cq_shared.specs.Matching.{plan_cost};
ghost use Rattle.cql_syntax.specs.QueryTrees.{trees_of};
ghost use Rattle.cq_shared.specs.Plans.{queries_of, plan_parts};
ghost use Rattle.cq_shared.specs.StepBounds.{needed_parts};
ghost use Rattle.cq_shared.specs.Verdicts.{nodes_of, keys_of, HaveKeys};

use crate::collecting::collect_verdicts;
use crate::matching::{nodes_left_by, sort_rows_by};
use crate::plan::SharedPlan;
use crate::start_nodes::start_nodes;
use crate::verdicts::Verdicts;
use cq_common::{NoMemory, Steps};
use pgn_tree::Game;
use std::alloc::Global;
use std::sync::ledger::Ledger;

/// The hits of each query of a plan in a game, and its keys.
///
/// The steps are at most the cost of those different parts that some query has whose needs the game meets. So they are at most the cost of
/// all different parts. The cost of a part is its cost as the only item of a query.
///
/// # Errors
///
/// `NoMemory` if out of memory.
pub fn match_all<L: Ledger>(
    alloc: Global,
    plan: &SharedPlan,
    game: &Game,
    steps: &mut Steps<L>,
) -> Result<Verdicts, NoMemory>
    ensures nodes { IfOk result (λ v. nodes_of v ≡ map (λ q. hits q game.now) (trees_of (queries_of plan.now))) }
    ensures increasing { IfOk result (λ v. All (λ nodes. AllPairs (λ m n. m < n) nodes) (nodes_of v)) }
    ensures keys { IfOk result (λ v. HaveKeys game.now (trees_of (queries_of plan.now)) (nodes_of v) (keys_of v)) }
    ensures count { IfOk result (λ v. length (keys_of v) ≡ length (nodes_of v)) }
    ensures asked { steps.new ≤ steps.old
        + plan_cost game.now (needed_parts game.now (trees_of (queries_of plan.now)) (plan_parts (queries_of plan.now))) }
    ensures most { steps.new ≤ steps.old + plan_cost game.now (plan_parts (queries_of plan.now)) }
{
    let owners = plan.owners();
    let parts = plan.each_part();
    let start_nodes = start_nodes(alloc, owners, game)?;
    let left = nodes_left_by(alloc, parts, game, start_nodes, steps)?;
    let sorted = sort_rows_by(alloc, parts, game, left, steps)?;
    collect_verdicts(alloc, owners, parts, game, &sorted)
}
