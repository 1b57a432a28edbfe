//! The results of plans in the games of a batch.
ghost use Rattle.std.specs.Prelude.{◌≤◌, IfOk};
ghost use Rattle.cq_shards.specs.Answers.{AreAnswersOf};
ghost use Rattle.cq_shards.specs.FirstMatch.{AnswersUpToFirst};
ghost use Rattle.cq_shards.specs.Many.{AreManyOf, answers_in};
ghost use Rattle.cql_syntax.specs.QueryTrees.{trees_of};
ghost use Rattle.cq_shared.specs.Plans.{queries_of};
ghost use Rattle.cq_shards.specs.PlanQuery.{query_in};

use crate::answers::GameAnswer;
use crate::plan_matcher::PlanMatcher;
use crate::search_batch::search_batch;
use crate::search_first::search_batch_first;
use crate::search_many::{ManyAnswers, search_batch_many};
use crate::shared_plan_matcher::SharedPlanMatcher;
use cq_common::NoMemory;
use cq_outside::Gate;
use cq_shared::SharedPlan;
use cql_plan::Plan;
use pgn_batches::Batch;
use std::alloc::Global;
use std::thread::Threads;

/// The answers of the games of a batch, each game's once, in any order. The workers, from 1 to 64, draw the games one by one. The
/// worker that drew a game enters it at the gate before it is read, and leaves it with its export once its answer is made. If a thread
/// can't be started, the call doesn't fail: this thread does that worker's work, after that of the later workers.
///
/// # Errors
///
/// `NoMemory` if a worker, or the call itself, is out of memory; there are no answers then.
pub fn run_batch<R: Threads + Sync, G: Gate + Sync>(
    rt: &R,
    alloc: Global,
    plan: &Plan,
    batch: &Batch,
    workers: u32,
    gate: &G,
) -> Result<Vec<GameAnswer>, NoMemory>
    requires { (1 ≤ workers) × (workers ≤ 64) }
    ensures { IfOk result (λ answers. AreAnswersOf (query_in plan.now) batch.now answers.items) }
{
    search_batch(rt, alloc, &PlanMatcher { plan }, batch, workers, gate)
}

/// In order, the answer of each game of a batch up to and with its first match, or of all games if none matches. The workers, from 1 to 64,
/// draw the games one by one. A worker that sees on the board a match before its game skips the game, which neither enters nor leaves the
/// gate. No clause promises when it sees a match. If a thread can't be started, the call doesn't fail: this thread does that worker's work,
/// after that of the later workers.
///
/// # Errors
///
/// `NoMemory` if a worker, or the call itself, is out of memory; there are no answers then.
pub fn run_first<R: Threads + Sync, G: Gate + Sync>(
    rt: &R,
    alloc: Global,
    plan: &Plan,
    batch: &Batch,
    workers: u32,
    gate: &G,
) -> Result<Vec<GameAnswer>, NoMemory>
    requires { (1 ≤ workers) × (workers ≤ 64) }
    ensures { IfOk result (λ answers. AnswersUpToFirst (query_in plan.now) batch.now answers.items) }
{
    search_batch_first(rt, alloc, &PlanMatcher { plan }, batch, workers, gate)
}

/// For each query of a plan, the answers of the games of a batch, each game's once, in any order. The workers, from 1 to 64, draw the games
/// one by one, and each game is read once for all queries. The worker that drew a game enters it at the gate before it is read, and leaves
/// it with the first query's export once the answers are made. If a thread can't be started, the call doesn't fail: this thread does that
/// worker's work, after that of the later workers.
///
/// # Errors
///
/// `NoMemory` if a worker, or the call itself, is out of memory; there are no answers then.
pub fn run_many<R: Threads + Sync, G: Gate + Sync>(
    rt: &R,
    alloc: Global,
    plan: &SharedPlan,
    batch: &Batch,
    workers: u32,
    gate: &G,
) -> Result<ManyAnswers, NoMemory>
    requires { (1 ≤ workers) × (workers ≤ 64) }
    ensures { IfOk result (λ many. AreManyOf (trees_of (queries_of plan.now)) batch.now (answers_in many)) }
{
    search_batch_many(rt, alloc, &SharedPlanMatcher { plan }, batch, workers, gate)
}
