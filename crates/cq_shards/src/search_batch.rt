//! The answers of one query to a batch.
ghost use Rattle.std.specs.Prelude.{◌≤◌, length, IfOk};
ghost use Rattle.pgn_batches.specs.Games.{games_of};
ghost use Rattle.cq_shards.specs.Answers.{AreAnswersOf};
ghost use Rattle.cq_shards.specs.Internal.WorkerAnswers.{HasAnswered};

use crate::answers::GameAnswer;
use crate::matcher::Matcher;
use crate::search_game::search_game;
use cq_common::NoMemory;
use cq_outside::Gate;
use cq_workers::{GameTask, run_workers, unit_states};
use pgn_batches::Batch;
use std::alloc::Global;
use std::thread::Threads;

/// The task that makes the answer of each game of a batch.
#[derive(Drop)]
struct AnswerTask<'a, A, G> {
    matcher: &'a A,
    batch: &'a Batch,
    gate: &'a G,
}

impl<'a, A: Matcher, G: Gate> GameTask for AnswerTask<'a, A, G> {
    type Output = GameAnswer;

    type State = ();

    ghost games = { λ task. length (games_of task.batch.now) };

    ghost has_outputs = { λ task _ numbers answers. HasAnswered (A.query task.matcher.now) task.batch.now numbers answers };

    fn len(&self) -> u64 {
        u64::from(self.batch.len())
    }

    fn make(
        &self,
        alloc: Global,
        me: u64,
        number: u64,
        _kept: &mut (),
    ) -> Result<Option<GameAnswer>, NoMemory> {
        self.gate.enter(me, number);
        let answer = search_game(alloc, self.matcher, self.batch, number)?;
        self.gate.leave(me, number, answer.text());
        Ok(Some(answer))
    }
}

/// The answers of the games of a batch, each game's once, in any order. The workers, from 1 to 64, draw the games one by one. The
/// worker that drew a game enters it at the gate before it is read, and leaves it with its export once its answer is made. If a thread
/// can't be started, the call doesn't fail: this thread does that worker's work, after that of the later workers.
///
/// # Errors
///
/// `NoMemory` if a worker, or the call itself, is out of memory; there are no answers then.
pub fn search_batch<R: Threads + Sync, A: Matcher + Sync, G: Gate + Sync>(
    rt: &R,
    alloc: Global,
    matcher: &A,
    batch: &Batch,
    workers: u32,
    gate: &G,
) -> Result<Vec<GameAnswer>, NoMemory>
    requires { (1 ≤ workers) × (workers ≤ 64) }
    ensures { IfOk result (λ answers. AreAnswersOf (A.query matcher.now) batch.now answers.items) }
{
    let task = AnswerTask {
        matcher,
        batch,
        gate,
    };
    let kept = unit_states(alloc, workers)?;
    let (_, answers) = run_workers(rt, alloc, &task, kept)?;
    Ok(answers)
}
