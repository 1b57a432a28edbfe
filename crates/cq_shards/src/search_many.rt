//! The answers of several queries to a batch, each game of which is read once.
ghost use Rattle.std.specs.Prelude.{◌≡◌, ◌<◌, ◌≤◌, [], length, get_or, slice_set, drop, IfOk};
ghost use Rattle.pgn_batches.specs.Games.{games_of};
ghost use Rattle.cq_shards.specs.Many.{AreManyOf, answers_in};
ghost use Rattle.cq_shards.specs.Internal.GameRows.{AreRowsOf, AreSplitOff, HasMadeRows};

use crate::answers::GameAnswer;
use crate::game_rows::{GameRow, search_game_many};
use crate::matcher::MultiMatcher;
use cq_common::{NoMemory, Shared};
use cq_outside::Gate;
use cq_workers::{GameTask, run_workers, unit_states};
use pgn_batches::Batch;
use std::alloc::Global;
use std::mem;
use std::thread::Threads;

/// The answers of several queries to the games of one batch.
#[derive(Drop)]
pub struct ManyAnswers {
    alloc: Global,
    pub(crate) lists: Vec<AnswerList>,
}

impl Shared for ManyAnswers {}

/// The answers of one query.
#[derive(Drop)]
pub(crate) struct AnswerList {
    pub(crate) answers: Vec<GameAnswer>,
}

/// The task that makes a row of each game of a batch.
#[derive(Drop)]
struct RowTask<'a, A, G> {
    matcher: &'a A,
    batch: &'a Batch,
    gate: &'a G,
}

impl<'a, A: MultiMatcher, G: Gate> GameTask for RowTask<'a, A, G> {
    type Output = GameRow;

    type State = ();

    ghost games = { λ task. length (games_of task.batch.now) };

    ghost has_outputs = { λ task _ numbers rows. HasMadeRows (A.queries task.matcher.now) task.batch.now numbers rows };

    fn len(&self) -> u64 {
        u64::from(self.batch.len())
    }

    fn make(
        &self,
        alloc: Global,
        me: u64,
        number: u64,
        _kept: &mut (),
    ) -> Result<Option<GameRow>, NoMemory> {
        self.gate.enter(me, number);
        let row = search_game_many(alloc, self.matcher, self.batch, number)?;
        self.gate.leave(me, number, row.text());
        Ok(Some(row))
    }
}

impl ManyAnswers {
    /// Takes the answers of a query out, and leaves an empty list in their place. It allocates no memory.
    pub fn take(&mut self, query: u32) -> Vec<GameAnswer>
        requires { query < length (answers_in self.old) }
        ensures given { result.items ≡ get_or (answers_in self.old) query [] }
        ensures left { answers_in self.new ≡ slice_set (answers_in self.old) query [] }
    {
        let none = Vec::new(self.alloc);
        mem::replace(&mut self.lists[query as usize].answers, none)
    }
}

/// For each of several queries, the answers of the games of a batch, each game's once, in any order. The workers, from 1 to 64, draw the
/// games one by one, and each game is read once for all queries. The worker that drew a game enters it at the gate before it is read, and
/// leaves it with the first query's export once the answers are made. If a thread can't be started, the call doesn't fail: this thread
/// does that worker's work, after that of the later workers.
///
/// # Errors
///
/// `NoMemory` if a worker, or the call itself, is out of memory; there are no answers then.
pub fn search_batch_many<R: Threads + Sync, A: MultiMatcher + Sync, G: Gate + Sync>(
    rt: &R,
    alloc: Global,
    matcher: &A,
    batch: &Batch,
    workers: u32,
    gate: &G,
) -> Result<ManyAnswers, NoMemory>
    requires { (1 ≤ workers) × (workers ≤ 64) }
    ensures { IfOk result (λ many. AreManyOf (A.queries matcher.now) batch.now (answers_in many)) }
{
    let task = RowTask {
        matcher,
        batch,
        gate,
    };
    let kept = unit_states(alloc, workers)?;
    let (_, rows) = run_workers(rt, alloc, &task, kept)?;
    by_query(alloc, matcher, batch, rows)
}

// The answers in the rows, query by query.
fn by_query<A: MultiMatcher>(
    alloc: Global,
    matcher: &A,
    batch: &Batch,
    rows: Vec<GameRow>,
) -> Result<ManyAnswers, NoMemory>
    requires { AreRowsOf (A.queries matcher.now) batch.now rows.items }
    ensures { IfOk result (λ many. AreManyOf (A.queries matcher.now) batch.now (answers_in many)) }
{
    let mut rows = rows;
    let mut lists = Vec::with_capacity(alloc, matcher.len() as usize)?;
    for query in 0..matcher.len() {
        let (left, answers) = split_off_first(alloc, matcher, batch, query, rows)?;
        rows = left;
        lists.push(AnswerList { answers })?;
    }
    Ok(ManyAnswers { alloc, lists })
}

// The rows of the queries after this one, and the answers of this one.
fn split_off_first<A: MultiMatcher>(
    alloc: Global,
    matcher: &A,
    batch: &Batch,
    query: u32,
    rows: Vec<GameRow>,
) -> Result<(Vec<GameRow>, Vec<GameAnswer>), NoMemory>
    requires query { query < length (A.queries matcher.now) }
    requires rows { AreRowsOf (drop query (A.queries matcher.now)) batch.now rows.items }
    ensures { IfOk result (λ r. AreSplitOff (drop query (A.queries matcher.now)) batch.now r.0.items r.1.items) }
{
    let mut rows = rows;
    let mut left = Vec::with_capacity(alloc, rows.len())?;
    let mut answers = Vec::with_capacity(alloc, rows.len())?;
    while let Some(row) = rows.pop() {
        let index = row.index;
        let mut later = row.answers;
        let Some(answer) = later.pop() else {
            unreachable!()
        };
        answers.push(answer)?;
        left.push(GameRow {
            index,
            answers: later,
        })?;
    }
    Ok((left, answers))
}
