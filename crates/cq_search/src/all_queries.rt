//! The search for several queries over one reading of an archive.
ghost use Rattle.std.specs.Prelude.{◌≡◌, ◌++◌, ◌≤◌, ◌^◌, false, length, map, IfOk};
ghost use Rattle.std.specs.Fn.{FnReturnsAt};
ghost use Rattle.std.specs.Thread.{IsSync};
ghost use Rattle.pgn_batches.specs.declared.batch.Batch.{Batch};
ghost use Rattle.cql_syntax.specs.QueryTrees.{trees_of};
ghost use Rattle.cq_shared.specs.Plans.{queries_of};
ghost use Rattle.cq_shards.specs.Many.{AreManyOf, answers_in};
ghost use Rattle.cq_search.specs.ManyQueries.{faults_alone, texts_of_all};
ghost use Rattle.cq_search.specs.Internal.ManyWriting.{FoundByAll};
ghost use Rattle.cq_search.specs.Promise.{AnswerPromise};
ghost use Rattle.cq_query_files.specs.Views.{source_view, sink_view, sinks_of};
ghost use Rattle.cq_search.specs.Internal.Visits.{HaveReadResults, StopsIn, HasVisited};

use crate::batch_refusal::status_of;
use crate::keeping::{collect_matches, empty_match_lists};
use crate::laws::archives_come_in_batches;
use crate::outputs::write_outputs;
use crate::run_context::RunContext;
use crate::tally::Tally;
use cq_common::{NoMemory, Refusal};
use cq_outside::{Gate, Sink, Source};
use cq_query_files::Status;
use cq_shards::laws::ordered_answers_stand_beside_their_games;
use cq_shards::{GameAnswer, ManyAnswers, run_many};
use cq_shared::SharedPlan;
use cq_words::Settings;
use cql_syntax::TypedQuery;
use pgn_batches::{Batch, BatchVisitor, VisitEnd, visit_batches};
use std::alloc::Global;
use std::thread::Threads;

/// A visitor that searches one batch after the other for the queries of `plan`. It writes the lines of the faulty games, and keeps the
/// games that match.
#[derive(Drop)]
struct AllQueries<'a, F> {
    alloc: Global,
    plan: &'a SharedPlan,
    answer: F,
    tally: Tally,
    kept: Vec<Vec<GameAnswer>>,
    ghost few: { (1 ≤ length (trees_of (queries_of plan.now))) × (length (trees_of (queries_of plan.now)) ≤ 16) },
}

impl<'a, F: Fn(&Batch) -> Result<ManyAnswers, NoMemory>, O: Sink, E: Sink> BatchVisitor<O, E>
    for AllQueries<'a, F> {
    type Stop = Status;

    ghost has_taken = { λ was now games. (F.IsAlwaysCallable now.visitor.answer
        × ((batch : Batch) (r : _) → FnReturnsAt F.Fn now.visitor.answer batch r
        → IfOk r (λ many. AreManyOf (trees_of (queries_of now.visitor.plan.now)) batch (answers_in many)))) × HasVisited
        (trees_of (queries_of was.visitor.plan.now)) (trees_of (queries_of now.visitor.plan.now)) games
        (λ outcomes. FoundByAll (trees_of (queries_of was.visitor.plan.now)) outcomes
        (sinks_of (sink_view O.taken O.faults was.out) (sink_view O.taken O.faults now.out)
        (sink_view E.taken E.faults was.err) (sink_view E.taken E.faults now.err))
        now.visitor.tally (map (λ row. row.items) now.visitor.kept.items)) };

    ghost has_stopped = { λ was now games batch status. HaveReadResults (games ++ batch) (λ outcomes. StopsIn (faults_alone outcomes)
        (sinks_of (sink_view O.taken O.faults was.out) (sink_view O.taken O.faults now.out)
        (sink_view E.taken E.faults was.err) (sink_view E.taken E.faults now.err)) status) };

    fn visit(&mut self, batch: &Batch, out: &mut O, err: &mut E) -> Option<Status> {
        archives_come_in_batches();
        ordered_answers_stand_beside_their_games();
        let Ok(answers) = (self.answer)(batch) else {
            return Some(Status::NoMemory);
        };
        match collect_matches(
            self.alloc,
            answers,
            &mut self.tally,
            &mut self.kept,
            out,
            err,
        ) {
            Ok(()) => None,
            Err(Refusal::Fault(_)) => Some(Status::WriteFault),
            Err(Refusal::NoMemory) => Some(Status::NoMemory),
        }
    }
}

/// Searches the archive that `source` has left for 1 to 16 queries, in one reading, batch by batch, as `answer` reads it. The games of each
/// batch are searched by `settings.workers` workers, from 1 to 64, in threads of `rt`. At most the first `settings.limit` bytes are
/// searched, from 1 to 2^40. All these ranges are conditions, and so is that `settings.first` is false.
///
/// The fault lines of a batch are written before the next batch is read. The games that match are kept until all games were searched. Then
/// `out` takes for each query, in order, the line `query I bytes W`, and after it its exports, as `answer` writes them for it alone. I is
/// the number of the query, from 1, and W the length of its exports. After that `err` takes the last line of each query's report, in order.
///
/// Returns:
/// - `Done` or `DoneWithRefusals`: both sinks have taken all, and no game is faulty, or some.
/// - `ReadFault`: a read failed, and no other count rose. The fault lines of the batches that were full by then are written, and nothing to
///   `out`.
/// - `ArchiveTooLong`: one byte more than the limit was read, and no count rose. As much is written as after a failed read.
/// - `WriteFault`: a write to one sink failed, and no other count rose. Each sink has taken a prefix of its text.
/// - `NoMemory`: out of memory, and no count rose. Each sink has taken a prefix of its text.
///
/// The clause `AnswerPromise` defines each of these exactly; no other status is returned.
pub fn answer_many<R: Threads + Sync, S: Source, O: Sink, E: Sink, G: Gate + Sync>(
    rt: &R,
    alloc: Global,
    queries: &[TypedQuery],
    settings: Settings,
    source: &mut S,
    out: &mut O,
    err: &mut E,
    gate: &G,
) -> Status
    requires few { (1 ≤ length queries.now) × (length queries.now ≤ 16) }
    requires workers { (1 ≤ settings.workers) × (settings.workers ≤ 64) }
    requires limit { (1 ≤ settings.limit) × (settings.limit ≤ 2 ^ 40) }
    requires all { settings.first ≡ false }
    ensures answers { AnswerPromise (texts_of_all (trees_of queries.now)) result (record {
      limit = settings.limit;
      source = source_view S.left S.faults source.old;
      source_after = source_view S.left S.faults source.new;
      sinks = sinks_of (sink_view O.taken O.faults out.old) (sink_view O.taken O.faults out.new)
          (sink_view E.taken E.faults err.old) (sink_view E.taken E.faults err.new);
    }) }
    ensures next { S.follows source.old source.new }
{
    let context = RunContext::new(rt, alloc, settings, gate);
    search_archive_many(&context, queries, source, out, err)
}

/// Searches an archive for 1 to 16 queries as `answer_many` does, with the same statuses, by the workers and the limit of a context. All
/// games are searched, whatever `first` is in its settings.
pub fn search_archive_many<R: Threads + Sync, S: Source, O: Sink, E: Sink, G: Gate + Sync>(
    context: &RunContext<'_, R, G>,
    queries: &[TypedQuery],
    source: &mut S,
    out: &mut O,
    err: &mut E,
) -> Status
    requires { (1 ≤ length queries.now) × (length queries.now ≤ 16) }
    ensures answers { AnswerPromise (texts_of_all (trees_of queries.now)) result (record {
      limit = context.now.settings.limit;
      source = source_view S.left S.faults source.old;
      source_after = source_view S.left S.faults source.new;
      sinks = sinks_of (sink_view O.taken O.faults out.old) (sink_view O.taken O.faults out.new)
          (sink_view E.taken E.faults err.old) (sink_view E.taken E.faults err.new);
    }) }
    ensures next { S.follows source.old source.new }
{
    archives_come_in_batches();
    let Ok(plan) = SharedPlan::make(context.alloc, queries) else {
        return Status::NoMemory;
    };
    search_all_queries(context, &plan, source, out, err)
}

// Searches one batch after the other for the queries of a plan. The texts of a batch are written before the next batch is read.
fn search_all_queries<R: Threads + Sync, S: Source, O: Sink, E: Sink, G: Gate + Sync>(
    context: &RunContext<'_, R, G>,
    plan: &SharedPlan,
    source: &mut S,
    out: &mut O,
    err: &mut E,
) -> Status
    requires { (1 ≤ length (trees_of (queries_of plan.now))) × (length (trees_of (queries_of plan.now)) ≤ 16) }
    ensures answers { AnswerPromise (texts_of_all (trees_of (queries_of plan.now))) result (record {
      limit = context.now.settings.limit;
      source = source_view S.left S.faults source.old;
      source_after = source_view S.left S.faults source.new;
      sinks = sinks_of (sink_view O.taken O.faults out.old) (sink_view O.taken O.faults out.new)
          (sink_view E.taken E.faults err.old) (sink_view E.taken E.faults err.new);
    }) }
    ensures next { S.follows source.old source.new }
{
    archives_come_in_batches();
    let Ok(kept) = empty_match_lists(context.alloc, plan.len()) else {
        return Status::NoMemory;
    };
    let mut visitor = AllQueries {
        alloc: context.alloc,
        plan,
        answer: |batch: &Batch| -> Result<ManyAnswers, NoMemory>
            requires { IsSync R.row × IsSync G.row }
            ensures { IfOk result (λ many. AreManyOf (trees_of (queries_of plan.entry.now)) batch.now (answers_in many)) }
        { many_answers(context, plan, batch) },
        tally: Tally {
            games: 0,
            matched: 0,
            refused: 0,
        },
        kept,
    };
    match visit_batches(
        context.alloc,
        context.settings.limit,
        source,
        &mut visitor,
        out,
        err,
    ) {
        Ok(VisitEnd::All(_)) => write_outputs(
            context.alloc,
            plan,
            visitor.tally,
            visitor.kept,
            out,
            err,
        ),
        Ok(VisitEnd::Early(status)) => status,
        Err(refusal) => status_of(refusal),
    }
}

// Returns the answers of the games of a batch, for each query of a plan.
fn many_answers<R: Threads + Sync, G: Gate + Sync>(
    context: &RunContext<'_, R, G>,
    plan: &SharedPlan,
    batch: &Batch,
) -> Result<ManyAnswers, NoMemory>
    ensures { IfOk result (λ many. AreManyOf (trees_of (queries_of plan.now)) batch.now (answers_in many)) }
{
    let workers = context.settings.workers;
    run_many(
        context.rt,
        context.alloc,
        plan,
        batch,
        workers,
        context.gate,
    )
}
