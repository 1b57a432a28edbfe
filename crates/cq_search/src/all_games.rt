//! The search of all games, batch by batch.
ghost use Rattle.std.specs.Prelude.{◌++◌, IfOk};
ghost use Rattle.std.specs.Fn.{FnReturnsAt};
ghost use Rattle.std.specs.Thread.{IsSync};
ghost use Rattle.pgn_batches.specs.declared.batch.Batch.{Batch};
ghost use Rattle.cq_shards.specs.Answers.{AnswersBatch};
ghost use Rattle.cq_shards.specs.PlanQuery.{query_in};
ghost use Rattle.cq_search.specs.AllGames.{texts_of, texts_so_far};
ghost use Rattle.cq_search.specs.Promise.{AnswerPromise};
ghost use Rattle.cq_query_files.specs.Views.{source_view, sink_view, sinks_of};
ghost use Rattle.cq_search.specs.Internal.Visits.{HaveReadResults, StopsIn, HasVisited, task_of};
ghost use Rattle.cq_search.specs.Internal.Writing.{FoundSoFar, search_state};

use crate::batch_refusal::status_of;
use crate::laws::archives_come_in_batches;
use crate::output::{has_sort_item, write_answers, write_sorted_and_summary};
use crate::run_context::RunContext;
use crate::tally::Tally;
use cq_common::{NoMemory, Refusal};
use cq_outside::{Gate, Sink, Source};
use cq_query_files::Status;
use cq_shards::laws::ordered_answers_stand_beside_their_games;
use cq_shards::{GameAnswer, in_order, run_batch};
use cql_plan::Plan;
use pgn_batches::{Batch, BatchVisitor, VisitEnd, visit_batches};
use std::alloc::Global;
use std::thread::Threads;

/// A visitor that searches one batch after the other for the query of `plan`, and writes all that is due before all games were searched.
/// The answers of a batch come from the closure `answer`. The function that makes it states what its workers may share. A method of a trait
/// can't use the bounds of its block for a value that it sends to a thread.
#[derive(Drop)]
struct AllGames<'a, F> {
    alloc: Global,
    plan: &'a Plan,
    answer: F,
    sorted: bool,
    tally: Tally,
    kept: Vec<GameAnswer>,
}

impl<'a, F: Fn(&Batch) -> Result<Vec<GameAnswer>, NoMemory>, O: Sink, E: Sink> BatchVisitor<O, E>
    for AllGames<'a, F> {
    type Stop = Status;

    ghost has_taken = { λ was now games. (F.IsAlwaysCallable now.visitor.answer
        × ((batch : Batch) (r : _) → FnReturnsAt F.Fn now.visitor.answer batch r
        → IfOk r (λ answers. AnswersBatch (query_in now.visitor.plan.now) batch answers.items))) × HasVisited
        (task_of (query_in was.visitor.plan.now) was.visitor.sorted) (task_of (query_in now.visitor.plan.now) now.visitor.sorted) games
        (λ outcomes. FoundSoFar was.visitor.sorted (query_in was.visitor.plan.now) outcomes
        (sinks_of (sink_view O.taken O.faults was.out) (sink_view O.taken O.faults now.out)
        (sink_view E.taken E.faults was.err) (sink_view E.taken E.faults now.err)) (search_state now.visitor.tally now.visitor.kept.items)) };

    ghost has_stopped = { λ was now games batch status. HaveReadResults (games ++ batch) (λ outcomes.
        StopsIn (texts_so_far was.visitor.sorted (query_in was.visitor.plan.now) outcomes)
        (sinks_of (sink_view O.taken O.faults was.out) (sink_view O.taken O.faults now.out)
        (sink_view E.taken E.faults was.err) (sink_view E.taken E.faults now.err)) status) };

    fn visit(&mut self, batch: &Batch, out: &mut O, err: &mut E) -> Option<Status> {
        archives_come_in_batches();
        let Ok(answers) = (self.answer)(batch) else {
            return Some(Status::NoMemory);
        };
        let (tally, kept) = (&mut self.tally, &mut self.kept);
        match write_answers(self.alloc, self.sorted, answers, tally, kept, out, err) {
            Ok(()) => None,
            Err(Refusal::Fault(_)) => Some(Status::WriteFault),
            Err(Refusal::NoMemory) => Some(Status::NoMemory),
        }
    }
}

/// Searches the archive that `source` has left for the query of a plan, one batch after the other. The texts of a batch are written before
/// the next batch is read.
pub fn search_all_games<R: Threads + Sync, S: Source, O: Sink, E: Sink, G: Gate + Sync>(
    context: &RunContext<'_, R, G>,
    plan: &Plan,
    source: &mut S,
    out: &mut O,
    err: &mut E,
) -> Status
    ensures answers { AnswerPromise (texts_of (query_in plan.now)) result (record {
      limit = context.now.settings.limit;
      source = source_view S.left S.faults source.old;
      source_after = source_view S.left S.faults source.new;
      sinks = sinks_of (sink_view O.taken O.faults out.old) (sink_view O.taken O.faults out.new)
          (sink_view E.taken E.faults err.old) (sink_view E.taken E.faults err.new);
    }) }
    ensures next { S.follows source.old source.new }
{
    archives_come_in_batches();
    let sorted = has_sort_item(plan);
    let mut visitor = AllGames {
        alloc: context.alloc,
        plan,
        answer: |batch: &Batch| -> Result<Vec<GameAnswer>, NoMemory>
            requires { IsSync R.row × IsSync G.row }
            ensures { IfOk result (λ answers. AnswersBatch (query_in plan.entry.now) batch.now answers.items) }
        { batch_answers(context, plan, batch) },
        sorted,
        tally: Tally {
            games: 0,
            matched: 0,
            refused: 0,
        },
        kept: Vec::new(context.alloc),
    };
    match visit_batches(
        context.alloc,
        context.settings.limit,
        source,
        &mut visitor,
        out,
        err,
    ) {
        Ok(VisitEnd::All(_)) => write_sorted_and_summary(
            context.alloc,
            plan,
            visitor.tally,
            visitor.kept,
            out,
            err,
        ),
        Ok(VisitEnd::Early(status)) => status,
        Err(refusal) => status_of(refusal),
    }
}

/// Returns the answers of the games of a batch, in the order of the games.
///
/// # Errors
///
/// `NoMemory`: out of memory.
pub fn batch_answers<R: Threads + Sync, G: Gate + Sync>(
    context: &RunContext<'_, R, G>,
    plan: &Plan,
    batch: &Batch,
) -> Result<Vec<GameAnswer>, NoMemory>
    ensures { IfOk result (λ answers. AnswersBatch (query_in plan.now) batch.now answers.items) }
{
    ordered_answers_stand_beside_their_games();
    let workers = context.settings.workers;
    let answers = run_batch(
        context.rt,
        context.alloc,
        plan,
        batch,
        workers,
        context.gate,
    )?;
    in_order(context.alloc, answers)
}
