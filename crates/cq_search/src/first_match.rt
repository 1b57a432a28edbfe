//! The search up to the first match, batch by batch.
ghost use Rattle.std.specs.Prelude.{IfOk};
ghost use Rattle.std.specs.Fn.{FnReturnsAt};
ghost use Rattle.std.specs.Thread.{IsSync};
ghost use Rattle.pgn_batches.specs.declared.batch.Batch.{Batch};
ghost use Rattle.cq_shards.specs.FirstMatch.{AnswersUpToFirst};
ghost use Rattle.cq_shards.specs.PlanQuery.{query_in};
ghost use Rattle.cq_search.specs.FirstGame.{first_texts};
ghost use Rattle.cq_search.specs.Promise.{AnswerPromise};
ghost use Rattle.cq_query_files.specs.Views.{source_view, sink_view, sinks_of};
ghost use Rattle.cq_search.specs.Internal.Visits.{FirstStopped, FoundNone, HasVisited};
ghost use Rattle.cq_search.specs.Internal.Writing.{search_state};

use crate::batch_refusal::status_of;
use crate::laws::archives_come_in_batches;
use crate::output::{write_answers, write_summary};
use crate::run_context::RunContext;
use crate::tally::Tally;
use cq_common::{NoMemory, Refusal};
use cq_outside::{Gate, Sink, Source};
use cq_query_files::Status;
use cq_shards::{GameAnswer, run_first};
use cql_plan::Plan;
use pgn_batches::{Batch, BatchVisitor, VisitEnd, visit_batches};
use std::alloc::Global;
use std::thread::Threads;

/// A visitor that searches one batch after the other for the query of `plan`, up to the first game that matches. It then writes the last
/// line of the report.
#[derive(Drop)]
struct UpToFirst<'a, F> {
    alloc: Global,
    plan: &'a Plan,
    answer: F,
    tally: Tally,
    kept: Vec<GameAnswer>,
}

impl<'a, F: Fn(&Batch) -> Result<Vec<GameAnswer>, NoMemory>, O: Sink, E: Sink> BatchVisitor<O, E>
    for UpToFirst<'a, F> {
    type Stop = Status;

    ghost has_taken = { λ was now games. (F.IsAlwaysCallable now.visitor.answer
        × ((batch : Batch) (r : _) → FnReturnsAt F.Fn now.visitor.answer batch r
        → IfOk r (λ answers. AnswersUpToFirst (query_in now.visitor.plan.now) batch answers.items)))
        × HasVisited (query_in was.visitor.plan.now) (query_in now.visitor.plan.now) games
        (FoundNone (query_in was.visitor.plan.now)
        (sinks_of (sink_view O.taken O.faults was.out) (sink_view O.taken O.faults now.out)
        (sink_view E.taken E.faults was.err) (sink_view E.taken E.faults now.err)) (search_state now.visitor.tally now.visitor.kept.items)) };

    ghost has_stopped = { λ was now games batch status. FirstStopped (query_in was.visitor.plan.now)
        (sinks_of (sink_view O.taken O.faults was.out) (sink_view O.taken O.faults now.out)
        (sink_view E.taken E.faults was.err) (sink_view E.taken E.faults now.err)) status games batch };

    fn visit(&mut self, batch: &Batch, out: &mut O, err: &mut E) -> Option<Status> {
        archives_come_in_batches();
        let Ok(answers) = (self.answer)(batch) else {
            return Some(Status::NoMemory);
        };
        let (tally, kept) = (&mut self.tally, &mut self.kept);
        match write_answers(self.alloc, false, answers, tally, kept, out, err) {
            Ok(()) => {}
            Err(Refusal::Fault(_)) => return Some(Status::WriteFault),
            Err(Refusal::NoMemory) => return Some(Status::NoMemory),
        }
        if self.tally.matched == 0 {
            return None;
        }
        Some(write_summary(self.alloc, self.tally, err))
    }
}

/// Searches the archive that `source` has left for the query of a plan, up to the first game that matches. The texts of a batch are written
/// before the next batch is read. No batch is read after that of the first match.
pub fn search_first_match<R: Threads + Sync, S: Source, O: Sink, E: Sink, G: Gate + Sync>(
    context: &RunContext<'_, R, G>,
    plan: &Plan,
    source: &mut S,
    out: &mut O,
    err: &mut E,
) -> Status
    ensures answers { AnswerPromise (first_texts (query_in plan.now)) result (record {
      limit = context.now.settings.limit;
      source = source_view S.left S.faults source.old;
      source_after = source_view S.left S.faults source.new;
      sinks = sinks_of (sink_view O.taken O.faults out.old) (sink_view O.taken O.faults out.new)
          (sink_view E.taken E.faults err.old) (sink_view E.taken E.faults err.new);
    }) }
    ensures next { S.follows source.old source.new }
{
    archives_come_in_batches();
    let mut visitor = UpToFirst {
        alloc: context.alloc,
        plan,
        answer: |batch: &Batch| -> Result<Vec<GameAnswer>, NoMemory>
            requires { IsSync R.row × IsSync G.row }
            ensures { IfOk result (λ answers. AnswersUpToFirst (query_in plan.entry.now) batch.now answers.items) }
        { first_answers(context, plan, batch) },
        tally: Tally {
            games: 0,
            matched: 0,
            refused: 0,
        },
        kept: Vec::new(context.alloc),
    };
    match visit_batches(
        context.alloc,
        context.settings.limit,
        source,
        &mut visitor,
        out,
        err,
    ) {
        Ok(VisitEnd::All(_)) => write_summary(context.alloc, visitor.tally, err),
        Ok(VisitEnd::Early(status)) => status,
        Err(refusal) => status_of(refusal),
    }
}

// Returns the answers of the games of a batch up to the first that matches, in the order of the games.
fn first_answers<R: Threads + Sync, G: Gate + Sync>(
    context: &RunContext<'_, R, G>,
    plan: &Plan,
    batch: &Batch,
) -> Result<Vec<GameAnswer>, NoMemory>
    ensures { IfOk result (λ answers. AnswersUpToFirst (query_in plan.now) batch.now answers.items) }
{
    let workers = context.settings.workers;
    run_first(
        context.rt,
        context.alloc,
        plan,
        batch,
        workers,
        context.gate,
    )
}
