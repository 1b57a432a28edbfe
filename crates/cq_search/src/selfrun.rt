//! The search of a made archive. The exports are not written, but their bytes are counted.
ghost use Rattle.std.specs.Prelude.{◌≡◌, ◌+◌, ◌*◌, ◌<◌, ◌≤◌, ◌^◌, ◌++◌, [], ℕ, List, length, IfOk};
ghost use Rattle.std.specs.Fn.{FnReturnsAt};
ghost use Rattle.std.specs.Thread.{IsSync};
ghost use Rattle.pgn_batches.specs.declared.batch.Batch.{Batch};
ghost use Rattle.cql_syntax.specs.TreeOf.{query_tree};
ghost use Rattle.cql_syntax.specs.Trees.{QueryTree};
ghost use Rattle.cq_maker.specs.GeneratedArchive.{generated_archive};
ghost use Rattle.cq_shards.specs.Answers.{AnswersBatch, answer_of, answers_from};
ghost use Rattle.cq_shards.specs.PlanQuery.{query_in};
ghost use Rattle.cq_shards.specs.ReadResults.{ReadResult};
ghost use Rattle.cq_query_files.specs.Views.{SinkView, sink_view, sinks_of};
ghost use Rattle.cq_search.specs.SelfRun.{AreTotals, WritesGenerated, WritesTotals, totals_of};
ghost use Rattle.cq_search.specs.Internal.Visits.{HasVisited};
ghost use Rattle.cq_search.specs.Internal.Writing.{counted};

use crate::all_games::batch_answers;
use crate::laws::archives_come_in_batches;
use crate::run_context::RunContext;
use crate::tally::Tally;
use crate::totals::Totals;
use cq_common::{Bytes, NoMemory, Refusal};
use cq_maker::laws::archives_are_short;
use cq_maker::make_archive;
use cq_outside::{Gate, Sink, SureSource, write_all_of};
use cq_query_files::Status;
use cq_report::made_line;
use cq_shards::{Answer, GameAnswer};
use cql_plan::Plan;
use cql_syntax::TypedQuery;
use pgn_batches::{Batch, BatchVisitor, VisitEnd, visit_batches};
use std::alloc::Global;
use std::thread::Threads;

/// A limit that no made archive reaches, in bytes.
pub const GENERATED_LIMIT: u64 = 1 << 40;

/// Searches the archive of so many games, up to 100,000, that a seed makes. `out` takes one line with the counts.
///
/// Returns:
/// - `Done` or `DoneWithRefusals`: the line was taken, and no game is faulty, or some.
/// - `WriteFault`: a write failed, and the count of `out` rose. A prefix of the line was taken.
/// - `NoMemory`: out of memory for the archive, for the search of a game, or for the line; nothing is written.
pub fn search_generated_archive<R: Threads + Sync, O: Sink, G: Gate + Sync>(
    context: &RunContext<'_, R, G>,
    query: &TypedQuery,
    seed: u32,
    games: u32,
    out: &mut O,
) -> Status
    requires { games ≤ 100000 }
    ensures { (err : SinkView) → WritesGenerated (generated_archive seed games) (query_tree query.now.query) result
        (sinks_of (sink_view O.taken O.faults out.old) (sink_view O.taken O.faults out.new) err err) }
{
    match made_totals(context, query, seed, games) {
        Ok(totals) => write_totals(context.alloc, totals, out),
        Err(_) => Status::NoMemory,
    }
}

// Returns the totals of a query in the archive of so many games that a seed makes.
fn made_totals<R: Threads + Sync, G: Gate + Sync>(
    context: &RunContext<'_, R, G>,
    query: &TypedQuery,
    seed: u32,
    games: u32,
) -> Result<Totals, NoMemory>
    requires { games ≤ 100000 }
    ensures { IfOk result (AreTotals (query_tree query.now.query) (generated_archive seed games)) }
{
    archives_are_short();
    let plan = Plan::make(context.alloc, query)?;
    let archive = make_archive(context.alloc, seed, games)?;
    let totals = count_archive(context, &plan, archive);
    drop(plan);
    totals
}

// A visitor that searches one batch after the other for the query of `plan`, and adds up the totals.
#[derive(Drop)]
struct Counter<'a, F> {
    plan: &'a Plan,
    answer: F,
    totals: Totals,
}

impl<'a, F: Fn(&Batch) -> Result<Vec<GameAnswer>, NoMemory>> BatchVisitor<(), ()>
    for Counter<'a, F> {
    type Stop = NoMemory;

    ghost has_taken = { λ was now games. ((F.IsAlwaysCallable now.visitor.answer
        × ((batch : Batch) (r : _) → FnReturnsAt F.Fn now.visitor.answer batch r
        → IfOk r (λ answers. AnswersBatch (query_in now.visitor.plan.now) batch answers.items)))
        × (now.visitor.totals.written ≤ 2 ^ 64 * now.visitor.totals.tally.games))
        × HasVisited (query_in was.visitor.plan.now) (query_in now.visitor.plan.now) games
        (λ outcomes. now.visitor.totals ≡ totals_of (query_in was.visitor.plan.now) was.visitor.totals.bytes outcomes) };

    ghost has_stopped = { λ was now games batch stop. Unit {0} };

    fn visit(&mut self, batch: &Batch, _out: &mut (), _err: &mut ()) -> Option<NoMemory> {
        let Ok(answers) = (self.answer)(batch) else {
            return Some(NoMemory);
        };
        self.totals = count_answers(self.totals, answers);
        None
    }
}

// Returns the totals of the query of a plan in an archive within the limit, batch by batch.
fn count_archive<R: Threads + Sync, G: Gate + Sync>(
    context: &RunContext<'_, R, G>,
    plan: &Plan,
    archive: Bytes,
) -> Result<Totals, NoMemory>
    requires size { length archive ≤ 2 ^ 40 }
    ensures { IfOk result (AreTotals (query_in plan.now) archive) }
{
    archives_come_in_batches();
    let mut visitor = Counter {
        plan,
        answer: |batch: &Batch| -> Result<Vec<GameAnswer>, NoMemory>
            requires { IsSync R.row × IsSync G.row }
            ensures { IfOk result (λ answers. AnswersBatch (query_in plan.entry.now) batch.now answers.items) }
        { batch_answers(context, plan, batch) },
        totals: no_totals(archive.len() as u64),
    };
    let mut source = SureSource::new(archive);
    let (mut out, mut err) = ((), ());
    match visit_batches(
        context.alloc,
        GENERATED_LIMIT,
        &mut source,
        &mut visitor,
        &mut out,
        &mut err,
    ) {
        Ok(VisitEnd::All(_)) => Ok(visitor.totals),
        Ok(VisitEnd::Early(NoMemory)) => Err(NoMemory),
        Err(Refusal::Fault(_)) => unreachable!(),
        Err(Refusal::NoMemory) => Err(NoMemory),
    }
}

// Returns the totals of an archive of so many bytes, before the first game.
fn no_totals(bytes: u64) -> Totals
    ensures { (query : QueryTree) → result ≡ totals_of query bytes [] }
{
    Totals {
        bytes,
        tally: Tally {
            games: 0,
            matched: 0,
            refused: 0,
        },
        written: 0,
    }
}

// Returns the totals with the games of these answers, which follow those before.
fn count_answers(before: Totals, answers: Vec<GameAnswer>) -> Totals
    requires games { before.tally.games + length answers.items < 2 ^ 63 }
    requires matched { before.tally.matched ≤ before.tally.games }
    requires refused { before.tally.refused ≤ before.tally.games }
    requires written { before.written ≤ 2 ^ 64 * before.tally.games }
    ensures counts { (query : QueryTree) (bytes : ℕ) (rs qs : List ReadResult) → answers.items ≡ answers_from query (length rs) qs
        → before ≡ totals_of query bytes rs → result ≡ totals_of query bytes (rs ++ qs) }
    ensures written { result.written ≤ 2 ^ 64 * result.tally.games }
{
    let mut totals = before;
    for answer in answers {
        let after = count_answer(totals, &answer);
        totals = after;
    }
    totals
}

// Returns the totals with one game more.
fn count_answer(before: Totals, answer: &GameAnswer) -> Totals
    requires games { before.tally.games < 2 ^ 63 }
    requires matched { before.tally.matched ≤ before.tally.games }
    requires refused { before.tally.refused ≤ before.tally.games }
    requires written { before.written ≤ 2 ^ 64 * before.tally.games }
    ensures counts { (query : QueryTree) (outcome : ReadResult) (n : ℕ) → answer.now ≡ answer_of query n outcome
        → result ≡ counted query before outcome }
    ensures games { result.tally.games ≡ before.tally.games + 1 }
    ensures matched { result.tally.matched ≤ result.tally.games }
    ensures refused { result.tally.refused ≤ result.tally.games }
    ensures written { result.written ≤ 2 ^ 64 * result.tally.games }
{
    match &answer.what {
        Answer::Miss => one_more(before, 0, 0, 0),
        Answer::Refused(_) => one_more(before, 0, 1, 0),
        Answer::Match { text, .. } => one_more(before, 1, 0, text.len() as u128),
    }
}

// Returns the totals with one game more. Its matches and faults, 0 or 1, and the bytes of its export are given.
fn one_more(before: Totals, matched: u64, refused: u64, written: u128) -> Totals
    requires games { before.tally.games < 2 ^ 63 }
    requires matched { before.tally.matched + matched ≤ before.tally.games + 1 }
    requires refused { before.tally.refused + refused ≤ before.tally.games + 1 }
    requires few { before.written ≤ 2 ^ 64 * before.tally.games }
    requires written { written < 2 ^ 64 }
    ensures { result ≡ record {
      bytes = before.bytes;
      tally = record { games = before.tally.games + 1; matched = before.tally.matched + matched; refused = before.tally.refused + refused };
      written = before.written + written;
    } }
{
    Totals {
        bytes: before.bytes,
        tally: Tally {
            games: before.tally.games + 1,
            matched: before.tally.matched + matched,
            refused: before.tally.refused + refused,
        },
        written: before.written + written,
    }
}

// Writes the line of some totals.
fn write_totals<O: Sink>(alloc: Global, totals: Totals, out: &mut O) -> Status
    ensures { (err : SinkView) → WritesTotals totals result
        (sinks_of (sink_view O.taken O.faults out.old) (sink_view O.taken O.faults out.new) err err) }
{
    let tally = totals.tally;
    let Ok(line) = made_line(
        alloc,
        totals.bytes,
        tally.games,
        tally.matched,
        tally.refused,
        totals.written,
    ) else {
        return Status::NoMemory;
    };
    match write_all_of(out, line.as_slice()) {
        Ok(()) if tally.refused == 0 => Status::Done,
        Ok(()) => Status::DoneWithRefusals,
        Err(_) => Status::WriteFault,
    }
}
