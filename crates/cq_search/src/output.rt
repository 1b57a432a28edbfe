//! The texts of one query over an archive. The line of a faulty game is written once its batch was searched. So is an export if the query
//! has no sort item. With one the games that match are kept, and written in order once all games were searched.
ghost use Rattle.std.specs.Prelude.{◌≡◌, ◌+◌, ◌++◌, ◌<◌, ◌≤◌, ◌^◌, Bool, List, length};
ghost use Rattle.cql_syntax.specs.Trees.{QueryTree};
ghost use Rattle.cq_shards.specs.Answers.{answer_of, answers_from};
ghost use Rattle.cq_shards.specs.PlanQuery.{query_in};
ghost use Rattle.cq_shards.specs.ReadResults.{ReadResult};
ghost use Rattle.cq_search.specs.Sorts.{have_sort as some_sort};
ghost use Rattle.cq_search.specs.AllGames.{texts_of};
ghost use Rattle.cq_search.specs.Exports.{exports_of};
ghost use Rattle.cq_query_files.specs.Views.{SinkView, sink_view, sinks_of};
ghost use Rattle.cq_search.specs.Internal.Writing.{AnswersGame, AnswersSome, FoundSoFar, search_state, WritesAnswer};
ghost use Rattle.cq_search.specs.Internal.Writing.{WritesFault, WritesKept, WritesLast, WritesSummary, WritesText};

use crate::sorts::have_sort;
use crate::tally::Tally;
use cq_common::{Failed, NoMemory, Refusal};
use cq_outside::{Sink, write_all_of};
use cq_query_files::Status;
use cq_report::{fault_line, summary_line};
use cq_shards::{Answer, GameAnswer, by_keys};
use cql_plan::Plan;
use pgn_reader::GameFault;
use std::alloc::Global;

/// Writes the rest of the texts once all games were searched: the matches that were kept, and the last line of the report.
pub fn write_sorted_and_summary<O: Sink, E: Sink>(
    alloc: Global,
    plan: &Plan,
    tally: Tally,
    kept: Vec<GameAnswer>,
    out: &mut O,
    err: &mut E,
) -> Status
    ensures { (outcomes : List ReadResult) (sorted : Bool) (first : SinkView) (second : SinkView)
        → some_sort (query_in plan.now).items ≡ sorted
        → FoundSoFar sorted (query_in plan.now) outcomes
        (sinks_of first (sink_view O.taken O.faults out.old) second (sink_view E.taken E.faults err.old)) (search_state tally kept.items)
        → WritesAnswer (texts_of (query_in plan.now)) outcomes
        (sinks_of first (sink_view O.taken O.faults out.new) second (sink_view E.taken E.faults err.new)) result }
{
    match write_kept(alloc, plan, kept, out) {
        Ok(()) => write_summary(alloc, tally, err),
        Err(Refusal::Fault(_)) => Status::WriteFault,
        Err(Refusal::NoMemory) => Status::NoMemory,
    }
}

/// Returns true if the query of a plan has a sort item.
pub fn has_sort_item(plan: &Plan) -> bool
    ensures { result ≡ some_sort (query_in plan.now).items }
{
    have_sort(&plan.query().query.items)
}

// Writes the matches that were kept, in the order of the query.
fn write_kept<O: Sink>(
    alloc: Global,
    plan: &Plan,
    kept: Vec<GameAnswer>,
    out: &mut O,
) -> Result<(), Refusal<Failed>>
    ensures { WritesKept (query_in plan.now) kept.items
        (sink_view O.taken O.faults out.old) (sink_view O.taken O.faults out.new) result }
{
    let ordered = by_keys(alloc, kept, &plan.query().query)?;
    write_texts(ordered.as_slice(), out)
}

/// Writes the exports of answers, one after the other.
///
/// # Errors
///
/// - `Fault`: a write failed, and the count of `out` rose. A prefix of the exports was taken.
/// - `NoMemory`: never returned.
pub fn write_texts<O: Sink>(answers: &[GameAnswer], out: &mut O) -> Result<(), Refusal<Failed>>
    ensures { WritesText (exports_of answers.now)
        (sink_view O.taken O.faults out.old) (sink_view O.taken O.faults out.new) result }
{
    for i in 0..answers.len() {
        match write_all_of(out, answers[i].text()) {
            Ok(()) => {}
            Err(failed) => return Err(Refusal::Fault(failed)),
        }
    }
    Ok(())
}

/// Writes the last line of the report.
pub fn write_summary<E: Sink>(alloc: Global, tally: Tally, err: &mut E) -> Status
    ensures { WritesSummary tally (sink_view E.taken E.faults err.old) (sink_view E.taken E.faults err.new) result }
{
    let Ok(line) = summary_line(alloc, tally.games, tally.matched, tally.refused) else {
        return Status::NoMemory;
    };
    write_report_end(line.as_slice(), tally.refused, err)
}

/// Writes the last text of a report with so many faulty games.
pub fn write_report_end<E: Sink>(text: &[u8], refused: u64, err: &mut E) -> Status
    ensures { WritesLast text.now refused (sink_view E.taken E.faults err.old) (sink_view E.taken E.faults err.new) result }
{
    match write_all_of(err, text) {
        Ok(()) if refused == 0 => Status::Done,
        Ok(()) => Status::DoneWithRefusals,
        Err(_) => Status::WriteFault,
    }
}

/// Counts the answers of the next games, and writes or keeps them.
///
/// # Errors
///
/// - `Fault`: a write failed, and the count of one sink rose. Each sink has taken a prefix of its text.
/// - `NoMemory`: out of memory, and no count rose. Each sink has taken a prefix of its text.
pub fn write_answers<O: Sink, E: Sink>(
    alloc: Global,
    sorted: bool,
    answers: Vec<GameAnswer>,
    tally: &mut Tally,
    kept: &mut Vec<GameAnswer>,
    out: &mut O,
    err: &mut E,
) -> Result<(), Refusal<Failed>>
    requires games { tally.old.games + length answers.items < 2 ^ 63 }
    requires matched { tally.old.matched ≤ tally.old.games }
    requires refused { tally.old.refused ≤ tally.old.games }
    ensures { (query : QueryTree) (before : List ReadResult) (outcomes : List ReadResult) (first : SinkView) (second : SinkView)
        → answers.items ≡ answers_from query (length before) outcomes
        → FoundSoFar sorted query before
        (sinks_of first (sink_view O.taken O.faults out.old) second (sink_view E.taken E.faults err.old))
        (search_state tally.old kept.old.items)
        → AnswersSome sorted query (before ++ outcomes)
        (sinks_of first (sink_view O.taken O.faults out.new) second (sink_view E.taken E.faults err.new))
        (search_state tally.new kept.new.items) result }
{
    for answer in answers {
        match write_answer(alloc, sorted, answer, tally, kept, out, err) {
            Ok(()) => {}
            Err(Refusal::Fault(failed)) => return Err(Refusal::Fault(failed)),
            Err(Refusal::NoMemory) => return Err(Refusal::NoMemory),
        }
    }
    Ok(())
}

// Counts the answer of one game, and writes or keeps it. If out of memory, nothing of the game is written.
fn write_answer<O: Sink, E: Sink>(
    alloc: Global,
    sorted: bool,
    answer: GameAnswer,
    tally: &mut Tally,
    kept: &mut Vec<GameAnswer>,
    out: &mut O,
    err: &mut E,
) -> Result<(), Refusal<Failed>>
    requires games { tally.old.games < 2 ^ 63 }
    requires matched { tally.old.matched ≤ tally.old.games }
    requires refused { tally.old.refused ≤ tally.old.games }
    ensures answers { (query : QueryTree) (outcome : ReadResult) → answer ≡ answer_of query tally.old.games outcome
        → AnswersGame sorted query outcome (search_state tally.old kept.old.items) (search_state tally.new kept.new.items)
        (sinks_of (sink_view O.taken O.faults out.old) (sink_view O.taken O.faults out.new)
        (sink_view E.taken E.faults err.old) (sink_view E.taken E.faults err.new)) result }
    ensures games { tally.new.games ≡ tally.old.games + 1 }
    ensures matched { tally.new.matched ≤ tally.new.games }
    ensures refused { tally.new.refused ≤ tally.new.games }
{
    tally.games += 1;
    match &answer.what {
        Answer::Miss => return Ok(()),
        Answer::Refused(fault) => {
            tally.refused += 1;
            return write_fault(alloc, fault, tally.games, err);
        }
        Answer::Match { text, .. } => {
            tally.matched += 1;
            if !sorted {
                return write_to(out, text.as_slice());
            }
        }
    }
    kept.push(answer)?;
    Ok(())
}

// Writes the line of a faulty game.
fn write_fault<E: Sink>(
    alloc: Global,
    fault: &GameFault,
    number: u64,
    err: &mut E,
) -> Result<(), Refusal<Failed>>
    ensures { WritesFault number fault.now (sink_view E.taken E.faults err.old) (sink_view E.taken E.faults err.new) result }
{
    let line = fault_line(alloc, number, fault)?;
    write_to(err, line.as_slice())
}

/// Writes all of a text.
///
/// # Errors
///
/// - `Fault`: a write failed, and the count of the sink rose. A prefix of the text was taken.
/// - `NoMemory`: never returned.
pub fn write_to<S: Sink>(sink: &mut S, text: &[u8]) -> Result<(), Refusal<Failed>>
    ensures { WritesText text.now (sink_view S.taken S.faults sink.old) (sink_view S.taken S.faults sink.new) result }
{
    match write_all_of(sink, text) {
        Ok(()) => Ok(()),
        Err(failed) => Err(Refusal::Fault(failed)),
    }
}
