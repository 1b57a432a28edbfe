//! The texts of several queries over an archive, once it was read to its end.
ghost use Rattle.std.specs.Prelude.{◌≡◌, ◌+◌, ◌≤◌, List, length, map, IfOk};
ghost use Rattle.std.specs.List.{flat_map};
ghost use Rattle.cq_report.specs.Games.{summary_line as line_of};
ghost use Rattle.cql_syntax.specs.QueryTrees.{trees_of};
ghost use Rattle.cq_shared.specs.Plans.{queries_of};
ghost use Rattle.cq_shards.specs.ReadResults.{ReadResult};
ghost use Rattle.cq_search.specs.Exports.{exports_of};
ghost use Rattle.cq_search.specs.ManyQueries.{output_of, outputs_from, texts_of_all};
ghost use Rattle.cq_search.specs.Internal.ManyWriting.{AreInOrder, FoundByAll, WritesOut};
ghost use Rattle.cq_query_files.specs.Views.{SinkView, sink_view, sinks_of};
ghost use Rattle.cq_search.specs.Internal.Writing.{WritesAnswer, WritesLast};

use crate::output::{write_report_end, write_texts, write_to};
use crate::tally::Tally;
use cq_common::{Bytes, Failed, NoMemory, Refusal};
use cq_outside::Sink;
use cq_query_files::Status;
use cq_report::{head_line, summary_line};
use cq_shards::{GameAnswer, by_keys};
use cq_shared::SharedPlan;
use std::alloc::Global;

/// Writes the rest of the texts once all games were searched: the output of each query, and the last lines of the report.
pub fn write_outputs<O: Sink, E: Sink>(
    alloc: Global,
    plan: &SharedPlan,
    tally: Tally,
    kept: Vec<Vec<GameAnswer>>,
    out: &mut O,
    err: &mut E,
) -> Status
    requires some { 1 ≤ length (queries_of plan.now) }
    requires kept { length kept.items ≡ length (queries_of plan.now) }
    ensures { (outcomes : List ReadResult) (first : SinkView) (second : SinkView)
        → FoundByAll (trees_of (queries_of plan.now)) outcomes
        (sinks_of first (sink_view O.taken O.faults out.old) second (sink_view E.taken E.faults err.old))
        tally (map (λ row. row.items) kept.items)
        → WritesAnswer (texts_of_all (trees_of (queries_of plan.now))) outcomes
        (sinks_of first (sink_view O.taken O.faults out.new) second (sink_view E.taken E.faults err.new)) result }
{
    let Ok(ordered) = all_by_keys(alloc, plan, kept) else {
        return Status::NoMemory;
    };
    match write_each(alloc, ordered.as_slice(), out) {
        Ok(()) => write_summaries(alloc, tally, ordered.as_slice(), err),
        Err(Refusal::Fault(_)) => Status::WriteFault,
        Err(Refusal::NoMemory) => Status::NoMemory,
    }
}

// Returns the matches that were kept for each query, in its order.
fn all_by_keys(
    alloc: Global,
    plan: &SharedPlan,
    kept: Vec<Vec<GameAnswer>>,
) -> Result<Vec<Vec<GameAnswer>>, NoMemory>
    requires { length kept.items ≡ length (queries_of plan.now) }
    ensures { IfOk result (λ ordered. AreInOrder (trees_of (queries_of plan.now))
        (map (λ row. row.items) kept.items) (map (λ row. row.items) ordered.items)) }
{
    let mut ordered = Vec::new(alloc);
    for matches in kept {
        let query = plan.query(ordered.len() as u32);
        ordered.push(by_keys(alloc, matches, &query.query)?)?;
    }
    Ok(ordered)
}

// Writes the output of each query.
fn write_each<O: Sink>(
    alloc: Global,
    rows: &[Vec<GameAnswer>],
    out: &mut O,
) -> Result<(), Refusal<Failed>>
    ensures { WritesOut (outputs_from 1 (map (λ row. exports_of row.items) rows.now))
        (sink_view O.taken O.faults out.old) (sink_view O.taken O.faults out.new) result }
{
    for i in 0..rows.len() {
        match write_output(alloc, i as u64 + 1, rows[i].as_slice(), out) {
            Ok(()) => {}
            Err(Refusal::Fault(failed)) => return Err(Refusal::Fault(failed)),
            Err(Refusal::NoMemory) => return Err(Refusal::NoMemory),
        }
    }
    Ok(())
}

// Writes the output of the query that has this number.
fn write_output<O: Sink>(
    alloc: Global,
    number: u64,
    answers: &[GameAnswer],
    out: &mut O,
) -> Result<(), Refusal<Failed>>
    ensures { WritesOut (output_of number (exports_of answers.now))
        (sink_view O.taken O.faults out.old) (sink_view O.taken O.faults out.new) result }
{
    let line = head_line(alloc, number, count_bytes(answers))?;
    match write_to(out, line.as_slice()) {
        Ok(()) => write_texts(answers, out),
        Err(Refusal::Fault(failed)) => Err(Refusal::Fault(failed)),
        Err(Refusal::NoMemory) => Err(Refusal::NoMemory),
    }
}

// Returns the length in bytes of the exports of answers.
fn count_bytes(answers: &[GameAnswer]) -> u128
    ensures { result ≡ length (exports_of answers.now) }
{
    let mut bytes = 0u128;
    for i in 0..answers.len() {
        bytes += answers[i].text().len() as u128;
    }
    bytes
}

// Writes the last lines of the report.
fn write_summaries<E: Sink>(
    alloc: Global,
    tally: Tally,
    rows: &[Vec<GameAnswer>],
    err: &mut E,
) -> Status
    ensures { WritesLast (flat_map (λ row. line_of tally.games (length row.items) tally.refused) rows.now) tally.refused
        (sink_view E.taken E.faults err.old) (sink_view E.taken E.faults err.new) result }
{
    let Ok(lines) = summary_lines(alloc, tally, rows) else {
        return Status::NoMemory;
    };
    write_report_end(lines.as_slice(), tally.refused, err)
}

// Returns the last lines of the report, one for each query. The matches of a query are a row.
fn summary_lines(alloc: Global, tally: Tally, rows: &[Vec<GameAnswer>]) -> Result<Bytes, NoMemory>
    ensures { IfOk result (λ lines. lines ≡ flat_map (λ row. line_of tally.games (length row.items) tally.refused) rows.now) }
{
    let mut lines = Bytes::new(alloc);
    for i in 0..rows.len() {
        let matched = rows[i].len() as u64;
        let line = summary_line(alloc, tally.games, matched, tally.refused)?;
        lines.push_all(line.as_slice())?;
    }
    Ok(lines)
}
