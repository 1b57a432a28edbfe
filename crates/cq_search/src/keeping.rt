//! The games of a batch that are kept for several queries. The lines of the faulty games are the same for each query, so they are written
//! with the answers to the first query.
ghost use Rattle.std.specs.Prelude.{◌≡◌, ◌+◌, ◌++◌, ◌<◌, ◌≤◌, ◌^◌, [], List, length, map, get_or, replicate, IfOk, OnOk};
ghost use Rattle.cql_syntax.specs.Trees.{QueryTree};
ghost use Rattle.cq_shards.specs.Many.{answers_in};
ghost use Rattle.cq_shards.specs.Order.{is_match as is_matching};
ghost use Rattle.cq_shards.specs.ReadResults.{ReadResult};
ghost use Rattle.cq_shards.specs.declared.answers.GameAnswer.{GameAnswer};
ghost use Rattle.cq_search.specs.Internal.ManyWriting.{AddsMatches, AreAnswerListsOf, FoundByAll, IsSortedByGame, KeepsRest, KeepsSome};
ghost use Rattle.cq_query_files.specs.Views.{SinkView, sink_view, sinks_of};

use crate::output::write_answers;
use crate::tally::Tally;
use cq_common::{Failed, NoMemory, Refusal};
use cq_outside::Sink;
use cq_shards::{Answer, GameAnswer, ManyAnswers, in_order};
use std::alloc::Global;

/// Returns an empty list for each of so many queries.
///
/// # Errors
///
/// `NoMemory`: out of memory for the lists.
pub fn empty_match_lists(alloc: Global, queries: u32) -> Result<Vec<Vec<GameAnswer>>, NoMemory>
    ensures { IfOk result (λ kept. map (λ row. row.items) kept.items ≡ replicate queries []) }
{
    let mut kept = Vec::new(alloc);
    for _query in 0..queries {
        kept.push(Vec::new(alloc))?;
    }
    Ok(kept)
}

/// Writes the lines of the faulty games of a batch, and keeps the games that match, for each query.
///
/// # Errors
///
/// - `Fault`: a write failed, and the count of one sink rose. A prefix of the lines was taken.
/// - `NoMemory`: out of memory. A prefix of the lines was taken, and no count rose.
pub fn collect_matches<O: Sink, E: Sink>(
    alloc: Global,
    answers: ManyAnswers,
    tally: &mut Tally,
    kept: &mut Vec<Vec<GameAnswer>>,
    out: &mut O,
    err: &mut E,
) -> Result<(), Refusal<Failed>>
    requires queries { (1 ≤ length kept.old.items) × (length kept.old.items ≤ 16) }
    requires rows { length (answers_in answers) ≡ length kept.old.items }
    requires games { (ordered : List GameAnswer) → IsSortedByGame (get_or (answers_in answers) 0 []) ordered
        → tally.old.games + length ordered < 2 ^ 63 }
    requires matched { tally.old.matched ≤ tally.old.games }
    requires refused { tally.old.refused ≤ tally.old.games }
    ensures { (queries : List QueryTree) (before : List ReadResult) (outcomes : List ReadResult) (first : SinkView) (second : SinkView)
        → AreAnswerListsOf queries (length before) outcomes (answers_in answers)
        → FoundByAll queries before (sinks_of first (sink_view O.taken O.faults out.old) second (sink_view E.taken E.faults err.old))
        tally.old (map (λ row. row.items) kept.old.items)
        → KeepsSome queries (before ++ outcomes)
        (sinks_of first (sink_view O.taken O.faults out.new) second (sink_view E.taken E.faults err.new))
        tally.new (map (λ row. row.items) kept.new.items) result }
{
    let mut rows = answers;
    let first = in_order(alloc, rows.take(0))?;
    match write_answers(alloc, true, first, tally, &mut kept[0], out, err) {
        Ok(()) => {}
        Err(Refusal::Fault(failed)) => return Err(Refusal::Fault(failed)),
        Err(Refusal::NoMemory) => return Err(Refusal::NoMemory),
    }
    keep_rest(alloc, rows, kept)?;
    Ok(())
}

// Keeps the games that match, for each query but the first.
fn keep_rest(
    alloc: Global,
    answers: ManyAnswers,
    kept: &mut Vec<Vec<GameAnswer>>,
) -> Result<(), NoMemory>
    requires few { length kept.old.items ≤ 16 }
    requires rows { length (answers_in answers) ≡ length kept.old.items }
    ensures { OnOk result (KeepsRest (answers_in answers)
        (map (λ row. row.items) kept.old.items) (map (λ row. row.items) kept.new.items)) }
{
    let mut rows = answers;
    for i in 1..kept.len() {
        keep(alloc, rows.take(i as u32), &mut kept[i])?;
    }
    Ok(())
}

// Keeps the matches among the answers of some games.
fn keep(alloc: Global, answers: Vec<GameAnswer>, kept: &mut Vec<GameAnswer>) -> Result<(), NoMemory>
    ensures { OnOk result (AddsMatches answers.items kept.old.items kept.new.items) }
{
    let mut matches = in_order(alloc, answers)?;
    matches.retain(|answer| is_match(answer));
    kept.append(&mut matches)?;
    Ok(())
}

fn is_match(answer: &GameAnswer) -> bool
    ensures { result ≡ is_matching answer.now }
{
    matches!(answer.what, Answer::Match { .. })
}
