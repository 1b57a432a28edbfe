//! The search for one query over an open archive.
ghost use Rattle.std.specs.Prelude.{◌≤◌, ◌^◌};
ghost use Rattle.cql_syntax.specs.TreeOf.{query_tree};
ghost use Rattle.cq_search.specs.FirstGame.{expected_output};
ghost use Rattle.cq_search.specs.Promise.{AnswerPromise};
ghost use Rattle.cq_query_files.specs.Views.{source_view, sink_view, sinks_of};

use crate::all_games::search_all_games;
use crate::first_match::search_first_match;
use crate::laws::archives_come_in_batches;
use crate::run_context::RunContext;
use cq_outside::{Gate, Sink, Source};
use cq_query_files::Status;
use cq_words::Settings;
use cql_plan::Plan;
use cql_syntax::TypedQuery;
use std::alloc::Global;
use std::thread::Threads;

/// Searches the archive that `source` has left for a query, batch by batch. The games of each batch are searched by `settings.workers`
/// workers, from 1 to 64, in threads of `rt`. At most the first `settings.limit` bytes are searched, from 1 to 2^40. Both ranges are
/// conditions. A batch has 1,024 games, or fewer of which 2^24 bytes are kept, or those that are left at the end.
///
/// The source is read in pieces of at most 65,536 bytes, none while a full batch waits, and at most one byte over the limit in all. Without
/// a sort item the exports and fault lines of a batch are written before the next batch is read. With one the fault lines are. The matching
/// games are then kept until all games were searched.
///
/// With `settings.first`, only the game that matches first and the report up to it are written, whatever the sort items. No more is read
/// after its batch. Nothing is written after a fault.
///
/// Returns:
/// - `Done` or `DoneWithRefusals`: both sinks have taken all, and no game of the report, or some, is faulty.
/// - `ReadFault`: a read failed, and no other count rose. All that is due of the games of the batches that were full by then is written.
/// - `ArchiveTooLong`: one byte more than the limit was read, and no count rose. As much is written as after a failed read.
/// - `WriteFault`: a write to one sink failed, and no other count rose. Each sink has taken a prefix of its text.
/// - `NoMemory`: out of memory, and no count rose. Each sink has taken a prefix of its text.
///
/// The clause `AnswerPromise` defines each of these exactly; no other status is returned.
pub fn answer<R: Threads + Sync, S: Source, O: Sink, E: Sink, G: Gate + Sync>(
    rt: &R,
    alloc: Global,
    query: &TypedQuery,
    settings: Settings,
    source: &mut S,
    out: &mut O,
    err: &mut E,
    gate: &G,
) -> Status
    requires workers { (1 ≤ settings.workers) × (settings.workers ≤ 64) }
    requires limit { (1 ≤ settings.limit) × (settings.limit ≤ 2 ^ 40) }
    ensures answers { AnswerPromise (expected_output settings.first (query_tree query.now.query)) result (record {
      limit = settings.limit;
      source = source_view S.left S.faults source.old;
      source_after = source_view S.left S.faults source.new;
      sinks = sinks_of (sink_view O.taken O.faults out.old) (sink_view O.taken O.faults out.new)
          (sink_view E.taken E.faults err.old) (sink_view E.taken E.faults err.new);
    }) }
    ensures next { S.follows source.old source.new }
{
    let context = RunContext::new(rt, alloc, settings, gate);
    search_archive(&context, query, source, out, err)
}

/// Searches an archive for a query as `answer` does, with the same statuses, by the workers and the settings of a context.
pub fn search_archive<R: Threads + Sync, S: Source, O: Sink, E: Sink, G: Gate + Sync>(
    context: &RunContext<'_, R, G>,
    query: &TypedQuery,
    source: &mut S,
    out: &mut O,
    err: &mut E,
) -> Status
    ensures answers { AnswerPromise (expected_output context.now.settings.first (query_tree query.now.query)) result (record {
      limit = context.now.settings.limit;
      source = source_view S.left S.faults source.old;
      source_after = source_view S.left S.faults source.new;
      sinks = sinks_of (sink_view O.taken O.faults out.old) (sink_view O.taken O.faults out.new)
          (sink_view E.taken E.faults err.old) (sink_view E.taken E.faults err.new);
    }) }
    ensures next { S.follows source.old source.new }
{
    archives_come_in_batches();
    let Ok(plan) = Plan::make(context.alloc, query) else {
        return Status::NoMemory;
    };
    if context.settings.first {
        let status = search_first_match(context, &plan, source, out, err);
        drop(plan);
        return status;
    }
    let status = search_all_games(context, &plan, source, out, err);
    drop(plan);
    status
}
