//! The search of a made archive.
ghost use Rattle.std.specs.Prelude.{◌≤◌};
ghost use Rattle.cq_query_files.specs.Views.{DeskView, sink_view, sinks_of};
ghost use Rattle.cq_run.specs.Run.{OverText, RunsMade, call_of};

use cq_common::Refusal;
use cq_outside::{Gate, Sink};
use cq_query_files::{Status, drop_query, read_query, refuse_query};
use cq_search::{GENERATED_LIMIT, RunContext, search_generated_archive};
use cq_words::{SelfRunSettings, Settings};
use std::alloc::Global;
use std::thread::Threads;

/// Searches the archive that the settings make for the query that a text spells. `out` takes one line with the counts.
pub fn do_self_run<R: Threads + Sync, O: Sink, E: Sink, G: Gate + Sync>(
    rt: &R,
    alloc: Global,
    text: &[u8],
    settings: SelfRunSettings,
    out: &mut O,
    err: &mut E,
    gate: &G,
) -> Status
    requires games { settings.games ≤ 100000 }
    requires workers { (1 ≤ settings.workers) × (settings.workers ≤ 64) }
    ensures { (desk : DeskView) → OverText text.now (RunsMade settings.seed settings.games) result (call_of desk desk
        (sinks_of (sink_view O.taken O.faults out.old) (sink_view O.taken O.faults out.new)
        (sink_view E.taken E.faults err.old) (sink_view E.taken E.faults err.new))) }
{
    let query = match read_query(alloc, text) {
        Ok(query) => query,
        Err(Refusal::Fault(fault)) => return refuse_query(alloc, &fault, err),
        Err(Refusal::NoMemory) => return Status::NoMemory,
    };
    let all = Settings {
        workers: settings.workers,
        limit: GENERATED_LIMIT,
        first: false,
    };
    let context = RunContext::new(rt, alloc, all, gate);
    let status = search_generated_archive(&context, &query, settings.seed, settings.games, out);
    drop_query(query);
    status
}
