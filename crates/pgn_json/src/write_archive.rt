//! Writing the games of the archive that a source has left.
ghost use Rattle.std.specs.Prelude.{◌≡◌, ◌≤◌, ◌^◌};
ghost use Rattle.pgn_json.specs.Internal.Texts.{WritesSummary};
ghost use Rattle.cq_program.specs.Views.{sink_view};
ghost use Rattle.pgn_json.specs.Writing.{Says, pipe_of};

use crate::game_writer::GameWriter;
use cq_common::Refusal;
use cq_outside::{Sink, Source, write_all_of};
use cq_program::Status;
use cq_report::summary_line;
use pgn_batches::laws::archives_come_in_batches;
use pgn_batches::{BatchFault, VisitEnd, visit_batches};
use pgn_reader::first_bytes_decide;
use std::alloc::Global;
use std::thread::Threads;

/// Reads the archive that `source` has left, writes its games by a writer of games, and then a report. The archive may have so many bytes
/// as the limit, from 1 to 2^40.
pub(crate) fn write_archive<R: Threads + Sync, S: Source, O: Sink, E: Sink>(
    writer: GameWriter<'_, R>,
    limit: u64,
    source: &mut S,
    out: &mut O,
    err: &mut E,
) -> Status
    requires nothing { writer.faulty ≡ 0 }
    requires limit { (1 ≤ limit) × (limit ≤ 2 ^ 40) }
    ensures says { Says result limit writer.entry.mark.now
        (pipe_of S.left S.faults O.taken O.faults E.taken E.faults source.old out.old err.old)
        (pipe_of S.left S.faults O.taken O.faults E.taken E.faults source.new out.new err.new) }
    ensures next { S.follows source.old source.new }
{
    first_bytes_decide();
    archives_come_in_batches();
    let alloc = writer.alloc;
    let mut writer = writer;
    match visit_batches(alloc, limit, source, &mut writer, out, err) {
        Ok(VisitEnd::All(games)) => write_summary(alloc, games, writer.faulty, err),
        Ok(VisitEnd::Early(status)) => status,
        Err(Refusal::Fault(BatchFault::ReadFault)) => Status::ReadFault,
        Err(Refusal::Fault(BatchFault::ArchiveTooLong)) => Status::ArchiveTooLong,
        Err(Refusal::NoMemory) => Status::NoMemory,
    }
}

// Writes the last line of the report.
fn write_summary<E: Sink>(alloc: Global, games: u64, faulty: u64, err: &mut E) -> Status
    requires { faulty ≤ games }
    ensures { WritesSummary games faulty (sink_view E.taken E.faults err.old) (sink_view E.taken E.faults err.new) result }
{
    let Ok(line) = summary_line(alloc, games, games - faulty, faulty) else {
        return Status::NoMemory;
    };
    match write_all_of(err, line.as_slice()) {
        Ok(()) if faulty == 0 => Status::Done,
        Ok(()) => Status::DoneWithRefusals,
        Err(_) => Status::WriteFault,
    }
}
