//! The top call.
ghost use Rattle.std.specs.Prelude.{map, MatchResult};
ghost use Rattle.std.specs.String.{string_bytes};
ghost use Rattle.cq_program.specs.Call.{call_of};
ghost use Rattle.cq_program.specs.Ends.{EndsRefused, EndsWithoutWords, EndsWords};
ghost use Rattle.cq_program.specs.Views.{SinkView, desk_view, sink_view, sinks_of};
ghost use Rattle.pgn_json.specs.Promise.{Promise, usage_line};

use crate::game_writer::GameWriter;
use crate::words::read_words;
use crate::write_archive::write_archive;
use cq_common::{NoMemory, OpenFault, Refusal};
use cq_outside::{Desk, Sink};
use cq_program::{Status, refuse_words};
use pgn_tree::single_spaced;
use std::alloc::Global;
use std::thread::Threads;

/// The line for words that are no command.
const USAGE: &[u8] = b"usage: pgnjson [--mark TEXT] [--workers N] [--limit B] [ARCHIVE]\n";

/// Does the job that the words of a command name, those after the program's name. `[--mark TEXT] [--workers N] [--limit B] [ARCHIVE]`
/// writes the games of the archive in the file ARCHIVE to `out`. Each game that is read is a line of JSON (RFC 8259), in archive order. No
/// name or the name `-` is standard input.
///
/// Nodes with the comment TEXT, by default `CQL`, have their position. A TEXT without a word means all nodes. The archive may have B bytes,
/// from 1 to 2^40, which is also the default. N workers, from 1 to 64 and by default 4, read the games of a batch, in threads of `rt`.
///
/// `err` takes a line for each faulty game, `game N byte B: REASON`, and at the end `games G matched M refused R`: M are written, R are
/// faulty.
///
/// Returns:
/// - `Done`: all games are read and written.
/// - `DoneWithRefusals`: all games but the faulty ones are written.
/// - `WordsRefused`: the words are no command; the usage line is written to `err`.
/// - `OpenFault`: that count of the desk rose, and no other; nothing is written.
/// - `ReadFault`: that count of the desk rose, and no other. The games of the batches that are full by then are written.
/// - `WriteFault`: the count of one sink rose, and no other. Each sink has taken a prefix of its text, and nothing was read after it.
/// - `NoMemory`: out of memory, and no count rose; each sink has taken a prefix of its text.
/// - `ArchiveTooLong`: one byte more than the limit was read; as much is written as after a failed read.
///
/// The clause `Promise` defines for each the bytes that were read and written, and the count that rose.
pub fn run<R: Threads + Sync, D: Desk, O: Sink, E: Sink>(
    rt: &R,
    alloc: Global,
    words: &[String],
    desk: &mut D,
    out: &mut O,
    err: &mut E,
) -> Status
    ensures { Promise (map string_bytes words.now) result (call_of
        (desk_view D.told D.left D.faults D.open_faults desk.old) (desk_view D.told D.left D.faults D.open_faults desk.new)
        (sinks_of (sink_view O.taken O.faults out.old) (sink_view O.taken O.faults out.new)
        (sink_view E.taken E.faults err.old) (sink_view E.taken E.faults err.new))) }
{
    let job = match read_words(alloc, words) {
        Ok(job) => job,
        Err(Refusal::Fault(_)) => return refuse_words(USAGE, err),
        Err(Refusal::NoMemory) => return Status::NoMemory,
    };
    let Ok(mark) = single_spaced(alloc, job.mark.as_slice()) else {
        return Status::NoMemory;
    };
    match desk.open(alloc, job.archive.as_slice()) {
        Ok(()) => {
            let writer = GameWriter {
                rt,
                alloc,
                mark: mark.as_slice(),
                workers: job.workers,
                faulty: 0,
            };
            write_archive(writer, job.limit, desk, out, err)
        }
        Err(OpenFault::Failed) => Status::OpenFault,
        Err(OpenFault::NoMemory) => Status::NoMemory,
    }
}

/// Ends the program: does the job of the words after its name as `run` does, and returns the exit status. Out of memory for the words, it
/// is 7, and nothing is opened, read or written.
pub fn answer_command<R: Threads + Sync, D: Desk, O: Sink, E: Sink>(
    rt: &R,
    alloc: Global,
    words: Result<Vec<String>, NoMemory>,
    desk: &mut D,
    out: &mut O,
    err: &mut E,
) -> u8
    ensures { let call = call_of
        (desk_view D.told D.left D.faults D.open_faults desk.old) (desk_view D.told D.left D.faults D.open_faults desk.new)
        (sinks_of (sink_view O.taken O.faults out.old) (sink_view O.taken O.faults out.new)
        (sink_view E.taken E.faults err.old) (sink_view E.taken E.faults err.new)) in
        MatchResult words (λ given. EndsWords Promise (map string_bytes given.items) result call) (λ _. EndsWithoutWords result call) }
{
    let status = match words {
        Ok(words) => run(rt, alloc, words.as_slice(), desk, out, err),
        Err(NoMemory) => Status::NoMemory,
    };
    status.exit_code()
}

/// Ends the program for a word that is no text: writes the usage line to `err`, and returns the exit status, 3, or 6 if `err` failed.
pub fn refuse_command<E: Sink>(err: &mut E) -> u8
    ensures { (out : SinkView) → EndsRefused usage_line result
        (sinks_of out out (sink_view E.taken E.faults err.old) (sink_view E.taken E.faults err.new)) }
{
    refuse_words(USAGE, err).exit_code()
}
