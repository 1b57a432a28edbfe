//! The top call.
ghost use Rattle.std.specs.Prelude.{map, MatchResult};
ghost use Rattle.std.specs.String.{string_bytes};
ghost use Rattle.cq_program.specs.Call.{call_of};
ghost use Rattle.cq_program.specs.Ends.{EndsWithoutWords, EndsWords};
ghost use Rattle.cq_program.specs.Views.{desk_view, sink_view, sinks_of};
ghost use Rattle.pgn_pieces.specs.Promise.{Promise};

use crate::cutting::cut;
use crate::words::read_words;
use cq_common::{NoMemory, OpenFault, Refusal};
use cq_outside::{Desk, Sink};
use cq_program::{Status, refuse_words};
use std::alloc::Global;

/// The line for words that are no command.
const USAGE: &[u8] = b"usage: pgnpieces ARCHIVE BYTES\n";

/// Does the job that the words of a command name, those after the program's name. `ARCHIVE BYTES` writes the table of the pieces of the
/// archive in the file ARCHIVE to `out`. Each piece ends with a game and has at least BYTES bytes, from 1 to 2^40, and at most one game
/// more. The last piece has the rest. The name `-` is standard input.
///
/// A line is `N OFFSET LENGTH FIRST GAMES`. N is the piece's number, from 1, OFFSET its first byte, from 0, and LENGTH the number of its
/// bytes. FIRST is the number of its first game, from 1, and GAMES the number of its games. An archive without a byte has no line.
///
/// The archive is read in pieces of at most 65,536 bytes, of which none are kept. A line is written once its piece is long enough.
///
/// Returns:
/// - `Done`: the whole table is written.
/// - `WordsRefused`: the words are no command; the usage line is written to `err`.
/// - `OpenFault`: that count of the desk rose, and no other; nothing is written.
/// - `ReadFault`: that count of the desk rose, and no other. The lines of the pieces that are long enough by then are written.
/// - `WriteFault`: the count of one sink rose, and no other. It has taken a prefix of its text.
/// - `NoMemory`: out of memory, and no count rose; `out` has taken a prefix of the table.
/// - `ArchiveTooLong`: more than 2^40 bytes were read, and at most 65,536 more; as much is written as after a failed read.
///
/// The clause `Promise` defines for each the bytes that were read and written, and the count that rose.
pub fn run<D: Desk, O: Sink, E: Sink>(
    alloc: Global,
    words: &[String],
    desk: &mut D,
    out: &mut O,
    err: &mut E,
) -> Status
    ensures { Promise (map string_bytes words.now) result (call_of
        (desk_view D.told D.left D.faults D.open_faults desk.old) (desk_view D.told D.left D.faults D.open_faults desk.new)
        (sinks_of (sink_view O.taken O.faults out.old) (sink_view O.taken O.faults out.new)
        (sink_view E.taken E.faults err.old) (sink_view E.taken E.faults err.new))) }
{
    let job = match read_words(alloc, words) {
        Ok(job) => job,
        Err(Refusal::Fault(_)) => return refuse_words(USAGE, err),
        Err(Refusal::NoMemory) => return Status::NoMemory,
    };
    match desk.open(alloc, job.archive.as_slice()) {
        Ok(()) => cut(alloc, desk, out, job.least),
        Err(OpenFault::Failed) => Status::OpenFault,
        Err(OpenFault::NoMemory) => Status::NoMemory,
    }
}

/// Ends the program: does the job of the words after its name as `run` does, and returns the exit status. Out of memory for the words, it
/// is 7, and nothing is opened, read or written.
pub fn answer_command<D: Desk, O: Sink, E: Sink>(
    alloc: Global,
    words: Result<Vec<String>, NoMemory>,
    desk: &mut D,
    out: &mut O,
    err: &mut E,
) -> u8
    ensures { let call = call_of
        (desk_view D.told D.left D.faults D.open_faults desk.old) (desk_view D.told D.left D.faults D.open_faults desk.new)
        (sinks_of (sink_view O.taken O.faults out.old) (sink_view O.taken O.faults out.new)
        (sink_view E.taken E.faults err.old) (sink_view E.taken E.faults err.new)) in
        MatchResult words (λ given. EndsWords Promise (map string_bytes given.items) result call) (λ _. EndsWithoutWords result call) }
{
    let status = match words {
        Ok(words) => run(alloc, words.as_slice(), desk, out, err),
        Err(NoMemory) => Status::NoMemory,
    };
    status.exit_code()
}
