//! The program, with its desk and sinks as parameters.
ghost use Rattle.std.specs.Prelude.{map, MatchResult};
ghost use Rattle.std.specs.String.{string_bytes};
ghost use Rattle.cq_run.specs.Run.{call_of};
ghost use Rattle.cq_run.specs.Command.{EndsWords, EndsWithoutWords};
ghost use Rattle.cq_query_files.specs.Views.{desk_view, sink_view, sinks_of};

use crate::top_call::run;
use cq_common::NoMemory;
use cq_outside::{Desk, OpenGate, Sink};
use cq_query_files::Status;
use std::alloc::Global;
use std::thread::Threads;

/// Ends the program: does the job of the words after its name, as `run` does, over the desk and the two sinks. `out` takes exports, and
/// `err` the report. Returns the exit status, from 0 to 8. Out of memory for the words, it is 7, and nothing is opened, read or written.
pub fn answer_command<R: Threads + Sync, D: Desk, O: Sink, E: Sink>(
    rt: &R,
    alloc: Global,
    words: Result<Vec<String>, NoMemory>,
    desk: &mut D,
    out: &mut O,
    err: &mut E,
) -> u8
    ensures { let call = call_of
        (desk_view D.told D.left D.faults D.open_faults desk.old) (desk_view D.told D.left D.faults D.open_faults desk.new)
        (sinks_of (sink_view O.taken O.faults out.old) (sink_view O.taken O.faults out.new)
        (sink_view E.taken E.faults err.old) (sink_view E.taken E.faults err.new)) in
        MatchResult words (λ given. EndsWords (map string_bytes given.items) result call) (λ _. EndsWithoutWords result call) }
{
    let status = match words {
        Ok(words) => run(rt, alloc, words.as_slice(), desk, out, err, &OpenGate),
        Err(NoMemory) => Status::NoMemory,
    };
    status.exit_code()
}
