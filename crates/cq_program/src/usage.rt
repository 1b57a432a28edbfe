//! The line for words that are no command.
ghost use Rattle.cq_program.specs.Usage.{WritesUsage};
ghost use Rattle.cq_program.specs.Views.{SinkView, sink_view, sinks_of};

use crate::status::Status;
use cq_outside::{Sink, write_all_of};

/// Writes the usage line `usage` of a program to `err`.
///
/// Returns:
/// - `WordsRefused`: the line is written.
/// - `WriteFault`: a write failed; a prefix of the line is written.
pub fn refuse_words<E: Sink>(usage: &[u8], err: &mut E) -> Status
    ensures { (out : SinkView) → WritesUsage usage.now result
        (sinks_of out out (sink_view E.taken E.faults err.old) (sink_view E.taken E.faults err.new)) }
{
    match write_all_of(err, usage) {
        Ok(()) => Status::WordsRefused,
        Err(_) => Status::WriteFault,
    }
}
