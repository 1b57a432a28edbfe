//! The flat form of a query, written as a text.
ghost use Rattle.std.specs.Prelude.{◌≡◌, IfOk};
ghost use Rattle.cql_syntax.specs.TreeOf.{query_tree};
ghost use Rattle.cq_query_files.specs.Views.{SinkView, sink_view, sinks_of};
ghost use Rattle.cq_query_files.specs.Lines.{WritesFlat, flat_lines};

use crate::status::Status;
use cq_common::{Bytes, NoMemory};
use cq_outside::{Sink, write_all_of};
use cql_rewrite::{expand, flat_text};
use cql_syntax::TypedQuery;
use std::alloc::Global;

/// Writes the flat form of a query, each of its items on a line.
///
/// Returns:
/// - `Done`: the lines were taken.
/// - `WriteFault`: a write failed, and the count of `out` rose. A prefix of the lines was taken.
/// - `NoMemory`: out of memory for the lines; nothing is written.
pub fn explain<O: Sink>(alloc: Global, query: &TypedQuery, out: &mut O) -> Status
    ensures { (err : SinkView) → WritesFlat (query_tree query.now.query) result
        (sinks_of (sink_view O.taken O.faults out.old) (sink_view O.taken O.faults out.new) err err) }
{
    let Ok(lines) = flat_form_of(alloc, query) else {
        return Status::NoMemory;
    };
    match write_all_of(out, lines.as_slice()) {
        Ok(()) => Status::Done,
        Err(_) => Status::WriteFault,
    }
}

// Returns the lines of the flat form of a query, each with its end.
#[tactic(auto, unfolding(crate::specs::Lines::flat_lines))]
fn flat_form_of(alloc: Global, query: &TypedQuery) -> Result<Bytes, NoMemory>
    ensures { IfOk result (λ lines. lines ≡ flat_lines (query_tree query.now.query)) }
{
    let flat = expand(alloc, query)?;
    let mut lines = flat_text(alloc, &flat)?;
    lines.push_all(b"\n")?;
    Ok(lines)
}
