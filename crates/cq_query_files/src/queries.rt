//! The reader of a file with one query, and the lines of its outcome.
ghost use Rattle.std.specs.Prelude.{◌<◌, ◌^◌};
ghost use Rattle.cql_syntax.specs.TreeOf.{query_tree};
ghost use Rattle.cq_report.specs.Queries.{query_line};
ghost use Rattle.cq_query_files.specs.QueryReading.{ReadsQuery, ReadsFile, TakesText, TellsWhy};
ghost use Rattle.cq_query_files.specs.Views.{SinkView, desk_view, sink_view, sinks_of};
ghost use Rattle.cq_query_files.specs.Lines.{AcceptsQuery, RefusesQuery};
ghost use Rattle.cq_query_files.specs.Files.{query_file_kind};

use crate::status::Status;
use cq_common::{Bytes, OpenFault, Refusal};
use cq_outside::{Desk, Sink, read_up_to, write_all_of};
use cq_report::query_line;
use cql_kinds::check;
use cql_lexer::{QUERY_LIMIT, query_tokens};
use cql_parser::{parse, spelled_queries_have_no_any, tokens_of_a_text_are_ended};
use cql_syntax::{QueryFault, TypedQuery};
use std::alloc::Global;

/// The line of an accepted query.
const ACCEPTED: &[u8] = b"ok\n";

/// The causes for which nothing is accepted of a file.
#[derive(Drop)]
pub enum FileRefusal<F> {
    /// The query, or the file of queries, has this fault.
    Faulty(F),
    /// The file could not be opened.
    Unopened,
    /// The file could not be read.
    Unread,
    /// Out of memory.
    OutOfMemory,
}

/// Returns the query that a text spells.
///
/// # Errors
///
/// - `Fault`: the text is no query. The fault is that of the first character that begins no token. Else it is that of the first token at
///   which no query goes on, else the first of the query that the tokens spell. No text has two (`texts_have_one_outcome`).
/// - `NoMemory`: out of memory.
#[tactic(auto, using(crate::proofs::Texts::untokened, crate::proofs::Texts::unparsed))]
pub fn read_query(alloc: Global, text: &[u8]) -> Result<TypedQuery, Refusal<QueryFault>>
    ensures { ReadsQuery text.now result }
{
    tokens_of_a_text_are_ended();
    spelled_queries_have_no_any();
    let tokens = query_tokens(alloc, text)?;
    let query = parse(alloc, tokens.as_slice())?;
    check(&query)
}

/// Opens a file, takes at most 65,537 bytes of it, and returns its query.
///
/// # Errors
///
/// - `Faulty`: the bytes taken are no query, for this fault.
/// - `Unopened`: the file could not be opened. That count of the desk rose, and nothing else changed.
/// - `Unread`: the file was opened, and could not be read. That count of the desk rose.
/// - `OutOfMemory`: out of memory to open the file, to read it, or for the query; no count rose.
pub fn query_in_file<D: Desk>(
    alloc: Global,
    name: &[u8],
    desk: &mut D,
) -> Result<TypedQuery, FileRefusal<QueryFault>>
    ensures { ReadsFile query_file_kind (λ typed. query_tree typed.query) name.now
        (desk_view D.told D.left D.faults D.open_faults desk.old)
        (desk_view D.told D.left D.faults D.open_faults desk.new) result }
{
    let text = text_in_file::<D, QueryFault>(alloc, name, desk, QUERY_LIMIT)?;
    match read_query(alloc, text.as_slice()) {
        Ok(query) => Ok(query),
        Err(Refusal::Fault(fault)) => Err(FileRefusal::Faulty(fault)),
        Err(Refusal::NoMemory) => Err(FileRefusal::OutOfMemory),
    }
}

/// Opens a file, and returns its bytes, until its end or one byte more than the limit `most`.
///
/// # Errors
///
/// - `Unopened`: the file could not be opened. That count of the desk rose, and nothing else changed.
/// - `Unread`: the file was opened, and could not be read. That count of the desk rose.
/// - `OutOfMemory`: out of memory to open the file or to read it; no count rose.
pub fn text_in_file<D: Desk, F>(
    alloc: Global,
    name: &[u8],
    desk: &mut D,
    most: usize,
) -> Result<Bytes, FileRefusal<F>>
    requires { most < 2 ^ 62 }
    ensures { TakesText most name.now (desk_view D.told D.left D.faults D.open_faults desk.old)
        (desk_view D.told D.left D.faults D.open_faults desk.new) result }
{
    match desk.open(alloc, name) {
        Ok(()) => {}
        Err(OpenFault::Failed) => return Err(FileRefusal::Unopened),
        Err(OpenFault::NoMemory) => return Err(FileRefusal::OutOfMemory),
    }
    match read_up_to(desk, alloc, most) {
        Ok(text) => Ok(text),
        Err(Refusal::Fault(_)) => Err(FileRefusal::Unread),
        Err(Refusal::NoMemory) => Err(FileRefusal::OutOfMemory),
    }
}

/// Frees a query. If a caller frees queries by this call alone, the freeing of their trees is proved here and not again.
pub fn drop_query(query: TypedQuery) {
    drop(query);
}

/// Writes the line of the query's fault to `err`, and nothing for any other cause.
///
/// Returns:
/// - `QueryRefused`: the query has a fault, and the line `query byte B: REASON` was taken.
/// - `OpenFault` or `ReadFault`: the file could not be opened, or read; nothing is written.
/// - `WriteFault`: a write failed, and the count of `err` rose. A prefix of the line was taken.
/// - `NoMemory`: out of memory for the query or for the line; nothing is written.
pub fn report_refusal<E: Sink>(alloc: Global, why: &FileRefusal<QueryFault>, err: &mut E) -> Status
    ensures { (out : SinkView) → TellsWhy query_file_kind why.now result
        (sinks_of out out (sink_view E.taken E.faults err.old) (sink_view E.taken E.faults err.new)) }
{
    match why {
        FileRefusal::Faulty(fault) => refuse_query(alloc, fault, err),
        FileRefusal::Unopened => Status::OpenFault,
        FileRefusal::Unread => Status::ReadFault,
        FileRefusal::OutOfMemory => Status::NoMemory,
    }
}

/// Writes the line of a faulty query, `query byte B: REASON`.
///
/// Returns:
/// - `QueryRefused`: the line was taken.
/// - `WriteFault`: a write failed, and the count of `err` rose. A prefix of the line was taken.
/// - `NoMemory`: out of memory for the line; nothing is written.
pub fn refuse_query<E: Sink>(alloc: Global, fault: &QueryFault, err: &mut E) -> Status
    ensures { (out : SinkView) → RefusesQuery (query_line fault.now) result
        (sinks_of out out (sink_view E.taken E.faults err.old) (sink_view E.taken E.faults err.new)) }
{
    let Ok(line) = query_line(alloc, fault) else {
        return Status::NoMemory;
    };
    match write_all_of(err, line.as_slice()) {
        Ok(()) => Status::QueryRefused,
        Err(_) => Status::WriteFault,
    }
}

/// Writes the line of an accepted query, `ok`.
///
/// Returns:
/// - `Done`: the line was taken.
/// - `WriteFault`: a write failed, and the count of `out` rose. A prefix of the line was taken.
pub fn accept_query<O: Sink>(out: &mut O) -> Status
    ensures { (err : SinkView) → AcceptsQuery result
        (sinks_of (sink_view O.taken O.faults out.old) (sink_view O.taken O.faults out.new) err err) }
{
    match write_all_of(out, ACCEPTED) {
        Ok(()) => Status::Done,
        Err(_) => Status::WriteFault,
    }
}
