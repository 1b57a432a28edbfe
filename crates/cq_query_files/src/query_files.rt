//! The reader of a file of queries, and the lines of its faults.
ghost use Rattle.std.specs.Prelude.{◌≡◌, ◌≤◌, ◌<◌, ◌∷◌, IfOk, drop, length, map, take};
ghost use Rattle.cql_syntax.specs.QueryTrees.{trees_of};
ghost use Rattle.cq_query_files.specs.QueryReading.{ReadsFile, ReadsPiece, ReadsPieces, ReadsText, TellsWhy};
ghost use Rattle.cq_query_files.specs.Views.{SinkView, desk_view, sink_view, sinks_of};
ghost use Rattle.cq_query_files.specs.QueryFiles.{is_divider, lines, many_line, pieces};
ghost use Rattle.cq_query_files.specs.Lines.{RefusesQuery};
ghost use Rattle.cq_query_files.specs.Files.{queries_file_kind};

use crate::queries::{FileRefusal, read_query, text_in_file};
use crate::status::Status;
use cq_common::{Bytes, NoMemory, Refusal};
use cq_outside::{Desk, Sink, write_all_of};
use cq_report::numbered_query_line;
use cql_syntax::{QueryFault, TypedQuery};
use memchr::memchr;
use std::alloc::Global;

/// The greatest number of bytes of a file of queries.
const FILE_LIMIT: usize = 1_048_576;

/// The most queries of such a file.
const QUERIES_LIMIT: usize = 16;

/// The faults of a file of queries.
#[derive(Drop)]
pub enum ManyFault {
    /// It has too many bytes.
    TooLong,
    /// It has too many pieces.
    TooMany,
    /// A piece has a fault, and no piece before it has one. Pieces are numbered from 1, and the byte is that in the piece.
    Faulty { query: u32, fault: QueryFault },
}

/// Returns the queries in a file of queries, from 1 to 16 with a line `%%` between two of them. The file is opened, and at most 1,048,577
/// bytes of it are taken.
///
/// # Errors
///
/// - `Faulty`: the bytes taken are no file of queries. They are more than 1,048,576, else they have more than 16 pieces, else a piece has a
///   fault.
/// - `Unopened`: the file could not be opened. That count of the desk rose, and nothing else changed.
/// - `Unread`: the file was opened, and could not be read. That count of the desk rose.
/// - `OutOfMemory`: out of memory to open the file, to read it, or for the queries; no count rose.
pub fn queries_in_file<D: Desk>(
    alloc: Global,
    name: &[u8],
    desk: &mut D,
) -> Result<Vec<TypedQuery>, FileRefusal<ManyFault>>
    ensures { ReadsFile queries_file_kind (λ queries. trees_of queries.items) name.now
        (desk_view D.told D.left D.faults D.open_faults desk.old)
        (desk_view D.told D.left D.faults D.open_faults desk.new) result }
{
    let text = text_in_file::<D, ManyFault>(alloc, name, desk, FILE_LIMIT)?;
    match read_queries(alloc, text.as_slice()) {
        Ok(queries) => Ok(queries),
        Err(Refusal::Fault(fault)) => Err(FileRefusal::Faulty(fault)),
        Err(Refusal::NoMemory) => Err(FileRefusal::OutOfMemory),
    }
}

/// Frees queries, as `drop_query` frees one.
pub fn drop_queries(queries: Vec<TypedQuery>) {
    drop(queries);
}

// Returns the queries of a file of queries. Fails if the file has a fault.
fn read_queries(alloc: Global, text: &[u8]) -> Result<Vec<TypedQuery>, Refusal<ManyFault>>
    ensures { ReadsText queries_file_kind (λ queries. trees_of queries.items) text.now result }
{
    if text.len() > FILE_LIMIT {
        return Err(Refusal::Fault(ManyFault::TooLong));
    }
    let pieces = cut(alloc, text)?;
    if pieces.len() > QUERIES_LIMIT {
        return Err(Refusal::Fault(ManyFault::TooMany));
    }
    read_pieces(alloc, pieces.as_slice())
}

// Returns the length of the first line of a text, its line feed included.
fn line_len(text: &[u8]) -> usize
    requires { 0 < length text.now }
    ensures within { (0 < result) × (result ≤ length text.now) }
    ensures first { lines text.now ≡ take result text.now ∷ lines (drop result text.now) }
{
    match memchr(b'\n', text) {
        Some(at) => at + 1,
        None => text.len(),
    }
}

// Returns true if a line is a divider between two queries.
fn is_divider(line: &[u8]) -> bool
    ensures { result ≡ is_divider line.now }
{
    line == b"%%\n".as_slice() || line == b"%%".as_slice()
}

// Returns the pieces of a file of queries.
fn cut<'a>(alloc: Global, text: &'a [u8]) -> Result<Vec<&'a [u8]>, NoMemory>
    ensures { IfOk result (λ found. map (λ piece. piece.now) found.items ≡ pieces text.now) }
{
    let mut pieces = Vec::new(alloc);
    let mut begin = 0;
    let mut at = 0;
    while at < text.len() {
        let end = at + line_len(&text[at..]);
        if is_divider(&text[at..end]) {
            pieces.push(&text[begin..at])?;
            begin = end;
        }
        at = end;
    }
    pieces.push(&text[begin..])?;
    Ok(pieces)
}

// Returns the queries that some pieces spell. Fails with the first of their faults.
fn read_pieces(alloc: Global, pieces: &[&[u8]]) -> Result<Vec<TypedQuery>, Refusal<ManyFault>>
    requires { length pieces.now ≤ 16 }
    ensures { ReadsPieces (λ queries. trees_of queries.items) (map (λ piece. piece.now) pieces.now) result }
{
    let mut queries = Vec::new(alloc);
    for piece in pieces {
        let query = read_piece(alloc, queries.len() as u32 + 1, piece)?;
        queries.push(query)?;
    }
    Ok(queries)
}

// Returns the query that a piece spells. Fails with its fault and the number of the piece.
fn read_piece(alloc: Global, query: u32, piece: &[u8]) -> Result<TypedQuery, Refusal<ManyFault>>
    ensures { ReadsPiece query piece.now result }
{
    match read_query(alloc, piece) {
        Ok(typed) => Ok(typed),
        Err(Refusal::Fault(fault)) => Err(Refusal::Fault(ManyFault::Faulty { query, fault })),
        Err(Refusal::NoMemory) => Err(Refusal::NoMemory),
    }
}

/// Writes the line of the fault of a file of queries to `err`, and nothing for any other cause.
///
/// Returns:
/// - `QueryRefused`: the file has a fault, and its line was taken: `queries too long`, `queries too many` or `query I byte B: REASON`.
/// - `OpenFault` or `ReadFault`: the file could not be opened, or read; nothing is written.
/// - `WriteFault`: a write failed, and the count of `err` rose. A prefix of the line was taken.
/// - `NoMemory`: out of memory for the queries or for the line; nothing is written.
pub fn report_queries_refusal<E: Sink>(
    alloc: Global,
    why: &FileRefusal<ManyFault>,
    err: &mut E,
) -> Status
    ensures { (out : SinkView) → TellsWhy queries_file_kind why.now result
        (sinks_of out out (sink_view E.taken E.faults err.old) (sink_view E.taken E.faults err.new)) }
{
    match why {
        FileRefusal::Faulty(fault) => refuse_queries(alloc, fault, err),
        FileRefusal::Unopened => Status::OpenFault,
        FileRefusal::Unread => Status::ReadFault,
        FileRefusal::OutOfMemory => Status::NoMemory,
    }
}

// Writes the line of a faulty file of queries.
fn refuse_queries<E: Sink>(alloc: Global, fault: &ManyFault, err: &mut E) -> Status
    ensures { (out : SinkView) → RefusesQuery (many_line fault.now) result
        (sinks_of out out (sink_view E.taken E.faults err.old) (sink_view E.taken E.faults err.new)) }
{
    let Ok(line) = many_line(alloc, fault) else {
        return Status::NoMemory;
    };
    match write_all_of(err, line.as_slice()) {
        Ok(()) => Status::QueryRefused,
        Err(_) => Status::WriteFault,
    }
}

// Returns the line of a fault of a file of queries.
fn many_line(alloc: Global, fault: &ManyFault) -> Result<Bytes, NoMemory>
    ensures { IfOk result (λ line. line ≡ many_line fault.now) }
{
    match fault {
        ManyFault::TooLong => Bytes::from_slice(alloc, b"queries too long\n"),
        ManyFault::TooMany => Bytes::from_slice(alloc, b"queries too many\n"),
        ManyFault::Faulty { query, fault } => numbered_query_line(alloc, *query, fault),
    }
}
