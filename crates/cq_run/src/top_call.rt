//! The top call.
ghost use Rattle.std.specs.Prelude.{map, length, ◌≤◌};
ghost use Rattle.std.specs.String.{string_bytes};
ghost use Rattle.cq_words.specs.Jobs.{IsInRange};
ghost use Rattle.cq_words.specs.declared.job.Job.TheVariants as jobs;
ghost use Rattle.cql_syntax.specs.QueryTrees.{trees_of};
ghost use Rattle.cql_syntax.specs.TreeOf.{query_tree};
ghost use Rattle.cq_search.specs.FirstGame.{expected_output};
ghost use Rattle.cq_search.specs.ManyQueries.{texts_of_all};
ghost use Rattle.cq_run.specs.Run.{call_of, Promise, AnswersFile, OverFile, SaysAccepted, Explains, DoesJob, WritesUsage};
ghost use Rattle.cq_query_files.specs.Views.{SinkView, desk_view, sink_view, sinks_of};
ghost use Rattle.cq_query_files.specs.Files.{query_file_kind};

use crate::selfrun::do_self_run;
use cq_common::{OpenFault, Refusal};
use cq_outside::{Desk, Gate, Sink, write_all_of};
use cq_query_files::laws::{
    every_file_of_queries_is_accepted_or_has_a_fault, every_text_is_a_query_or_has_a_fault,
    files_of_queries_have_one_outcome, texts_have_one_outcome,
};
use cq_query_files::{
    Status, accept_query, drop_queries, drop_query, explain, queries_in_file, query_in_file,
    read_query, refuse_query, report_queries_refusal, report_refusal,
};
use cq_search::{RunContext, search_archive, search_archive_many};
use cq_words::{Job, read_words};
use cql_syntax::TypedQuery;
use std::alloc::Global;
use std::thread::Threads;

/// The line for words that are no command.
const USAGE: &[u8] =
    b"usage: cqlpgn MODE QUERY [ARCHIVE] [--workers N] [--seed S] [--games G] [--limit B] [--first]\n";

/// Does the job that the words of a command name, those after the program's name.
///
/// - `run QUERY [ARCHIVE]` searches the archive in the file ARCHIVE for the query in the file QUERY. `out` takes the exports of the games
///   with a match, by the query's sort items and then in archive order, and `err` the report. If the word is missing, the archive is
///   standard input, the desk's file `-`.
/// - `eval TEXT [ARCHIVE]` does the same with the query that the word TEXT spells.
/// - `check QUERY` writes `ok` to `out` if the query in the file QUERY is accepted.
/// - `explain QUERY` writes its flat form to `out`, an item on each line, if the query in the file QUERY is accepted.
/// - `selfrun TEXT` searches a made archive for the query that the word TEXT spells. The archive has `--games G` games, from 0 to 100,000
///   and by default 100, from `--seed S`, from 0 to 2^32 - 1 and by default 1. No file is opened, and `out` takes one line,
///   `bytes B games G matched M refused R written W`. B is the length of the archive and W that of the exports.
/// - `many QUERIES [ARCHIVE]` searches the archive, in one reading, for the queries in the file QUERIES, from 1 to 16 with a line `%%`
///   between two of them. For each in order `out` takes the line `query I bytes W` and then its W bytes of exports. `err` takes the lines
///   of the faulty games and then, for each in order, its counts.
///
/// All but `check` and `explain` take `--workers N`, from 1 to 64 and by default 4. It is the number of workers that search the games of a
/// batch, in threads of `rt`. Each tells `gate` as it enters and leaves a game. `run`, `eval` and `many` take `--limit B`, from 1 to 2^40,
/// the most bytes of an archive; at most one byte more is taken. An archive is read in pieces of at most 65,536 bytes, batch by batch.
/// `run` and `eval` also take `--first`: the first game that matches is written alone, whatever the query's sort items. The report ends
/// with that game. Nothing is read after the read that completes its batch.
///
/// Of a query's file at most 65,537 bytes are taken, and of a file of queries 1,048,577. A query with a fault has a line on `err`,
/// `query byte B: REASON`, before the archive is opened. So has a file of queries, the first of these lines that applies:
/// - `queries too long`: it has more than 1,048,576 bytes.
/// - `queries too many`: it has more than 16 pieces.
/// - `query I byte B: REASON`: a piece has a fault. I is the number of the first such piece, from 1, and B its byte in the piece.
///
/// Words that are no command have the usage line.
///
/// Returns:
/// - `Done` or `DoneWithRefusals`: both sinks have taken all, and no game of the report, or some, is faulty. `check` and `explain` return
///   `Done`.
/// - `QueryRefused` or `WordsRefused`: the query has a fault, or the file of queries, or the words are no command; the line is written.
/// - `OpenFault`: that count of the desk rose, and no other; nothing is written.
/// - `ReadFault`: that count of the desk rose, and no other. Of the games of the whole batches that were read the lines of the faulty ones
///   are written. So are the exports if there is one query and it has no sort item.
/// - `WriteFault`: the count of one sink rose, and no other. Each sink has taken a prefix of its text.
/// - `NoMemory`: out of memory, and no count rose; each sink has taken a prefix of its text.
/// - `ArchiveTooLong`: more bytes of the archive than the limit were taken; as much is written as for `ReadFault`.
///
/// In all the others no count rose. The clause `Promise` defines each of these exactly, and the statuses that always come. README has a
/// table of statuses for the program's user.
pub fn run<R: Threads + Sync, D: Desk, O: Sink, E: Sink, G: Gate + Sync>(
    rt: &R,
    alloc: Global,
    words: &[String],
    desk: &mut D,
    out: &mut O,
    err: &mut E,
    gate: &G,
) -> Status
    ensures { Promise (map string_bytes words.now) result (call_of
        (desk_view D.told D.left D.faults D.open_faults desk.old) (desk_view D.told D.left D.faults D.open_faults desk.new)
        (sinks_of (sink_view O.taken O.faults out.old) (sink_view O.taken O.faults out.new)
        (sink_view E.taken E.faults err.old) (sink_view E.taken E.faults err.new))) }
{
    every_text_is_a_query_or_has_a_fault();
    texts_have_one_outcome();
    every_file_of_queries_is_accepted_or_has_a_fault();
    files_of_queries_have_one_outcome();
    match read_words(alloc, words) {
        Ok(job) => {
            let status = do_job(rt, alloc, &job, desk, out, err, gate);
            drop(job);
            status
        }
        Err(Refusal::Fault(_)) => refuse_words(err),
        Err(Refusal::NoMemory) => Status::NoMemory,
    }
}

// Writes the usage line.
fn refuse_words<E: Sink>(err: &mut E) -> Status
    ensures { (out : SinkView) → WritesUsage result
        (sinks_of out out (sink_view E.taken E.faults err.old) (sink_view E.taken E.faults err.new)) }
{
    match write_all_of(err, USAGE) {
        Ok(()) => Status::WordsRefused,
        Err(_) => Status::WriteFault,
    }
}

// Does the job that the words name.
fn do_job<R: Threads + Sync, D: Desk, O: Sink, E: Sink, G: Gate + Sync>(
    rt: &R,
    alloc: Global,
    job: &Job,
    desk: &mut D,
    out: &mut O,
    err: &mut E,
    gate: &G,
) -> Status
    requires { IsInRange job.now }
    ensures { DoesJob job.now result (call_of
        (desk_view D.told D.left D.faults D.open_faults desk.old) (desk_view D.told D.left D.faults D.open_faults desk.new)
        (sinks_of (sink_view O.taken O.faults out.old) (sink_view O.taken O.faults out.new)
        (sink_view E.taken E.faults err.old) (sink_view E.taken E.faults err.new))) }
{
    match job {
        Job::Run {
            query,
            archive,
            settings,
        } => {
            let context = RunContext::new(rt, alloc, *settings, gate);
            let (query, archive) = (query.as_slice(), archive.as_slice());
            do_run(&context, query, archive, desk, out, err)
        }
        Job::Eval {
            text,
            archive,
            settings,
        } => {
            let context = RunContext::new(rt, alloc, *settings, gate);
            let (text, archive) = (text.as_slice(), archive.as_slice());
            do_eval(&context, text, archive, desk, out, err)
        }
        Job::Check { query } => do_check(alloc, query.as_slice(), desk, out, err),
        Job::Explain { query } => do_explain(alloc, query.as_slice(), desk, out, err),
        Job::SelfRun { text, settings } => {
            do_self_run(rt, alloc, text.as_slice(), *settings, out, err, gate)
        }
        Job::Many {
            queries,
            archive,
            settings,
        } => {
            let context = RunContext::new(rt, alloc, *settings, gate);
            let (queries, archive) = (queries.as_slice(), archive.as_slice());
            do_many(&context, queries, archive, desk, out, err)
        }
    }
}

// Searches the archive in a file for the query in another.
fn do_run<R: Threads + Sync, D: Desk, O: Sink, E: Sink, G: Gate + Sync>(
    context: &RunContext<'_, R, G>,
    name: &[u8],
    archive: &[u8],
    desk: &mut D,
    out: &mut O,
    err: &mut E,
) -> Status
    ensures { DoesJob (jobs.Run name.now archive.now context.now.settings) result (call_of
        (desk_view D.told D.left D.faults D.open_faults desk.old) (desk_view D.told D.left D.faults D.open_faults desk.new)
        (sinks_of (sink_view O.taken O.faults out.old) (sink_view O.taken O.faults out.new)
        (sink_view E.taken E.faults err.old) (sink_view E.taken E.faults err.new))) }
{
    match query_in_file(context.alloc, name, desk) {
        Ok(query) => {
            let status = search_file(context, &query, archive, desk, out, err);
            drop_query(query);
            status
        }
        Err(why) => report_refusal(context.alloc, &why, err),
    }
}

// Searches the archive in a file for the query that a text spells.
fn do_eval<R: Threads + Sync, D: Desk, O: Sink, E: Sink, G: Gate + Sync>(
    context: &RunContext<'_, R, G>,
    text: &[u8],
    archive: &[u8],
    desk: &mut D,
    out: &mut O,
    err: &mut E,
) -> Status
    ensures { DoesJob (jobs.Eval text.now archive.now context.now.settings) result (call_of
        (desk_view D.told D.left D.faults D.open_faults desk.old) (desk_view D.told D.left D.faults D.open_faults desk.new)
        (sinks_of (sink_view O.taken O.faults out.old) (sink_view O.taken O.faults out.new)
        (sink_view E.taken E.faults err.old) (sink_view E.taken E.faults err.new))) }
{
    let query = match read_query(context.alloc, text) {
        Ok(query) => query,
        Err(Refusal::Fault(fault)) => return refuse_query(context.alloc, &fault, err),
        Err(Refusal::NoMemory) => return Status::NoMemory,
    };
    let status = search_file(context, &query, archive, desk, out, err);
    drop_query(query);
    status
}

// Searches the archive in a file for an accepted query.
fn search_file<R: Threads + Sync, D: Desk, O: Sink, E: Sink, G: Gate + Sync>(
    context: &RunContext<'_, R, G>,
    query: &TypedQuery,
    archive: &[u8],
    desk: &mut D,
    out: &mut O,
    err: &mut E,
) -> Status
    ensures { AnswersFile archive.now context.now.settings.limit (expected_output context.now.settings.first (query_tree query.now.query)) result (call_of
        (desk_view D.told D.left D.faults D.open_faults desk.old) (desk_view D.told D.left D.faults D.open_faults desk.new)
        (sinks_of (sink_view O.taken O.faults out.old) (sink_view O.taken O.faults out.new)
        (sink_view E.taken E.faults err.old) (sink_view E.taken E.faults err.new))) }
{
    match desk.open(context.alloc, archive) {
        Ok(()) => search_archive(context, query, desk, out, err),
        Err(OpenFault::Failed) => Status::OpenFault,
        Err(OpenFault::NoMemory) => Status::NoMemory,
    }
}

// Searches the archive in a file for the queries in another.
fn do_many<R: Threads + Sync, D: Desk, O: Sink, E: Sink, G: Gate + Sync>(
    context: &RunContext<'_, R, G>,
    name: &[u8],
    archive: &[u8],
    desk: &mut D,
    out: &mut O,
    err: &mut E,
) -> Status
    ensures { DoesJob (jobs.Many name.now archive.now context.now.settings) result (call_of
        (desk_view D.told D.left D.faults D.open_faults desk.old) (desk_view D.told D.left D.faults D.open_faults desk.new)
        (sinks_of (sink_view O.taken O.faults out.old) (sink_view O.taken O.faults out.new)
        (sink_view E.taken E.faults err.old) (sink_view E.taken E.faults err.new))) }
{
    match queries_in_file(context.alloc, name, desk) {
        Ok(queries) => {
            let status = search_file_many(context, queries.as_slice(), archive, desk, out, err);
            drop_queries(queries);
            status
        }
        Err(why) => report_queries_refusal(context.alloc, &why, err),
    }
}

// Searches the archive in a file for several queries.
fn search_file_many<R: Threads + Sync, D: Desk, O: Sink, E: Sink, G: Gate + Sync>(
    context: &RunContext<'_, R, G>,
    queries: &[TypedQuery],
    archive: &[u8],
    desk: &mut D,
    out: &mut O,
    err: &mut E,
) -> Status
    requires few { (1 ≤ length queries.now) × (length queries.now ≤ 16) }
    ensures { AnswersFile archive.now context.now.settings.limit (texts_of_all (trees_of queries.now)) result (call_of
        (desk_view D.told D.left D.faults D.open_faults desk.old) (desk_view D.told D.left D.faults D.open_faults desk.new)
        (sinks_of (sink_view O.taken O.faults out.old) (sink_view O.taken O.faults out.new)
        (sink_view E.taken E.faults err.old) (sink_view E.taken E.faults err.new))) }
{
    match desk.open(context.alloc, archive) {
        Ok(()) => search_archive_many(context, queries, desk, out, err),
        Err(OpenFault::Failed) => Status::OpenFault,
        Err(OpenFault::NoMemory) => Status::NoMemory,
    }
}

// Writes `ok` if the query in a file is accepted.
fn do_check<D: Desk, O: Sink, E: Sink>(
    alloc: Global,
    name: &[u8],
    desk: &mut D,
    out: &mut O,
    err: &mut E,
) -> Status
    ensures { OverFile query_file_kind name.now SaysAccepted result (call_of
        (desk_view D.told D.left D.faults D.open_faults desk.old) (desk_view D.told D.left D.faults D.open_faults desk.new)
        (sinks_of (sink_view O.taken O.faults out.old) (sink_view O.taken O.faults out.new)
        (sink_view E.taken E.faults err.old) (sink_view E.taken E.faults err.new))) }
{
    match query_in_file(alloc, name, desk) {
        Ok(query) => {
            drop_query(query);
            accept_query(out)
        }
        Err(why) => report_refusal(alloc, &why, err),
    }
}

// Writes the flat form of the query in a file.
fn do_explain<D: Desk, O: Sink, E: Sink>(
    alloc: Global,
    name: &[u8],
    desk: &mut D,
    out: &mut O,
    err: &mut E,
) -> Status
    ensures { OverFile query_file_kind name.now Explains result (call_of
        (desk_view D.told D.left D.faults D.open_faults desk.old) (desk_view D.told D.left D.faults D.open_faults desk.new)
        (sinks_of (sink_view O.taken O.faults out.old) (sink_view O.taken O.faults out.new)
        (sink_view E.taken E.faults err.old) (sink_view E.taken E.faults err.new))) }
{
    match query_in_file(alloc, name, desk) {
        Ok(query) => {
            let status = explain(alloc, &query, out);
            drop_query(query);
            status
        }
        Err(why) => report_refusal(alloc, &why, err),
    }
}
