//! `answer` and `answer_many`, called by themselves over a game that matches.
ghost use Rattle.std.specs.Prelude.{◌≡◌, ◌≤◌, length, IfOk};

use crate::plans::read_query;
use cq_common::{NoMemory, Refusal};
use cq_outside::{MemSource, OpenGate, SureSink};
use cq_query_files::Status;
use cq_search::{answer, answer_many};
use cq_words::Settings;
use cql_syntax::{QueryFault, TypedQuery};
use std::alloc::Global;
use std::test::Fail;
use std::thread::Threads;

const GAME: &[u8] = b"1. d4 *\n";

const EXPORT: &[u8] =
    b"[Event \"?\"]\n[Site \"?\"]\n[Date \"????.??.??\"]\n[Round \"?\"]\n[White \"?\"]\n[Black \"?\"]\n\
    [Result \"*\"]\n\n1. d4 {CQL} *\n\n";

const HEADED: &[u8] = b"query 1 bytes 108\n\
    [Event \"?\"]\n[Site \"?\"]\n[Date \"????.??.??\"]\n[Round \"?\"]\n[White \"?\"]\n[Black \"?\"]\n\
    [Result \"*\"]\n\n1. d4 {CQL} *\n\n";

const REPORT: &[u8] = b"games 1 matched 1 refused 0\n";

// Returns the status of `answer` up to its first match. The contract of this call is a large one.
fn status_of_answer<R: Threads + Sync>(
    rt: &R,
    alloc: Global,
    query: &TypedQuery,
    source: &mut MemSource,
    out: &mut SureSink,
    err: &mut SureSink,
) -> Status {
    let settings = Settings {
        workers: 4,
        limit: 1_099_511_627_776,
        first: true,
    };
    answer(rt, alloc, query, settings, source, out, err, &OpenGate)
}

// Returns the status of `answer_many`. Its contract is as large.
fn status_of_many<R: Threads + Sync>(
    rt: &R,
    alloc: Global,
    queries: &[TypedQuery],
    source: &mut MemSource,
    out: &mut SureSink,
    err: &mut SureSink,
) -> Status
    requires { (1 ≤ length queries.now) × (length queries.now ≤ 16) }
{
    let settings = Settings {
        workers: 4,
        limit: 1_099_511_627_776,
        first: false,
    };
    answer_many(rt, alloc, queries, settings, source, out, err, &OpenGate)
}

// Returns the status for the one query, by itself or as one of several.
fn status_of_one<R: Threads + Sync>(
    rt: &R,
    alloc: Global,
    queries: &[TypedQuery],
    several: bool,
    source: &mut MemSource,
    out: &mut SureSink,
    err: &mut SureSink,
) -> Status
    requires { length queries.now ≡ 1 }
{
    if several {
        status_of_many(rt, alloc, queries, source, out, err)
    } else {
        status_of_answer(rt, alloc, &queries[0], source, out, err)
    }
}

// Returns true if the status is `Done`, with this text and the report of one match.
fn is_done(status: Status, out: &SureSink, err: &SureSink, text: &[u8]) -> bool {
    status == Status::Done && out.taken() == Some(text) && err.taken() == Some(REPORT)
}

fn is_answered_with<R: Threads + Sync>(
    rt: &R,
    alloc: Global,
    queries: &[TypedQuery],
    several: bool,
    source: &mut MemSource,
    out: &mut SureSink,
) -> Result<bool, NoMemory>
    requires { length queries.now ≡ 1 }
{
    let mut err = SureSink::new(alloc, 4096)?;
    let status = status_of_one(rt, alloc, queries, several, source, out, &mut err);
    let text = if several { HEADED } else { EXPORT };
    Ok(is_done(status, out, &err, text))
}

fn is_answered_over<R: Threads + Sync>(
    rt: &R,
    alloc: Global,
    queries: &[TypedQuery],
    several: bool,
    source: &mut MemSource,
) -> Result<bool, NoMemory>
    requires { length queries.now ≡ 1 }
{
    let mut out = SureSink::new(alloc, 4096)?;
    is_answered_with(rt, alloc, queries, several, source, &mut out)
}

// Returns true if the output of the one query over the game is as it should be.
fn is_answered<R: Threads + Sync>(
    rt: &R,
    alloc: Global,
    queries: &[TypedQuery],
    several: bool,
) -> Result<bool, NoMemory>
    requires { length queries.now ≡ 1 }
{
    let mut source = MemSource::new(alloc, GAME, 8, &[])?;
    is_answered_over(rt, alloc, queries, several, &mut source)
}

fn is_answered_both_ways<R: Threads + Sync>(
    rt: &R,
    alloc: Global,
    queries: &[TypedQuery],
) -> Result<bool, NoMemory>
    requires { length queries.now ≡ 1 }
{
    Ok(is_answered(rt, alloc, queries, false)? && is_answered(rt, alloc, queries, true)?)
}

fn one_query(alloc: Global) -> Result<Vec<TypedQuery>, Refusal<QueryFault>>
    ensures { IfOk result (λ queries. length queries.items ≡ 1) }
{
    let mut queries = Vec::new(alloc);
    queries.push(read_query(alloc, b"cql() Pd4")?)?;
    Ok(queries)
}

#[test]
fn a_query_is_answered_by_itself_and_as_one_of_several(rt: HostRuntime) -> Result<(), Fail> {
    let queries = one_query(rt.alloc())?;
    assert!(rt; is_answered_both_ways(&rt, rt.alloc(), queries.as_slice())?);
    Ok(())
}
