//! Calls of the outside that fail at each place in turn, over one game. The status is that of the cause. Each sink has taken all of its
//! text, nothing if a read failed, or a prefix. The tests of the process do the same with several batches.
ghost use Rattle.std.specs.Prelude.{◌≤◌};

use crate::calls::{is_part, sink_with, status_of};
use cq_common::NoMemory;
use cq_outside::{Calls, MemDesk, MemSink, OpenGate};
use cq_run::Status;
use std::alloc::Global;
use std::process::Abort;
use std::test::Fail;
use std::thread::Threads;

/// A game in the form of a chess server.
const GAME: &str = "\u{feff}[Event \"Rated blitz game\"]\r\n\
    [Site \"https://lichess.org/abcd1234\"]\r\n\
    [Date \"2023.05.14\"]\r\n\
    [Round \"-\"]\r\n\
    [White \"Müller\"]\r\n\
    [Black \"anna\"]\r\n\
    [Result \"1-0\"]\r\n\
    [WhiteElo \"1850\"]\r\n\
    [BlackElo \"1799\"]\r\n\
    [TimeControl \"180+2\"]\r\n\
    \r\n\
    1. e4 { [%clk 0:03:00] } 1... e5 { [%clk 0:03:00] } 2. Qh5!? { [%clk 0:02:58] } \
    2... Nc6 { [%clk 0:02:57] } 3. Bc4 $1 { [%clk 0:02:55] } \
    3... Nf6?? { [%clk 0:02:51] } 4. Qxf7# { [%clk 0:02:54] } 1-0\r\n";

const EXPORT: &str = "[Event \"Rated blitz game\"]\n\
    [Site \"https://lichess.org/abcd1234\"]\n\
    [Date \"2023.05.14\"]\n\
    [Round \"-\"]\n\
    [White \"Müller\"]\n\
    [Black \"anna\"]\n\
    [Result \"1-0\"]\n\
    [BlackElo \"1799\"]\n\
    [TimeControl \"180+2\"]\n\
    [WhiteElo \"1850\"]\n\
    \n\
    1. e4 {[%clk 0:03:00]} 1... e5 {[%clk 0:03:00]} 2. Qh5 $5 {[%clk 0:02:58]} 2...\n\
    Nc6 {[%clk 0:02:57]} 3. Bc4 $1 {[%clk 0:02:55]} 3... Nf6 $4 {[%clk 0:02:51]} 4.\n\
    Qxf7# {[%clk 0:02:54]} {mate} 1-0\n\
    \n";

const REPORT: &str = "games 1 matched 1 refused 0\n";

const WORDS: &[&str] = &[
    "eval",
    "cql(matchstring \"mate\") mate year == 2023 elo white > 1800",
    "--workers",
    "1",
];

/// The most calls that are made to fail in turn, before a run in which none fails.
const MOST_CALLS: u64 = 8192;

/// The most bytes that a call takes or gives if none of its kind fails.
const PIECE: usize = 65_536;

/// The most bytes that a read gives and a write takes, and the numbers of the calls that fail. These are a read, a write to the first sink,
/// and one to the second. No call has the number 0.
type FailureRun = (usize, usize, u64, u64, u64);

// ---- one run

// Returns the number of bytes that a sink has taken before the write that fails, if each write before took one. After it there is none.
fn taken_before(number: u64, piece: usize) -> Option<usize> {
    if piece == 1 && number > 0 {
        Some((number - 1) as usize)
    } else {
        None
    }
}

// Returns the numbers of bytes that the two sinks should have taken, None for any number. Returns None if this status should not be.
fn counts(run: &FailureRun, status: Status) -> Option<(Option<usize>, Option<usize>)> {
    let (_, taken, read, at_out, at_err) = *run;
    if status == Status::Done {
        return Some((Some(EXPORT.len()), Some(REPORT.len())));
    }
    if status == Status::ReadFault && read > 0 {
        return Some((Some(0), Some(0)));
    }
    if status == Status::WriteFault && (at_out > 0 || at_err > 0) {
        return Some((taken_before(at_out, taken), taken_before(at_err, taken)));
    }
    None
}

// Returns a desk with the game as standard input, whose reads give so many bytes, and of which this one fails.
fn desk_with(alloc: Global, given: usize, read: u64) -> Result<MemDesk, NoMemory>
    requires { 1 ≤ given }
{
    let mut desk = MemDesk::new(alloc, Calls::none(alloc));
    desk.add(b"-", GAME.as_bytes(), given, &[read])?;
    Ok(desk)
}

// Returns the status in a run, over two sinks.
fn status_of_run<R: Threads + Sync + Abort>(
    rt: &R,
    alloc: Global,
    run: &FailureRun,
    out: &mut MemSink,
    err: &mut MemSink,
) -> Result<Status, NoMemory> {
    assert!(rt; run.0 >= 1);
    let mut desk = desk_with(alloc, run.0, run.2)?;
    status_of(rt, alloc, WORDS, &mut desk, out, err, &OpenGate)
}

// Returns true if this status and the texts of the sinks are as they should be in a run.
fn is_right(run: &FailureRun, status: Status, out: Option<&[u8]>, err: Option<&[u8]>) -> bool {
    match counts(run, status) {
        Some((outs, errs)) => is_part(out, EXPORT, outs) && is_part(err, REPORT, errs),
        None => false,
    }
}

// Fails unless this holds over two sinks. Returns true if a call failed.
fn expect_by<R: Threads + Sync + Abort>(
    rt: &R,
    alloc: Global,
    run: &FailureRun,
    out: &mut MemSink,
    err: &mut MemSink,
) -> Result<bool, Fail> {
    let status = status_of_run(rt, alloc, run, out, err)?;
    assert!(rt; is_right(run, status, out.taken(), err.taken()));
    Ok(status != Status::Done)
}

// Does the same over a first sink.
fn expect_with<R: Threads + Sync + Abort>(
    rt: &R,
    alloc: Global,
    run: &FailureRun,
    out: &mut MemSink,
) -> Result<bool, Fail> {
    assert!(rt; run.1 >= 1);
    let mut err = sink_with(alloc, run.1, &[run.4])?;
    expect_by(rt, alloc, run, out, &mut err)
}

// Fails unless this holds. Returns true if a call failed.
fn expect<R: Threads + Sync + Abort>(
    rt: &R,
    alloc: Global,
    run: &FailureRun,
) -> Result<bool, Fail> {
    assert!(rt; run.1 >= 1);
    let mut out = sink_with(alloc, run.1, &[run.3])?;
    expect_with(rt, alloc, run, &mut out)
}

// ---- one call after the other

/// The calls that fail in turn.
#[derive(Clone, Copy)]
enum Failing {
    Reads,
    Outs,
    Errs,
}

fn run_of(failing: Failing, piece: usize, number: u64) -> FailureRun {
    match failing {
        Failing::Reads => (piece, PIECE, number, 0, 0),
        Failing::Outs => (PIECE, piece, 0, number, 0),
        Failing::Errs => (PIECE, piece, 0, 0, number),
    }
}

/// The calls that fail, the most bytes that one gives or takes, and the bits that the number of a failing call hasn't. A read costs as much
/// however little it gives, so of many reads a part fails.
type FailureTurns = (Failing, usize, u64);

static TURNS: [FailureTurns; 9] = [
    (Failing::Outs, 1, 0),
    (Failing::Errs, 1, 0),
    (Failing::Outs, 7, 0),
    (Failing::Errs, 7, 0),
    (Failing::Outs, 4096, 0),
    (Failing::Errs, 4096, 0),
    (Failing::Reads, 1, 31),
    (Failing::Reads, 7, 3),
    (Failing::Reads, 4096, 0),
];

// Lets calls fail in turn until none does. Returns the number of those that did.
fn failed_in_turn<R: Threads + Sync + Abort>(
    rt: &R,
    alloc: Global,
    turns: &FailureTurns,
) -> Result<u64, Fail> {
    let (failing, piece, passed) = *turns;
    let mut count = 0u64;
    for number in 1..MOST_CALLS {
        if number & passed == 0 {
            let run = run_of(failing, piece, number);
            if !expect(rt, alloc, &run)? {
                return Ok(count);
            }
            count = count.saturating_add(1);
        }
    }
    Ok(0)
}

#[test]
fn each_call_over_one_game_fails(rt: HostRuntime) -> Result<(), Fail> {
    for turns in TURNS.iter() {
        assert!(rt; failed_in_turn(&rt, rt.alloc(), turns)? > 0);
    }
    Ok(())
}
