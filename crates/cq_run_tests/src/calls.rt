//! The top call, and its parameters in the tests.
ghost use Rattle.std.specs.Prelude.{◌≤◌};

use cq_common::NoMemory;
use cq_outside::{Calls, Desk, Gate, MemSink, Sink, SureDesk};
use cq_run::{Status, run};
use std::alloc::{AllocError, Global};
use std::thread::Threads;

// Returns the words as a command has them.
fn texts_of(alloc: Global, words: &[&str]) -> Result<Vec<String>, AllocError> {
    let mut texts = Vec::new(alloc);
    for word in words {
        texts.push(String::from_str(alloc, word)?)?;
    }
    Ok(texts)
}

/// Returns the words of a job, and so many workers.
pub(crate) fn job_of(
    alloc: Global,
    job: &[&str],
    workers: &str,
) -> Result<Vec<String>, AllocError> {
    let mut texts = texts_of(alloc, job)?;
    texts.push(String::from_str(alloc, "--workers")?)?;
    texts.push(String::from_str(alloc, workers)?)?;
    Ok(texts)
}

/// Returns a desk with these files, each a name and its text. The name `-` is standard input.
pub(crate) fn desk_of(alloc: Global, files: &[(&str, &str)]) -> Result<SureDesk, NoMemory> {
    let mut desk = SureDesk::new(alloc);
    for (name, bytes) in files {
        desk.add(name.as_bytes(), bytes.as_bytes())?;
    }
    Ok(desk)
}

/// Returns a sink that takes so many bytes a write, of which some fail.
pub(crate) fn sink_with(alloc: Global, piece: usize, fails: &[u64]) -> Result<MemSink, NoMemory>
    requires { 1 ≤ piece }
{
    MemSink::new(alloc, 4096, piece, Calls::of(alloc, fails)?)
}

/// Returns true if a sink has taken so many bytes of a text, or any number of them if none is given.
pub(crate) fn is_part(taken: Option<&[u8]>, text: &str, count: Option<usize>) -> bool {
    let Some(taken) = taken else {
        return false;
    };
    text.as_bytes().starts_with(taken) && taken.len() == count.unwrap_or(taken.len())
}

/// Returns the status of texts. The contract of the top call is a large one, so that all tests make this call alone.
pub(crate) fn status_by<R: Threads + Sync, D: Desk, O: Sink, E: Sink, G: Gate + Sync>(
    rt: &R,
    alloc: Global,
    texts: &[String],
    desk: &mut D,
    out: &mut O,
    err: &mut E,
    gate: &G,
) -> Status {
    run(rt, alloc, texts, desk, out, err, gate)
}

/// Returns the status of words.
pub(crate) fn status_of<R: Threads + Sync, D: Desk, O: Sink, E: Sink, G: Gate + Sync>(
    rt: &R,
    alloc: Global,
    words: &[&str],
    desk: &mut D,
    out: &mut O,
    err: &mut E,
    gate: &G,
) -> Result<Status, NoMemory> {
    let texts = texts_of(alloc, words)?;
    Ok(status_by(rt, alloc, texts.as_slice(), desk, out, err, gate))
}
