//! The writer of the texts of some games of a batch. Lines go to the sink by pages, so that a short game needs no call of its own, and a
//! long one is not copied.
ghost use Rattle.std.specs.Prelude.{◌≡◌, ◌++◌, ◌≤◌, ◌^◌, [], ℕ, List, IfOk, OnOk};
ghost use Rattle.pgn_json.specs.Internal.Pages.{Adds, WaitsOf, WritesText};
ghost use Rattle.pgn_json.specs.Internal.Parts.{part_at};
ghost use Rattle.pgn_json.specs.Internal.Texts.{AnswersPart, all_faults, all_faulty, all_lines};
ghost use Rattle.cq_program.specs.Views.{SinkView, sink_view};
ghost use Rattle.pgn_json.specs.Writing.{sinks_of};

use crate::part_texts::{GameTextTask, part_texts};
use crate::texts::Texts;
use cq_common::{Bytes, Failed, NoMemory, Refusal};
use cq_outside::{Sink, write_all_of};
use cq_program::Status;
use std::alloc::Global;
use std::thread::Threads;

/// The number of waiting bytes from which on they are written.
const PAGE: usize = 65_536;

/// Writes the texts of a part of a batch, made by so many workers, from 1 to 64, which is a condition. Returns the number of its faulty
/// games.
///
/// # Errors
///
/// - `WriteFault`: a write failed. A prefix of the texts may be written.
/// - `NoMemory`: out of memory. A prefix of the texts may be written.
pub(crate) fn write_part<R: Threads + Sync, O: Sink, E: Sink>(
    rt: &R,
    alloc: Global,
    task: &GameTextTask<'_>,
    workers: u32,
    out: &mut O,
    err: &mut E,
) -> Result<u64, Status>
    requires { (1 ≤ workers) × (workers ≤ 64) }
    ensures { AnswersPart (part_at task.now.mark.now task.now.batch.now task.now.first)
        (sinks_of O.taken O.faults E.taken E.faults out.old err.old) (sinks_of O.taken O.faults E.taken E.faults out.new err.new) result }
{
    let Ok(texts) = part_texts(rt, alloc, task, workers) else {
        return Err(Status::NoMemory);
    };
    let Ok((faults, faulty)) = joined_faults(alloc, &texts) else {
        return Err(Status::NoMemory);
    };
    match write_lines(alloc, &texts, out) {
        Ok(()) => {}
        Err(Refusal::Fault(_)) => return Err(Status::WriteFault),
        Err(Refusal::NoMemory) => return Err(Status::NoMemory),
    }
    match write_all_of(err, faults.as_slice()) {
        Ok(()) => Ok(faulty),
        Err(_) => Err(Status::WriteFault),
    }
}

// Returns the lines of the faulty games, one after the other, and the number of these games.
fn joined_faults(alloc: Global, texts: &[Texts]) -> Result<(Bytes, u64), NoMemory>
    requires { all_faulty texts.now ≤ 2 ^ 32 }
    ensures { IfOk result (λ r. (r.0 ≡ all_faults texts.now) × (r.1 ≡ all_faulty texts.now)) }
{
    let mut faults = Bytes::new(alloc);
    let mut faulty = 0;
    for i in 0..texts.len() {
        faults.push_all(texts[i].faults.as_slice())?;
        faulty += texts[i].faulty;
    }
    Ok((faults, faulty))
}

// Writes the lines of the games that are read.
fn write_lines<O: Sink>(alloc: Global, texts: &[Texts], out: &mut O) -> Result<(), Refusal<Failed>>
    ensures { WritesText (all_lines texts.now) (sink_view O.taken O.faults out.old) (sink_view O.taken O.faults out.new) result }
{
    let mut page = Vec::new(alloc);
    for i in 0..texts.len() {
        match add_text(&mut page, texts[i].lines.as_slice(), out) {
            Ok(()) => {}
            Err(refusal) => return Err(refusal),
        }
    }
    write_page(&mut page, out)
}

// Adds a text to the waiting bytes, which are written once they fill a page. A text that fills a page alone is not copied.
fn add_text<O: Sink>(page: &mut Vec<u8>, text: &[u8], out: &mut O) -> Result<(), Refusal<Failed>>
    ensures { (was : SinkView) (before : List ℕ) → WaitsOf before was (sink_view O.taken O.faults out.old) page.old.items
        → Adds (before ++ text.now) was (sink_view O.taken O.faults out.new) page.new.items result }
{
    if text.len() >= PAGE {
        return write_long(page, text, out);
    }
    match page.extend_from_slice(text) {
        Ok(()) => {}
        Err(_) => return Err(Refusal::NoMemory),
    }
    if page.len() < PAGE {
        return Ok(());
    }
    write_page(page, out)
}

// Writes the waiting bytes, and then a text.
fn write_long<O: Sink>(page: &mut Vec<u8>, text: &[u8], out: &mut O) -> Result<(), Refusal<Failed>>
    ensures { (was : SinkView) (before : List ℕ) → WaitsOf before was (sink_view O.taken O.faults out.old) page.old.items
        → Adds (before ++ text.now) was (sink_view O.taken O.faults out.new) page.new.items result }
{
    match write_page(page, out) {
        Ok(()) => {}
        Err(refusal) => return Err(refusal),
    }
    match write_all_of(out, text) {
        Ok(()) => Ok(()),
        Err(failed) => Err(Refusal::Fault(failed)),
    }
}

// Writes the waiting bytes.
fn write_page<O: Sink>(page: &mut Vec<u8>, out: &mut O) -> Result<(), Refusal<Failed>>
    ensures adds { (was : SinkView) (before : List ℕ) → WaitsOf before was (sink_view O.taken O.faults out.old) page.old.items
        → Adds before was (sink_view O.taken O.faults out.new) page.new.items result }
    ensures nothing { OnOk result (page.new.items ≡ []) }
{
    match write_all_of(out, page.as_slice()) {
        Ok(()) => {
            page.clear();
            Ok(())
        }
        Err(failed) => Err(Refusal::Fault(failed)),
    }
}
