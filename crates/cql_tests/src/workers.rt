//! Workers side by side at one batch.
use crate::plans::plan_of;
use cq_common::{Bytes, NoMemory};
use cq_outside::Gate;
use cq_shards::{Batch, run_batch};
use cql_plan::Plan;
use pgn_cut::cut_whole;
use std::alloc::Global;
use std::process::Abort;
use std::sync::atomic::{AtomicU32, Ordering};
use std::test::Fail;
use std::thread::Threads;

/// The number of games of the batch at which two workers are watched.
const WATCHED: u32 = 64;

/// The most looks of a call at the gate for the calls that it waits for.
const MOST_LOOKS: u32 = 1_000_000_000;

// Adds a game that has this number in its comment.
fn push_game(archive: &mut Bytes, number: u32) -> Result<(), NoMemory> {
    archive.push_all(b"{")?;
    archive.push_number(i64::from(number))?;
    archive.push_all(b"} *\n")
}

// Adds its export, marked at the root.
fn push_export(text: &mut Bytes, number: u32) -> Result<(), NoMemory> {
    text.push_all(b"[Event \"?\"]\n[Site \"?\"]\n[Date \"????.??.??\"]\n[Round \"?\"]\n")?;
    text.push_all(b"[White \"?\"]\n[Black \"?\"]\n[Result \"*\"]\n\n{")?;
    text.push_number(i64::from(number))?;
    text.push_all(b"} {CQL} *\n\n")
}

// Returns an archive of the games.
fn archive_of(alloc: Global) -> Result<Bytes, NoMemory> {
    let mut archive = Bytes::new(alloc);
    for number in 0..WATCHED {
        push_game(&mut archive, number)?;
    }
    Ok(archive)
}

/// A gate that counts its calls, and at which the first call of one kind waits for calls of another worker.
#[derive(Drop)]
struct Watch {
    exports: Vec<Bytes>,
    /// The number of times that each game was entered or left.
    calls: Vec<AtomicU32>,
    /// The number of games that each of the two workers left.
    by_worker: Vec<AtomicU32>,
    enters: AtomicU32,
    leaves: AtomicU32,
    /// The number of calls that were not as they should be.
    wrong: AtomicU32,
    /// True if the first call of `enter` waits until all other games are left. Else the first call of `leave` waits until the other worker
    /// has left a game.
    at_enter: bool,
}

// Returns their exports.
fn exports_of(alloc: Global) -> Result<Vec<Bytes>, NoMemory> {
    let mut exports = Vec::new(alloc);
    for number in 0..WATCHED {
        let mut text = Bytes::new(alloc);
        push_export(&mut text, number)?;
        exports.push(text)?;
    }
    Ok(exports)
}

// Returns so many counts of zero.
fn counts(alloc: Global, places: u32) -> Result<Vec<AtomicU32>, NoMemory> {
    let mut counts = Vec::new(alloc);
    for _ in 0..places {
        counts.push(AtomicU32::new(0))?;
    }
    Ok(counts)
}

// Adds one to the count at a place, and returns the count before it; none if there is no such place.
fn count_at(counts: &[AtomicU32], place: u64) -> Option<u32> {
    match counts.get(place as usize) {
        Some(count) => Some(count.fetch_add(1, Ordering::Relaxed)),
        None => None,
    }
}

// Looks until a count is so high. Returns true if it came to be so.
fn comes_to(count: &AtomicU32, high: u32) -> bool {
    for _look in 0..MOST_LOOKS {
        if count.load(Ordering::Relaxed) >= high {
            return true;
        }
    }
    false
}

impl Watch {
    fn new(alloc: Global, at_enter: bool) -> Result<Watch, NoMemory> {
        let exports = exports_of(alloc)?;
        let calls = counts(alloc, WATCHED)?;
        let by_worker = counts(alloc, 2)?;
        Ok(Watch {
            exports,
            calls,
            by_worker,
            enters: AtomicU32::new(0),
            leaves: AtomicU32::new(0),
            wrong: AtomicU32::new(0),
            at_enter,
        })
    }

    fn asks(&self, right: bool) {
        if !right {
            self.wrong.fetch_add(1, Ordering::Relaxed);
        }
    }

    // Returns true if this is the export of a game.
    fn is_export(&self, shard: u64, text: &[u8]) -> bool {
        match self.exports.get(shard as usize) {
            Some(export) => export.as_slice() == text,
            None => false,
        }
    }

    // Returns true if the other worker came to leave a game.
    fn meets_other(&self, worker: u64) -> bool {
        match self.by_worker.get((worker ^ 1) as usize) {
            Some(other) => comes_to(other, 1),
            None => false,
        }
    }

    // Returns true if there were as many calls of both kinds as games, and none was wrong.
    fn has_seen_all(&self) -> bool {
        let enters = self.enters.load(Ordering::Relaxed);
        let leaves = self.leaves.load(Ordering::Relaxed);
        let wrong = self.wrong.load(Ordering::Relaxed);
        enters == WATCHED && leaves == WATCHED && wrong == 0
    }
}

impl Gate for Watch {
    fn enter(&self, _worker: u64, shard: u64) {
        let first = self.enters.fetch_add(1, Ordering::Relaxed) == 0;
        self.asks(count_at(self.calls.as_slice(), shard) == Some(0));
        if first && self.at_enter {
            self.asks(comes_to(&self.leaves, WATCHED - 1));
        }
    }

    fn leave(&self, worker: u64, shard: u64, text: &[u8]) {
        self.asks(count_at(self.calls.as_slice(), shard) == Some(1));
        self.asks(self.is_export(shard, text));
        self.asks(count_at(self.by_worker.as_slice(), worker).is_some());
        let first = self.leaves.fetch_add(1, Ordering::Relaxed) == 0;
        if first && !self.at_enter {
            self.asks(self.meets_other(worker));
        }
    }
}

// Returns the batch of all games of an archive.
fn batch_of<R: Abort>(rt: &R, alloc: Global, archive: &[u8]) -> Result<Batch, NoMemory> {
    assert!(rt; archive.len() < 1 << 20);
    let spans = cut_whole(alloc, archive)?;
    assert!(rt; spans.len() <= 300);
    Batch::of(alloc, archive, spans.as_slice(), 0)
}

// Returns the number of answers of a batch. The contract of this call is a large one, so that it is made here alone.
fn count_answers<R: Threads + Sync>(
    rt: &R,
    alloc: Global,
    plan: &Plan,
    batch: &Batch,
    gate: &Watch,
) -> Result<usize, NoMemory> {
    Ok(run_batch(rt, alloc, plan, batch, 2, gate)?.len())
}

// Returns the batch of the games at which two workers are watched.
fn watched_batch<R: Abort>(rt: &R, alloc: Global) -> Result<Batch, NoMemory> {
    let archive = archive_of(alloc)?;
    batch_of(rt, alloc, archive.as_slice())
}

// Returns true if two workers enter and leave each game of a batch once.
fn are_both_seen<R: Threads + Sync>(
    rt: &R,
    alloc: Global,
    plan: &Plan,
    batch: &Batch,
    at_enter: bool,
) -> Result<bool, NoMemory> {
    let watch = Watch::new(alloc, at_enter)?;
    let count = count_answers(rt, alloc, plan, batch, &watch)?;
    Ok(count == 64 && watch.has_seen_all())
}

// Fails unless two workers enter and leave each game once.
fn expect_both<R: Threads + Sync + Abort>(
    rt: &R,
    alloc: Global,
    plan: &Plan,
    at_enter: bool,
) -> Result<(), Fail> {
    let batch = watched_batch(rt, alloc)?;
    assert!(rt; are_both_seen(rt, alloc, plan, &batch, at_enter)?);
    Ok(())
}

#[test]
fn two_workers_meet(rt: HostRuntime) -> Result<(), Fail> {
    let plan = plan_of(rt.alloc(), b"cql() initial")?;
    expect_both(&rt, rt.alloc(), &plan, false)
}

#[test]
fn one_worker_takes_the_rest(rt: HostRuntime) -> Result<(), Fail> {
    let plan = plan_of(rt.alloc(), b"cql() initial")?;
    expect_both(&rt, rt.alloc(), &plan, true)
}
