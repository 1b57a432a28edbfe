//! The number of workers of the program, and the gate that each of them tells.
use crate::calls::{desk_of, job_of, status_by};
use cq_common::NoMemory;
use cq_outside::{Gate, SureDesk, SureSink};
use cq_run::Status;
use std::alloc::Global;
use std::process::Abort;
use std::sync::atomic::{AtomicU32, Ordering};
use std::test::Fail;
use std::thread::Threads;

/// The most looks of the first worker for another one, if one has to come.
const MOST_LOOKS: u32 = 1_000_000_000;

/// The number of looks of each worker, at each game, for one that should not be there. A thread that is started begins within a few
/// milliseconds, and these looks take more, so that one worker too many would have a game.
const LOOKS_AT_A_GAME: u32 = 20_000_000;

/// A gate that counts its calls. If the program has more than one worker, it holds the first until another has come.
#[derive(Drop)]
struct Meeting {
    /// The number of workers that the words give.
    told: u64,
    enters: AtomicU32,
    leaves: AtomicU32,
    by_first: AtomicU32,
    by_others: AtomicU32,
    /// The number of calls of a worker too many.
    beyond: AtomicU32,
    /// The number of workers that were held until no other could be waited for.
    alone: AtomicU32,
    /// The number of games that were left with an export of a match of `cql() initial`.
    exports: AtomicU32,
}

// Looks so often until there is a count. Returns true if there came to be one.
fn comes(count: &AtomicU32, looks: u32) -> bool {
    for _look in 0..looks {
        if count.load(Ordering::Relaxed) > 0 {
            return true;
        }
    }
    false
}

fn add_if(count: &AtomicU32, counts: bool) {
    if counts {
        count.fetch_add(1, Ordering::Relaxed);
    }
}

impl Meeting {
    fn new(told: u64) -> Meeting {
        Meeting {
            told,
            enters: AtomicU32::new(0),
            leaves: AtomicU32::new(0),
            by_first: AtomicU32::new(0),
            by_others: AtomicU32::new(0),
            beyond: AtomicU32::new(0),
            alone: AtomicU32::new(0),
            exports: AtomicU32::new(0),
        }
    }

    // Returns true if there was a call of each kind for so many games, with so many exports. None may be by a worker too many, and no
    // worker may have waited in vain.
    fn has_seen(&self, games: u32, exports: u32) -> bool {
        let enters = self.enters.load(Ordering::Relaxed);
        let leaves = self.leaves.load(Ordering::Relaxed);
        let beyond = self.beyond.load(Ordering::Relaxed);
        let alone = self.alone.load(Ordering::Relaxed);
        let told = self.exports.load(Ordering::Relaxed);
        enters == games && leaves == games && told == exports && beyond == 0 && alone == 0
    }
}

impl Gate for Meeting {
    fn enter(&self, worker: u64, _shard: u64) {
        add_if(&self.beyond, worker >= self.told);
        let (own, other) = if worker == 0 {
            (&self.by_first, &self.by_others)
        } else {
            (&self.by_others, &self.by_first)
        };
        own.fetch_add(1, Ordering::Relaxed);
        let comes_first = self.enters.fetch_add(1, Ordering::Relaxed) == 0;
        if comes_first && self.told > 1 {
            add_if(&self.alone, !comes(other, MOST_LOOKS));
        }
        comes(&self.beyond, LOOKS_AT_A_GAME);
    }

    fn leave(&self, worker: u64, _shard: u64, text: &[u8]) {
        add_if(&self.beyond, worker >= self.told);
        self.leaves.fetch_add(1, Ordering::Relaxed);
        add_if(&self.exports, text.len() == 108 || text.len() == 102);
    }
}

/// A query, two pairs of queries, and an archive of eight games, of which none matches but those at their beginning.
static FILES: [(&str, &str); 4] = [
    ("q.cql", "cql() mate"),
    ("two.cql", "cql() mate\n%%\ncql() stalemate\n"),
    (
        "marked.cql",
        "cql() initial\n%%\ncql(matchstring \"X\") initial\n",
    ),
    ("games.pgn", "1. e4 *\n* * * * * * *\n"),
];

/// Words, the number of games that are entered and left, and the number of exports at the gate.
type WorkersCase<'a> = (&'a [&'a str], u32, u32);

/// Jobs of each mode that searches games. Of several queries the gate is told the exports of the first: one of 108 bytes and seven of 102.
/// Those of the second are shorter by two.
static JOBS: [WorkersCase<'static>; 7] = [
    (&["run", "q.cql", "games.pgn"], 8, 0),
    (&["eval", "cql() mate", "games.pgn"], 8, 0),
    (&["eval", "cql() mate sort \"p\" ply", "games.pgn"], 8, 0),
    (&["eval", "cql() mate", "games.pgn", "--first"], 8, 0),
    (&["selfrun", "cql() mate", "--games", "8"], 8, 0),
    (&["many", "two.cql", "games.pgn"], 8, 0),
    (&["many", "marked.cql", "games.pgn"], 8, 8),
];

/// One worker draws in order, so it skips every game after the first match.
static FIRST: WorkersCase<'static> = (&["eval", "cql() initial", "games.pgn", "--first"], 1, 1);

// Returns the status of words over a desk, at a gate.
fn status_of_words<R: Threads + Sync>(
    rt: &R,
    alloc: Global,
    words: &[String],
    desk: &mut SureDesk,
    gate: &Meeting,
) -> Result<Status, NoMemory> {
    let mut out = SureSink::new(alloc, 4096)?;
    let mut err = SureSink::new(alloc, 4096)?;
    Ok(status_by(rt, alloc, words, desk, &mut out, &mut err, gate))
}

// Returns the status of a job, at a gate.
fn status_at<R: Threads + Sync>(
    rt: &R,
    alloc: Global,
    job: &[&str],
    workers: &str,
    gate: &Meeting,
) -> Result<Status, NoMemory> {
    let words = job_of(alloc, job, workers)?;
    let mut desk = desk_of(alloc, &FILES)?;
    status_of_words(rt, alloc, words.as_slice(), &mut desk, gate)
}

// Fails unless so many workers enter and leave the games of a job once each, none of them a worker too many.
fn expect<R: Threads + Sync + Abort>(
    rt: &R,
    alloc: Global,
    job: &WorkersCase<'_>,
    workers: &str,
    told: u64,
) -> Result<(), Fail> {
    let gate = Meeting::new(told);
    let status = status_at(rt, alloc, job.0, workers, &gate)?;
    assert!(rt; status == Status::Done);
    assert!(rt; gate.has_seen(job.1, job.2));
    Ok(())
}

#[test]
fn all_workers_enter_games_of_each_job(rt: HostRuntime) -> Result<(), Fail> {
    for job in JOBS.iter() {
        expect(&rt, rt.alloc(), job, "1", 1)?;
        expect(&rt, rt.alloc(), job, "2", 2)?;
    }
    expect(&rt, rt.alloc(), &FIRST, "1", 1)
}
