//! Calls at the elements of a slice, each of several in a thread of its own.
ghost use Rattle.std.specs.Prelude.{◌≡◌, ◌+◌, ◌<◌, ◌≤◌, ◌^◌, ℕ, length};
ghost use Rattle.std.specs.Thread.{IsSend, IsSync};
ghost use Rattle.std.specs.Fork.{AcceptsAt, AcceptsEach, ChangesEach};
ghost use Rattle.cq_workers.specs.Internal.Starts.{AcceptsFrom, ChangesFrom, MayLeave};

use std::thread;
use std::thread::{Threads, join_mut};

/// Calls `f(i, &mut all[i])` at each place. A single call is made in this thread, each of several in a new one. If a thread can't be
/// started, its call is made in this one, after the calls at later places.
///
/// Of several calls this thread makes none that can have a thread of its own. A new thread may be put on the processor of the one that
/// starts it, and would wait there while that one works.
pub(crate) fn for_each_started<R: Threads + Sync, T: Send, F: Fn(usize, &mut T) + Sync>(
    rt: &R,
    all: &mut [T],
    f: &F,
)
    requires accepts { AcceptsEach F.Fn f.now all.old }
    ensures { ChangesEach F.Fn f.now all.old all.new }
{
    if all.len() < 2 {
        return thread::for_each_mut(rt, all, 1, f);
    }
    start_all(rt, f, 0, all);
}

// Starts the calls at elements that are numbered from `i` on.
#[cycle(starts)]
fn start_all<R: Threads + Sync, T: Send, F: Fn(usize, &mut T) + Sync>(
    rt: &R,
    f: &F,
    i: usize,
    all: &mut [T],
)
    requires few { i + length all.old < 2 ^ 64 }
    requires accepts { AcceptsFrom F.Fn f.now i all.old }
    ensures { ChangesFrom F.Fn f.now i all.old all.new }
{
    if let Some((first, rest)) = all.split_first_mut() {
        start_one(rt, f, i, first, rest);
    }
}

// Starts the call at an element, and then those at the rest.
#[cycle(starts)]
fn start_one<R: Threads + Sync, T: Send, F: Fn(usize, &mut T) + Sync>(
    rt: &R,
    f: &F,
    i: usize,
    first: &mut T,
    rest: &mut [T],
)
    requires few { i + 1 + length rest.old < 2 ^ 64 }
    requires accepts { AcceptsAt F.Fn f.now i first.old }
    requires accepts_rest { AcceptsFrom F.Fn f.now (i + 1) rest.old }
    ensures changes { MayLeave F.Fn f.now i first.old first.new }
    ensures changes_rest { ChangesFrom F.Fn f.now (i + 1) rest.old rest.new }
{
    let mut one = ||
        requires { IsSync F.row × IsSend T.row × AcceptsAt F.Fn f.now i first.now }
        ensures { MayLeave F.Fn f.entry.now i first.entry.now first.exit.now }
    { call_at(f, i, first) };
    let mut others = ||
        requires { IsSync R.row × IsSync F.row × IsSend T.row × (i + 1 + length rest.now < 2 ^ 64)
            × AcceptsFrom F.Fn f.now (i + 1) rest.now }
        ensures { ChangesFrom F.Fn f.entry.now (i + 1) rest.entry.now rest.exit.now }
    { start_all(rt, f, i + 1, rest) };
    join_mut(rt, &mut one, &mut others);
}

#[tactic(auto, unfolding(crate::specs::Internal::Starts::MayLeave))]
fn call_at<T, F: Fn(usize, &mut T)>(f: &F, i: usize, x: &mut T)
    requires { AcceptsAt F.Fn f.now i x.old }
    ensures { MayLeave F.Fn f.now i x.old x.new }
{
    f(i, x);
}
