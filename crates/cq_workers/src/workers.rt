//! Workers that draw games and make an output of each.
ghost use Rattle.std.specs.Prelude.{◌≡◌, ◌++◌, ◌<◌, ◌≤◌, ◌^◌, [], length, All, IfOk, OnOk};
ghost use Rattle.cq_board.specs.Seats.{numbers_of, seats_of, IsSeatOf, drawn, HasEnded};
ghost use Rattle.cq_workers.specs.Internal.WorkerStates.{HasWorked, IsFresh, IsThrough};
ghost use Rattle.cq_workers.specs.Outputs.{AreOutputsOf, option_list};

use crate::game_task::GameTask;
use crate::starting::for_each_started;
use cq_board::{Board, ClaimSeat};
use cq_common::NoMemory;
use std::alloc::Global;
use std::thread::Threads;

/// A worker: its seat at the board, its state, and its outputs so far. A worker that is out of memory stops.
#[derive(Drop)]
pub(crate) struct Worker<K, X> {
    pub(crate) seat: ClaimSeat,
    pub(crate) kept: K,
    pub(crate) made: Vec<X>,
    pub(crate) is_out_of_memory: bool,
}

/// The states of so many workers that keep none.
///
/// # Errors
///
/// `NoMemory` if out of memory.
pub fn unit_states(alloc: Global, workers: u32) -> Result<Vec<()>, NoMemory>
    ensures { IfOk result (λ kept. length kept.items ≡ workers) }
{
    let mut kept = Vec::with_capacity(alloc, workers as usize)?;
    for _worker in 0..workers {
        kept.push(())?;
    }
    Ok(kept)
}

/// The outputs of all games, and the last states of workers that begin with these. They draw the games one by one. If a thread can't be
/// started, the call doesn't fail: this thread does that worker's work, after that of the later workers.
///
/// # Errors
///
/// `NoMemory` if a worker, or the call itself, is out of memory; there is no output then.
pub fn run_workers<R: Threads + Sync, M: GameTask + Sync>(
    rt: &R,
    alloc: Global,
    task: &M,
    kept: Vec<M::State>,
) -> Result<(Vec<M::State>, Vec<M::Output>), NoMemory>
    requires games { M.games task.now ≤ 2 ^ 32 }
    requires workers { (1 ≤ length kept.items) × (length kept.items ≤ 64) }
    requires nothing { All (λ k. M.has_outputs task.now k [] []) kept.items }
    ensures made { IfOk result (λ r. AreOutputsOf (M.has_outputs task.now) (M.games task.now) r.0.items r.1.items) }
    ensures count { IfOk result (λ r. length r.0.items ≡ length kept.items) }
{
    let (board, seats) = Board::make(alloc, task.len(), kept.len() as u32)?;
    let mut slots = seat_workers(alloc, task, &board, seats, kept)?;
    for_each_started(
        rt,
        slots.as_mut_slice(),
        &|me: usize, worker: &mut Worker<M::State, M::Output>|
            requires games { numbers_of board ≡ M.games task.now }
            requires fresh { IsFresh (M.has_outputs task.now) board worker.old }
        { work(alloc, task, &board, me as u64, worker) },
    );
    collect_outputs(alloc, task, board, slots)
}

// A worker at each seat.
fn seat_workers<M: GameTask>(
    alloc: Global,
    task: &M,
    board: &Board,
    seats: Vec<ClaimSeat>,
    kept: Vec<M::State>,
) -> Result<Vec<Worker<M::State, M::Output>>, NoMemory>
    requires seats { All (λ s. IsSeatOf board.now s × (drawn s ≡ []) × (HasEnded s → ⊥)) seats.items }
    requires nothing { All (λ k. M.has_outputs task.now k [] []) kept.items }
    requires count { length kept.items ≡ length seats.items }
    ensures fresh { IfOk result (λ slots. All (IsFresh (M.has_outputs task.now) board.now) slots.items) }
    ensures count { IfOk result (λ slots. length slots.items ≡ length seats.items) }
{
    let mut seats = seats;
    let mut kept = kept;
    let mut slots = Vec::with_capacity(alloc, seats.len())?;
    while let Some(seat) = seats.pop() {
        let Some(own) = kept.pop() else {
            unreachable!()
        };
        slots.push(Worker {
            seat,
            kept: own,
            made: Vec::new(alloc),
            is_out_of_memory: false,
        })?;
    }
    Ok(slots)
}

// Draws games until none is left, or the worker is out of memory.
fn work<M: GameTask>(
    alloc: Global,
    task: &M,
    board: &Board,
    me: u64,
    worker: &mut Worker<M::State, M::Output>,
)
    requires games { numbers_of board.now ≡ M.games task.now }
    requires fresh { IsFresh (M.has_outputs task.now) board.now worker.old }
    ensures { HasWorked (M.has_outputs task.now) board.now worker.new }
{
    worker.is_out_of_memory = draw_all(alloc, task, board, me, worker).is_err();
}

// Draws games and makes an output of each until the seat draws `None`.
fn draw_all<M: GameTask>(
    alloc: Global,
    task: &M,
    board: &Board,
    me: u64,
    worker: &mut Worker<M::State, M::Output>,
) -> Result<(), NoMemory>
    requires games { numbers_of board.now ≡ M.games task.now }
    requires fresh { IsFresh (M.has_outputs task.now) board.now worker.old }
    ensures { OnOk result (IsThrough (M.has_outputs task.now) board.now worker.new) }
{
    for _turn in 0..task.len() + 1 {
        let Some(number) = board.claim(&mut worker.seat) else {
            return Ok(());
        };
        let one = task.make(alloc, me, number, &mut worker.kept)?;
        keep(&mut worker.made, one)?;
    }
    Ok(())
}

// Keeps the output, if there is one.
fn keep<X: Drop>(made: &mut Vec<X>, one: Option<X>) -> Result<(), NoMemory>
    ensures { OnOk result (made.new.items ≡ made.old.items ++ option_list one) }
{
    match one {
        Some(one) => Ok(made.push(one)?),
        None => Ok(()),
    }
}

// The outputs and states of all workers, once they have ended.
fn collect_outputs<M: GameTask>(
    alloc: Global,
    task: &M,
    board: Board,
    slots: Vec<Worker<M::State, M::Output>>,
) -> Result<(Vec<M::State>, Vec<M::Output>), NoMemory>
    requires games { numbers_of board ≡ M.games task.now }
    requires worked { All (HasWorked (M.has_outputs task.now) board) slots.items }
    requires count { length slots.items ≡ seats_of board }
    ensures made { IfOk result (λ r. AreOutputsOf (M.has_outputs task.now) (M.games task.now) r.0.items r.1.items) }
    ensures count { IfOk result (λ r. length r.0.items ≡ seats_of board) }
{
    let mut slots = slots;
    let mut seats = Vec::with_capacity(alloc, slots.len())?;
    let mut kept = Vec::with_capacity(alloc, slots.len())?;
    let mut made = Vec::new(alloc);
    while let Some(worker) = slots.pop() {
        if worker.is_out_of_memory {
            return Err(NoMemory);
        }
        let mut more = worker.made;
        made.append(&mut more)?;
        seats.push(worker.seat)?;
        kept.push(worker.kept)?;
    }
    board.close(seats)?;
    Ok((kept, made))
}
