//! The answers of one query to the games of a batch up to its first match.
ghost use Rattle.std.specs.Prelude.{◌≡◌, ◌<◌, ◌≤◌, length, IfOk};
ghost use Rattle.pgn_batches.specs.Games.{games_of};
ghost use Rattle.cq_shards.specs.FirstMatch.{AnswersUpToFirst};
ghost use Rattle.cq_shards.specs.Internal.Finders.{AreFound, HasSearched, IsSeatAt, HasReported, HasProcessedGame, board_games};

use crate::answers::GameAnswer;
use crate::laws::ordered_answers_are_cut_off_behind_the_first_match;
use crate::matcher::Matcher;
use crate::order::{in_order, is_match};
use crate::search_game::search_game;
use cq_common::NoMemory;
use cq_first::{FirstBoard, FirstSeat};
use cq_outside::Gate;
use cq_workers::{GameTask, run_workers};
use pgn_batches::Batch;
use std::alloc::Global;
use std::thread::Threads;

/// The task that makes the answer of each game of a batch, except games after one that is already known to match.
#[derive(Drop)]
struct FirstMatchTask<'a, A, G> {
    matcher: &'a A,
    batch: &'a Batch,
    first: &'a FirstBoard,
    gate: &'a G,
}

impl<'a, A: Matcher, G: Gate> GameTask for FirstMatchTask<'a, A, G> {
    type Output = GameAnswer;

    type State = FirstSeat;

    ghost games = { λ task. length (games_of task.batch.now) };

    ghost has_outputs = { λ task seat numbers answers.
        HasSearched task.first.now (A.query task.matcher.now) task.batch.now seat numbers answers };

    fn len(&self) -> u64 {
        u64::from(self.batch.len())
    }

    fn make(
        &self,
        alloc: Global,
        me: u64,
        number: u64,
        seat: &mut FirstSeat,
    ) -> Result<Option<GameAnswer>, NoMemory> {
        let one = self.take_one(alloc, me, number, seat)?;
        Ok(one)
    }
}

impl<'a, A: Matcher, G: Gate> FirstMatchTask<'a, A, G> {
    // Skips a game after a match, and makes the answer of another.
    fn take_one(
        &self,
        alloc: Global,
        me: u64,
        number: u64,
        seat: &mut FirstSeat,
    ) -> Result<Option<GameAnswer>, NoMemory>
        requires number { number < length (games_of self.now.batch.now) }
        requires seats { board_games self.now.first.now ≡ length (games_of self.now.batch.now) }
        requires seat { IsSeatAt self.now.first.now seat.old }
        ensures { IfOk result (λ one.
            HasProcessedGame self.now.first.now (A.query self.now.matcher.now) self.now.batch.now number seat.old seat.new one) }
    {
        if self.first.look(seat, number) {
            return Ok(None);
        }
        self.gate.enter(me, number);
        let answer = search_game(alloc, self.matcher, self.batch, number)?;
        self.gate.leave(me, number, answer.text());
        report_match(self.first, seat, number, is_match(&answer));
        Ok(Some(answer))
    }
}

/// In order, the answer of each game of a batch up to and with its first match, or of all games if none matches. The workers, from 1 to 64,
/// draw the games one by one. A worker that sees on the board a match before its game skips the game, which neither enters nor leaves the
/// gate. No clause promises when it sees a match. If a thread can't be started, the call doesn't fail: this thread does that worker's work,
/// after that of the later workers.
///
/// # Errors
///
/// `NoMemory` if a worker, or the call itself, is out of memory; there are no answers then.
pub fn search_batch_first<R: Threads + Sync, A: Matcher + Sync, G: Gate + Sync>(
    rt: &R,
    alloc: Global,
    matcher: &A,
    batch: &Batch,
    workers: u32,
    gate: &G,
) -> Result<Vec<GameAnswer>, NoMemory>
    requires { (1 ≤ workers) × (workers ≤ 64) }
    ensures { IfOk result (λ answers. AnswersUpToFirst (A.query matcher.now) batch.now answers.items) }
{
    let (first, seats) = FirstBoard::make(alloc, u64::from(batch.len()), workers)?;
    let task = FirstMatchTask {
        matcher,
        batch,
        first: &first,
        gate,
    };
    let (seats, answers) = run_workers(rt, alloc, &task, seats)?;
    let word = first.close(seats)?;
    cut_off(alloc, matcher, batch, answers, word)
}

// Reports a match to the board.
fn report_match(first: &FirstBoard, seat: &mut FirstSeat, number: u64, matched: bool)
    requires number { number < board_games first.now }
    requires seat { IsSeatAt first.now seat.old }
    ensures { HasReported first.now number matched seat.old seat.new }
{
    if matched {
        first.lower(seat, number);
    }
}

// The answers in order, without those after the first match, which has this number.
fn cut_off<A: Matcher>(
    alloc: Global,
    matcher: &A,
    batch: &Batch,
    answers: Vec<GameAnswer>,
    word: u64,
) -> Result<Vec<GameAnswer>, NoMemory>
    requires { AreFound (A.query matcher.now) batch.now word answers.items }
    ensures { IfOk result (λ kept. AnswersUpToFirst (A.query matcher.now) batch.now kept.items) }
{
    ordered_answers_are_cut_off_behind_the_first_match();
    let mut sorted = in_order(alloc, answers)?;
    sorted.truncate(word as usize + 1);
    Ok(sorted)
}
