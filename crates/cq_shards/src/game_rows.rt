//! The answers of one game to several queries.
ghost use Rattle.std.specs.Prelude.{◌≡◌, ◌<◌, length, IfOk, Err};
ghost use Rattle.pgn_batches.specs.Games.{games_of, number_of};
ghost use Rattle.cq_shards.specs.Internal.GameRows.{IsRowAt, answers_back};

use crate::answers::GameAnswer;
use crate::matcher::MultiMatcher;
use crate::search_game::{read_at, refused};
use cq_common::NoMemory;
use pgn_batches::Batch;
use pgn_reader::GameFault;
use pgn_tree::Game;
use std::alloc::Global;

/// The answers of the game with this number in the archive. The first query's is last, and is taken off first.
#[derive(Drop)]
pub(crate) struct GameRow {
    pub(crate) index: u64,
    pub(crate) answers: Vec<GameAnswer>,
}

impl GameRow {
    /// The export in the first query's answer; empty if it has none.
    pub(crate) fn text(&self) -> &[u8] {
        match self.answers.last() {
            Some(answer) => answer.text(),
            None => &[],
        }
    }
}

/// The answers of the game with this number in a batch. It is read once, and all queries are matched with it at once.
pub(crate) fn search_game_many<A: MultiMatcher>(
    alloc: Global,
    matcher: &A,
    batch: &Batch,
    number: u64,
) -> Result<GameRow, NoMemory>
    requires { number < length (games_of batch.now) }
    ensures { IfOk result (IsRowAt (A.queries matcher.now) (number_of batch.now) (games_of batch.now) number) }
{
    let outcome = read_at(alloc, batch, number)?;
    let index = batch.index() + number;
    let answers = match_outcome_many(alloc, matcher, &outcome, index)?;
    Ok(GameRow { index, answers })
}

// The answers of a game with this read result.
fn match_outcome_many<A: MultiMatcher>(
    alloc: Global,
    matcher: &A,
    outcome: &Result<Game, GameFault>,
    index: u64,
) -> Result<Vec<GameAnswer>, NoMemory>
    ensures { IfOk result (λ answers. answers.items ≡ answers_back (A.queries matcher.now) index outcome.now) }
{
    match outcome {
        Ok(game) => matcher.answers(alloc, game, index),
        Err(fault) => all_refused(alloc, matcher, *fault, index),
    }
}

// The answers of a faulty game.
fn all_refused<A: MultiMatcher>(
    alloc: Global,
    matcher: &A,
    fault: GameFault,
    index: u64,
) -> Result<Vec<GameAnswer>, NoMemory>
    ensures { IfOk result (λ answers. answers.items ≡ answers_back (A.queries matcher.now) index (Err fault)) }
{
    let mut answers = Vec::with_capacity(alloc, matcher.len() as usize)?;
    for _q in (0..matcher.len()).rev() {
        answers.push(refused(index, fault))?;
    }
    Ok(answers)
}
