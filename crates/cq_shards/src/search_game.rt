//! The answer of one game.
ghost use Rattle.std.specs.Prelude.{◌≡◌, ◌≢◌, ◌<◌, [], length, map, Some, IfOk, Ok, Err};
ghost use Rattle.pgn_batches.specs.Games.{games_of, number_of};
ghost use Rattle.cql_syntax.specs.Hits.{hits, keys, marked};
ghost use Rattle.cql_syntax.specs.TreeOf.{query_tree};
ghost use Rattle.cql_syntax.specs.Trees.{QueryTree};
ghost use Rattle.pgn_export.specs.Export.{export_text};
ghost use Rattle.cq_shards.specs.Answers.{IsAnswerAt, answer_of, text_of};
ghost use Rattle.cq_shards.specs.ReadResults.{IsReadResultAt};

use crate::answers::{Answer, GameAnswer, Keys};
use crate::matcher::Matcher;
use cq_annotate::mark;
use cq_common::{Bytes, NoMemory, Refusal};
use cql_syntax::TypedQuery;
use pgn_batches::Batch;
use pgn_export::export;
use pgn_reader::{GameFault, read_game};
use pgn_tree::Game;
use std::alloc::Global;

impl GameAnswer {
    /// The export in the answer; empty if the game is faulty or has no match.
    pub fn text(&self) -> &[u8]
        ensures { result.now ≡ text_of self.now.what }
    {
        match &self.what {
            Answer::Match { text, .. } => text.as_slice(),
            Answer::Refused(_) | Answer::Miss => &[],
        }
    }
}

/// The answer of the game with this number in a batch.
pub(crate) fn search_game<A: Matcher>(
    alloc: Global,
    matcher: &A,
    batch: &Batch,
    number: u64,
) -> Result<GameAnswer, NoMemory>
    requires { number < length (games_of batch.now) }
    ensures { IfOk result (IsAnswerAt (A.query matcher.now) (number_of batch.now) (games_of batch.now) number) }
{
    let outcome = read_at(alloc, batch, number)?;
    match_outcome(alloc, matcher, &outcome, batch.index() + number)
}

/// The read result of the game with this number in a batch.
pub(crate) fn read_at(
    alloc: Global,
    batch: &Batch,
    number: u64,
) -> Result<Result<Game, GameFault>, NoMemory>
    requires { number < length (games_of batch.now) }
    ensures { IfOk result (IsReadResultAt (games_of batch.now) number) }
{
    let game = batch.game(number);
    match read_game(alloc, game.bytes.as_slice(), game.start, game.first) {
        Ok(read) => Ok(Ok(read)),
        Err(Refusal::Fault(fault)) => Ok(Err(fault)),
        Err(Refusal::NoMemory) => Err(NoMemory),
    }
}

// The answer of a game with this read result.
fn match_outcome<A: Matcher>(
    alloc: Global,
    matcher: &A,
    outcome: &Result<Game, GameFault>,
    index: u64,
) -> Result<GameAnswer, NoMemory>
    ensures { IfOk result (λ a. a ≡ answer_of (A.query matcher.now) index outcome.now) }
{
    match outcome {
        Ok(game) => matcher.answer(alloc, game, index),
        Err(fault) => Ok(refused(index, *fault)),
    }
}

/// The answer of a faulty game.
pub(crate) fn refused(index: u64, fault: GameFault) -> GameAnswer
    ensures { (query : QueryTree) → result ≡ answer_of query index (Err fault) }
{
    GameAnswer {
        index,
        what: Answer::Refused(fault),
    }
}

/// The answer of a game with this number in the archive, from the hits of a query in it and, if there are any, its keys over them.
///
/// # Errors
///
/// `NoMemory` if out of memory.
pub fn build_answer(
    alloc: Global,
    query: &TypedQuery,
    game: &Game,
    index: u64,
    nodes: &[u32],
    values: &[i64],
) -> Result<GameAnswer, NoMemory>
    requires nodes { nodes.now ≡ hits (query_tree query.now.query) game.now }
    requires keys { nodes.now ≢ [] → map Some values.now ≡ keys (query_tree query.now.query) game.now }
    ensures { IfOk result (λ a. a ≡ answer_of (query_tree query.now.query) index (Ok game.now)) }
{
    if nodes.is_empty() {
        return Ok(GameAnswer {
            index,
            what: Answer::Miss,
        });
    }
    let text = marked_text(alloc, query, game, nodes)?;
    let keys = Keys::of(alloc, values)?;
    Ok(GameAnswer {
        index,
        what: Answer::Match { text, keys },
    })
}

// The export of a game that is marked at the hits of a query.
fn marked_text(
    alloc: Global,
    query: &TypedQuery,
    game: &Game,
    nodes: &[u32],
) -> Result<Bytes, NoMemory>
    requires { nodes.now ≡ hits (query_tree query.now.query) game.now }
    ensures { IfOk result (λ text. text ≡ export_text (marked (query_tree query.now.query) game.now)) }
{
    let marked = mark(alloc, game, nodes, &query.query)?;
    export(alloc, &marked)
}
