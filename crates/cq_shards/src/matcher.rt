//! Queries that are matched with the games of a batch.
ghost use Rattle.std.specs.Prelude.{◌≡◌, List, length, IfOk, Ok};
ghost use Rattle.cql_syntax.specs.Trees.{QueryTree};
ghost use Rattle.cq_shards.specs.Answers.{answer_of};
ghost use Rattle.cq_shards.specs.Internal.GameRows.{answers_back};

use crate::answers::GameAnswer;
use cq_common::NoMemory;
use pgn_tree::Game;
use std::alloc::Global;

/// A query that can be matched with games.
pub trait Matcher {
    /// The query.
    ghost query: { Self → QueryTree };

    /// Returns the answer of a game with this number in the archive.
    ///
    /// # Errors
    ///
    /// `NoMemory` if out of memory.
    fn answer(&self, alloc: Global, game: &Game, index: u64) -> Result<GameAnswer, NoMemory>
        ensures { IfOk result (λ a. a ≡ answer_of (query self.now) index (Ok game.now)) };
}

/// Queries that can be matched with games, all at once.
pub trait MultiMatcher {
    /// The queries.
    ghost queries: { Self → List QueryTree };

    /// Returns the number of queries.
    fn len(&self) -> u32
        ensures { result ≡ length (queries self.now) };

    /// Returns the answers of a game with this number in the archive, the first query's last.
    ///
    /// # Errors
    ///
    /// `NoMemory` if out of memory.
    fn answers(&self, alloc: Global, game: &Game, index: u64) -> Result<Vec<GameAnswer>, NoMemory>
        ensures { IfOk result (λ answers. answers.items ≡ answers_back (queries self.now) index (Ok game.now)) };
}
