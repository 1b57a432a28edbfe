//! The result of a query in a game.
ghost use Rattle.std.specs.Prelude.{◌≡◌, List, ℤ, IfOk};

use cq_common::{Bytes, NoMemory, Shared};
use pgn_reader::GameFault;
use std::alloc::Global;
use std::marker::Model;

/// The values of a query's sort items over the hits in a game, the first item's first. Contracts see them as a list of whole numbers: an
/// item has a value at each hit, since it holds there.
#[derive(Drop, Debug)]
pub struct Keys {
    values: Vec<i64>,
}

impl Shared for Keys {}

impl Model for Keys {
    ghost Value = { List ℤ };

    ghost view = { λ keys. keys.values.items };
}

impl Keys {
    /// A copy of `keys`.
    ///
    /// # Errors
    ///
    /// `NoMemory` if out of memory.
    pub fn of(alloc: Global, keys: &[i64]) -> Result<Keys, NoMemory>
        ensures { IfOk result (λ made. made ≡ keys.now) }
    {
        Ok(Keys {
            values: Vec::from_slice(alloc, keys)?,
        })
    }

    /// All the values.
    pub fn as_slice(&self) -> &[i64]
        ensures { result.now ≡ self.now }
    {
        self.values.as_slice()
    }
}

/// The answer of a game, with the game's number in the archive, counted from 0.
#[derive(Drop, Debug)]
pub struct GameAnswer {
    pub index: u64,
    pub what: Answer,
}

impl Shared for GameAnswer {}

/// The result of a query in a game.
#[derive(Drop, Debug)]
pub enum Answer {
    /// The game is faulty.
    Refused(GameFault),
    /// The query has no hit.
    Miss,
    /// The query has a hit: the export of the game with its hits marked, and the sort keys of the game.
    Match { text: Bytes, keys: Keys },
}

impl Shared for Answer {}
