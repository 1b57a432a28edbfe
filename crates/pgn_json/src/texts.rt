//! The texts of a game.
ghost use Rattle.std.specs.Prelude.{◌≡◌, ◌+◌, ◌<◌, ◌∷◌, [], Some, length, slice_get, IfOk};
ghost use Rattle.pgn_batches.specs.Games.{games_of, number_of};
ghost use Rattle.pgn_batches.specs.declared.kept_game.KeptGame.{KeptGame as AGame};
ghost use Rattle.pgn_json.specs.Internal.Texts.{AreTextsOf};

use crate::game::json_line;
use cq_common::{Bytes, NoMemory, Refusal, Shared};
use cq_report::fault_line;
use pgn_batches::Batch;
use pgn_reader::read_game;
use std::alloc::Global;

/// The texts of some games: the lines of those that are read, the lines of the faulty ones, and the number of faulty games.
#[derive(Drop)]
pub(crate) struct Texts {
    pub(crate) lines: Bytes,
    pub(crate) faults: Bytes,
    pub(crate) faulty: u64,
}

impl Shared for Texts {}

/// Returns the texts of the game with this number in a batch.
pub(crate) fn game_texts(
    alloc: Global,
    mark: &[u8],
    batch: &Batch,
    place: u64,
) -> Result<Texts, NoMemory>
    requires { place < length (games_of batch.now) }
    ensures { IfOk result (λ texts. (game : AGame) × (slice_get (games_of batch.now) place ≡ Some game)
        × AreTextsOf mark.now (number_of batch.now + place + 1) (game ∷ []) texts) }
{
    let game = batch.game(place);
    let number = batch.index() + place + 1;
    match read_game(alloc, game.bytes.as_slice(), game.start, game.first) {
        Ok(read) => Ok(Texts {
            lines: json_line(alloc, &read, number, game.start, mark)?,
            faults: Bytes::new(alloc),
            faulty: 0,
        }),
        Err(Refusal::Fault(fault)) => Ok(Texts {
            lines: Bytes::new(alloc),
            faults: fault_line(alloc, number, &fault)?,
            faulty: 1,
        }),
        Err(Refusal::NoMemory) => Err(NoMemory),
    }
}
