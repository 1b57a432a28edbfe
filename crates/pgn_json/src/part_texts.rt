//! The texts of some games of a batch, made by several workers.
ghost use Rattle.std.specs.Prelude.{◌≡◌, ◌≤◌, length, IfOk};
ghost use Rattle.pgn_json.specs.Internal.PartTexts.{AreGameTexts, ArePlaced, HasMadeTexts};
ghost use Rattle.pgn_json.specs.Internal.Parts.{part_at, size};

use crate::texts::{Texts, game_texts};
use cq_common::{Bytes, NoMemory, Shared};
use cq_workers::{GameTask, run_workers, unit_states};
use pgn_batches::Batch;
use std::alloc::Global;
use std::thread::Threads;

/// The most games of a batch that are made before they are written.
pub(crate) const PART: u64 = 128;

/// The texts of a game, and the game's number in its part of the batch, from 0.
#[derive(Drop)]
pub(crate) struct GameTexts {
    pub(crate) number: u64,
    pub(crate) texts: Texts,
}

impl Shared for GameTexts {}

/// Makes the texts of each game of a part of a batch. The part begins with the game with the number `first` in the batch, from 0, and has
/// `PART` games at most.
#[derive(Clone, Copy)]
pub(crate) struct GameTextTask<'a> {
    pub(crate) mark: &'a [u8],
    pub(crate) batch: &'a Batch,
    pub(crate) first: u64,
}

impl<'a> GameTask for GameTextTask<'a> {
    type Output = GameTexts;

    type State = ();

    ghost games = { λ task. size (part_at task.mark.now task.batch.now task.first) };

    ghost has_outputs = { λ task _ numbers made. HasMadeTexts (part_at task.mark.now task.batch.now task.first) numbers made };

    fn len(&self) -> u64 {
        u64::from(self.batch.len())
            .saturating_sub(self.first)
            .min(PART)
    }

    fn make(
        &self,
        alloc: Global,
        _me: u64,
        number: u64,
        _kept: &mut (),
    ) -> Result<Option<GameTexts>, NoMemory> {
        let texts = game_texts(alloc, self.mark, self.batch, self.first + number)?;
        Ok(Some(GameTexts { number, texts }))
    }
}

/// Returns the texts of each game of a part of a batch, in their order, made by so many workers, from 1 to 64, which is a condition. They
/// draw the games one by one, in threads of `rt`.
pub(crate) fn part_texts<R: Threads + Sync>(
    rt: &R,
    alloc: Global,
    task: &GameTextTask<'_>,
    workers: u32,
) -> Result<Vec<Texts>, NoMemory>
    requires { (1 ≤ workers) × (workers ≤ 64) }
    ensures { IfOk result (λ texts. ArePlaced (part_at task.now.mark.now task.now.batch.now task.now.first) texts.items) }
{
    let kept = unit_states(alloc, workers)?;
    let (_, made) = run_workers(rt, alloc, task, kept)?;
    in_places(alloc, task, made)
}

// Returns the texts of each game at the place of its number.
fn in_places(
    alloc: Global,
    task: &GameTextTask<'_>,
    made: Vec<GameTexts>,
) -> Result<Vec<Texts>, NoMemory>
    requires { AreGameTexts (part_at task.now.mark.now task.now.batch.now task.now.first) made.items }
    ensures { IfOk result (λ texts. ArePlaced (part_at task.now.mark.now task.now.batch.now task.now.first) texts.items) }
{
    let mut made = made;
    let mut places = no_texts(alloc, task.len())?;
    while let Some(game) = made.pop() {
        places[game.number as usize] = game.texts;
    }
    Ok(places)
}

// Returns a place for each of so many games.
fn no_texts(alloc: Global, games: u64) -> Result<Vec<Texts>, NoMemory>
    requires { games ≤ 128 }
    ensures { IfOk result (λ places. length places.items ≡ games) }
{
    let mut places = Vec::with_capacity(alloc, games as usize)?;
    for _place in 0..games {
        places.push(Texts {
            lines: Bytes::new(alloc),
            faults: Bytes::new(alloc),
            faulty: 0,
        })?;
    }
    Ok(places)
}
