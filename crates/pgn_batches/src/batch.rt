//! A batch of games.
ghost use Rattle.std.specs.Prelude.{◌+◌, ◌<◌, ◌^◌, length, All};

use crate::kept_game::KeptGame;
use cq_common::Shared;

/// Consecutive games of an archive, and the number of the first of them there, counted from 0.
#[derive(Drop)]
pub struct Batch {
    pub(crate) games: Vec<KeptGame>,
    pub(crate) index: u64,
    ghost few: { length games.items < 2 ^ 32 },
    ghost numbers: { index + length games.items < 2 ^ 62 },
    ghost starts: { All (λ g. g.start < 2 ^ 62) games.items },
}

impl Shared for Batch {}
