//! The state of a cut of an archive into pieces.
ghost use Rattle.std.specs.Prelude.{◌+◌, ◌-◌, ◌≤◌, ◌^◌};

use crate::piece::PieceStart;
use pgn_cut::Cutter;
use std::alloc::Global;

/// The piece that is not long enough yet: its start, the number of its closed games, and the end of the last of them.
#[derive(Clone, Copy)]
pub(crate) struct OpenPiece {
    pub(crate) begin: PieceStart,
    pub(crate) games: u64,
    pub(crate) end: u64,
    ghost begun: { begin.from ≤ end },
    ghost numbers: { (1 ≤ begin.number) × (begin.number ≤ begin.from + 1) × (1 ≤ begin.first) × (begin.first ≤ begin.from + 1) },
    ghost few: { games ≤ end - begin.from },
}

/// The pieces of an archive that is fed in parts, each of at least `least` bytes but for the last. None of the bytes are kept.
#[derive(Drop)]
pub struct Pieces {
    pub(crate) alloc: Global,
    pub(crate) cutter: Cutter,
    pub(crate) open_piece: OpenPiece,
    pub(crate) taken: u64,
    pub(crate) least: u64,
    ghost range: { (1 ≤ least) × (least ≤ 2 ^ 40) },
}
