//! The board and its seats.
ghost use Rattle.std.specs.Prelude.{◌≡◌, ◌^◌, ◌<◌, ◌≤◌, []};
ghost use Rattle.std.specs.List.Sorted.{IsStrictlyIncreasing};
ghost use Rattle.cq_board.specs.Views.{share};

use crate::view::{BoardSize, DrawnOnce, SeatView};
use atomic_table::{Seat, Table};
use cq_common::Shared;
use std::alloc::Global;

/// The numbers below `n`, which workers draw one by one. Its one word is the number that is drawn next.
#[derive(Drop)]
pub struct Board {
    pub(crate) table: Table<(), SeatView, BoardSize, DrawnOnce, Global>,
    pub(crate) numbers: u64,
    ghost same_numbers: { numbers ≡ table.shared.key.numbers },
    ghost limits: { (table.shared.key.numbers ≤ 2 ^ 32) × (0 < table.shared.key.seats) },
    ghost words: { table.shared.table_id.words ≡ 1 },
    ghost slots: { table.shared.table_id.slots ≡ 0 },
}

impl Shared for Board {}

/// The right of one worker to draw, until it has drawn `None`.
#[derive(Drop)]
pub struct ClaimSeat {
    pub(crate) seat: Seat<(), SeatView>,
    ghost no_slot: { seat.me.1 ≡ [] },
    ghost increasing: { IsStrictlyIncreasing seat.me.0.drawn },
    ghost one_share: { share seat.me.0.numbers seat.me.0 ≡ 1 },
}

impl Shared for ClaimSeat {}
