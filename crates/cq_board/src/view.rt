//! The knowledge of seats about the draws, and the rule that each step keeps. No value of a view is made.
use atomic_table::{Join, Play, Split, TableRule};
use std::collections::LinkedList;

/// The parameters of a board, set when it is made.
#[derive(Clone, Copy, Debug)]
pub struct BoardSize {
    /// The board gives out the numbers below it.
    pub numbers: u64,
    pub seats: u64,
}

/// The knowledge of a seat.
pub struct SeatView {
    pub numbers: u64,
    pub seats: u64,
    pub drawn: LinkedList<u64>,
    /// The number of seats that may still draw with this view.
    pub passes: u64,
}

/// Each number below word 0 was drawn once.
pub struct DrawnOnce;

impl TableRule<(), SeatView, BoardSize> for DrawnOnce {
    ghost use Rattle.cq_board.specs.Views.{IsKept, first_view};

    ghost holds = { λ terms s. IsKept terms s.words s.views };

    ghost first = { first_view };
}

/// A seat draws the word, which grows by one.
pub struct Draw;

impl Play<(), SeatView> for Draw {
    ghost use Rattle.std.specs.Prelude.{◌≡◌};
    ghost use Rattle.std.specs.List.Sorted.{IsStrictlyIncreasing};
    ghost use Rattle.cq_board.specs.Views.{drawing};

    ghost then = { λ _ before found after. (after ≡ (drawing before.0 found, before.1)) × IsStrictlyIncreasing after.0.drawn };
}

/// A seat hands out one of its passes.
pub struct SplitSeat;

impl Split<SeatView> for SplitSeat {
    ghost use Rattle.cq_board.specs.Views.{one_pass_less, one_pass};

    ghost left = { one_pass_less };

    ghost right = { one_pass };
}

/// A seat takes in another's numbers and passes.
pub struct JoinSeat;

impl Join<SeatView> for JoinSeat {
    ghost use Rattle.cq_board.specs.Views.{joined, spent};

    ghost both = { joined };

    ghost spent = { spent };
}
