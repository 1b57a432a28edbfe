//! The calls of a board: make, claim, close.
ghost use Rattle.std.specs.Prelude.{◌≡◌, ℕ, ◌+◌, ◌^◌, ◌<◌, ◌≤◌, ◌++◌, ◌∷◌, [], All, Contains, length, IfOk, IfSome, IsOk, None};
ghost use Rattle.cq_board.specs.Draws.{IsDrawnOnce, times_in};
ghost use Rattle.std.specs.List.Sorted.{IsStrictlyIncreasing};
ghost use Rattle.cq_board.specs.declared.seat.ClaimSeat.{ClaimSeat as ASeat};
ghost use Rattle.cq_board.specs.Seats.{numbers_of, seats_of, IsSeatOf, drawn, all_drawn, HasEnded};

use crate::seat::{Board, ClaimSeat};
use crate::view::{BoardSize, Draw, JoinSeat, SplitSeat};
use atomic_table::Table;
use cq_common::NoMemory;
use std::alloc::Global;

impl Board {
    /// A board of the numbers below `n`, with its seats.
    ///
    /// # Errors
    ///
    /// `NoMemory` if out of memory.
    pub fn make(alloc: Global, n: u64, seats: u32) -> Result<(Board, Vec<ClaimSeat>), NoMemory>
        requires numbers { n ≤ 2 ^ 32 }
        requires seats { (0 < seats) × (seats ≤ 64) }
        ensures board { IfOk result (λ made. (numbers_of made.0 ≡ n) × (seats_of made.0 ≡ seats)) }
        ensures count { IfOk result (λ made. length made.1.items ≡ seats) }
        ensures seats { IfOk result (λ made. All (λ s. IsSeatOf made.0 s × (drawn s ≡ []) × (HasEnded s → ⊥)) made.1.items) }
    {
        let mut claims = Vec::with_capacity(alloc, seats as usize)?;
        let terms = BoardSize {
            numbers: n,
            seats: u64::from(seats),
        };
        let (table, mut seat) = Table::of_words(alloc, &[0], &terms)?;
        for _turn in 1..seats {
            let pass = table.shared.split_seat::<SplitSeat>(&mut seat);
            claims.push(ClaimSeat { seat: pass })?;
        }
        claims.push(ClaimSeat { seat })?;
        let board = Board { table, numbers: n };
        Ok((board, claims))
    }

    /// Draws the next number, in one atomic step that waits for no other worker. Returns `None` if this number is not below `n`. A
    /// seat that draws `k` had drawn at most `k` numbers before, so it draws `None` after `n` turns at the latest.
    #[tactic(auto, using(crate::proofs::Increasing::numbers_before))]
    pub fn claim(&self, seat: &mut ClaimSeat) -> Option<u64>
        requires seat { IsSeatOf self.now seat.old }
        requires open { HasEnded seat.old → ⊥ }
        ensures seat { IsSeatOf self.now seat.new }
        ensures order { IsStrictlyIncreasing (drawn seat.new) }
        ensures some { IfSome result (λ k. (k < numbers_of self.now)
            × (drawn seat.new ≡ drawn seat.old ++ k ∷ []) × (HasEnded seat.new → ⊥)) }
        ensures turns { IfSome result (λ k. length (drawn seat.old) ≤ k) }
        ensures none { result ≡ None → ((k : ℕ) × (numbers_of self.now ≤ k)
            × (drawn seat.new ≡ drawn seat.old ++ k ∷ []) × HasEnded seat.new) }
    {
        let found = self.table.shared.fetch_add::<Draw>(&mut seat.seat, 0, 1);
        if found < self.numbers {
            Some(found)
        } else {
            None
        }
    }

    /// Ends the draws, and returns the number that would be drawn next. Each number below it was drawn once, by one of the seats. If one of
    /// them has drawn `None`, all of the board's numbers were drawn.
    ///
    /// # Errors
    ///
    /// `NoMemory` if out of memory.
    pub fn close(self, seats: Vec<ClaimSeat>) -> Result<u64, NoMemory>
        requires seats { All (IsSeatOf self) seats.items }
        requires all { length seats.items ≡ seats_of self }
        ensures answer { IsOk result }
        ensures once { IfOk result (λ next. IsDrawnOnce next (all_drawn seats.items)) }
        ensures ended { IfOk result (λ next. (s : ASeat) → Contains seats.items s → HasEnded s → numbers_of self ≤ next) }
        ensures whole { IfOk result (λ next. (s : ASeat) → Contains seats.items s → HasEnded s
            → (x : ℕ) → x < numbers_of self → times_in x (all_drawn seats.items) ≡ 1) }
    {
        let mut seats = seats;
        let Some(ClaimSeat { seat: mut whole }) = seats.pop() else {
            unreachable!()
        };
        while let Some(ClaimSeat { seat }) = seats.pop() {
            self.table.shared.join_seat::<JoinSeat>(&mut whole, seat);
        }
        let closed = self.table.close_with(whole);
        let next = closed.word(0);
        closed.free();
        Ok(next)
    }
}
