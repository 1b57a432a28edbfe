//! The task of a worker on the games that it draws.
ghost use Rattle.std.specs.Prelude.{◌<◌, ◌≡◌, ℕ, List, IfOk};
ghost use Rattle.cq_workers.specs.Outputs.{AddsOutput};

use cq_common::NoMemory;
use std::alloc::Global;

/// The task of a worker on a game that it drew.
pub trait GameTask {
    /// The output of a game.
    type Output: Send + Drop;

    /// The state that a worker keeps from game to game.
    type State: Send + Drop;

    /// The number of games.
    ghost games: { Self → ℕ };

    /// A worker with this state made these outputs of the games with these numbers.
    ghost has_outputs: { Self → Self.State → List ℕ → List Self.Output → Type 0 };

    /// Returns the number of games.
    fn len(&self) -> u64
        ensures { result ≡ games self.now };

    /// Returns the output of the worker `me` for the game with this number, or `None` if it skips the game.
    ///
    /// # Errors
    ///
    /// `NoMemory` if out of memory.
    fn make(
        &self,
        alloc: Global,
        me: u64,
        number: u64,
        kept: &mut Self::State,
    ) -> Result<Option<Self::Output>, NoMemory>
        requires number { number < games self.now }
        requires before { (numbers : List ℕ) × (made : List Self.Output) × has_outputs self.now kept.old numbers made }
        ensures { IfOk result (λ one. AddsOutput (has_outputs self.now) number kept.old kept.new one) };
}
