//! Draws of numbers.
ghost use Rattle.std.specs.Prelude.{◌≡◌, ◌<◌};
ghost use Rattle.cq_maker.specs.Draws.{next, drawn};

use std::marker::Model;

/// The factor of Knuth's MMIX.
const MULTIPLIER: u64 = 6_364_136_223_846_793_005;

/// The increment of Knuth's MMIX.
const INCREMENT: u64 = 1_442_695_040_888_963_407;

/// The state of a linear congruential generator of 64 bits, which contracts see as a number.
#[derive(Drop)]
pub struct Draws {
    state: u64,
}

impl Model for Draws {
    ghost use Rattle.std.specs.Prelude.{ℕ};

    ghost Value = { ℕ };

    ghost view = { λ d. d.state };
}

impl Draws {
    /// Returns the draws from a seed.
    pub fn new(seed: u32) -> Draws
        ensures { result ≡ seed }
    {
        Draws {
            state: u64::from(seed),
        }
    }

    /// Draws and returns a number below a bound.
    #[tactic(auto, unfolding(crate::specs::Draws::next, crate::specs::Draws::drawn))]
    pub fn below(&mut self, bound: u32) -> u32
        requires { 0 < bound }
        ensures number { result ≡ drawn self.old bound }
        ensures below { result < bound }
        ensures state { self.new ≡ next self.old }
    {
        self.state = self.state.wrapping_mul(MULTIPLIER).wrapping_add(INCREMENT);
        ((self.state >> 33) % u64::from(bound)) as u32
    }
}
