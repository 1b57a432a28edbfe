//! A board from which workers draw the numbers below `n`, each number once and by one worker, whatever the order of their steps.
#![tactic(auto)]

mod board;
mod laws;
mod seat;
mod view;

pub use laws::draws_stay_sound;
pub use seat::{Board, ClaimSeat};
