//! Workers that draw games by their numbers, each game once and by one worker, and make an output of each.
#![tactic(auto)]

mod game_task;
mod starting;
mod workers;

pub use game_task::GameTask;
pub use workers::{run_workers, unit_states};
