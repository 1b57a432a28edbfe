//! Laws of the cut of an archive and of the reading of its games together.
#![tactic(auto)]

mod laws;

pub use laws::{markers_end_games, split_games_are_read_alike};
