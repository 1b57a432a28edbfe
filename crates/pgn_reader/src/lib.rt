//! The reading of a game: its tags and its tree, or its first fault.
#![tactic(auto)]

mod all_tokens;
mod build;
mod fault;
mod laws;
mod line;
mod node_row;
mod tag_section;
mod text;
mod token_machine;
mod whole_game;

pub use fault::{GameFault, Reason};
pub use laws::{first_bytes_decide, games_have_one_outcome, games_have_outcomes, tokens_decide};
pub use whole_game::read_game;
