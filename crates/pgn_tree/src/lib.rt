//! Whole games: the tags of a game and the tree of its positions.
//!
//! `cq_position/specs/Games` has the view of a game in contracts, `specs/Links` its further properties.
#![tactic(auto)]

mod comment_words;
mod comments;
mod game;
pub mod laws;
mod node;
mod notes;
mod result_marker;
mod tags;

pub use comment_words::{first_word, single_spaced};
pub use cq_position::GameResult;
pub use game::Game;
pub use notes::Notes;
pub use result_marker::result_text;
pub use tags::Tags;
