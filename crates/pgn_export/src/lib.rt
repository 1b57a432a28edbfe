//! The export text of a game (PGN standard, section 3.2).
//!
//! `specs/TagLines`, `specs/Movetext` and `specs/Lines` define the tag lines, the words of the movetext and their
//! lines, and `specs/Export` joins them.
#![tactic(auto)]

mod game;
mod laws;
mod movetext;
mod page;
mod tag_lines;

pub use game::export;
pub use laws::{lines_are_short, tags_are_the_games};
