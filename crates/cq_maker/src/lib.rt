//! Archives of games that are generated from a seed.
//!
//! `specs/Draws` defines the numbers that are drawn, `specs/Line` the moves by these numbers, and
//! `specs/GeneratedArchive` the archive of these moves.
#![tactic(auto)]

mod archive;
mod drawn_move;
mod draws;
mod game;
pub mod laws;
mod line;

pub use archive::make_archive;
