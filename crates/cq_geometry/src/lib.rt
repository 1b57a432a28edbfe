//! The board's squares and the steps between them, by their coordinates.
#![tactic(auto)]

pub mod compass;
pub mod lines;
pub mod square;
pub mod steps;

pub use compass::{Compass, toward};
pub use lines::{between, ray};
pub use square::{Square, file, files_apart, is_light, rank, ranks_apart, square_at};
pub use steps::{Step, king_steps, knight_steps};
