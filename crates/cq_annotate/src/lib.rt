//! Games whose hits are marked by comments.
#![tactic(auto)]

pub mod laws;
mod marking;

pub use marking::mark;
