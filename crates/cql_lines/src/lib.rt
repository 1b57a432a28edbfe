//! Lines: for each node of a tree, the greatest length of a path from it, down or up, that a pattern spells. No path is listed. Each place
//! of the pattern keeps the greatest length that it reads from a node, and passes it on to the nodes joined to that one.
#![tactic(auto)]

pub mod automaton;
mod binary_pattern;
mod build;
mod greatest_lengths;
mod length_sets;
mod lines;
mod masks;
pub mod pattern;
pub mod shape;
mod state_lengths;
pub mod table;
mod tree;
mod visits;

pub use automaton::Automaton;
pub use lines::line_values;
pub use pattern::{Pattern, Patterns};
pub use shape::Shape;
pub use table::AtomTable;
