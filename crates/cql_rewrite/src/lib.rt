//! Families written out: a query becomes one without families that means the same at every node of every game, and has a text.
//!
//! `cql_syntax/specs/Flat` has the flat form and `specs/FlatText` its text. `cql_syntax/specs/Same` defines the equality of two filters,
//! and `cql_syntax/specs/Unplaced` the equality but for their places.
#![tactic(auto)]

mod flat;
mod leaves;
mod same;
mod text;
mod text_pieces;
mod text_sums;
mod text_words;

pub use flat::expand;
pub use same::{same_filter, same_unplaced};
pub use text::flat_text;
