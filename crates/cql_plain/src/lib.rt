//! The written meaning of queries: the value of a filter at a node of a game, member by member of each family and path by path of each
//! line.
//!
//! `cql_syntax/specs/Meaning` has the meaning, `cql_values` the values and their combination.
#![tactic(auto)]

mod evaluate;
mod occupied_squares;
mod path_places;
mod paths;
mod scope;
mod typed_values;

pub use cql_values::Names;
pub use typed_values::{holds_at, number_at, set_at, value_at};
