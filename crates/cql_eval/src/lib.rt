//! The column of a query: the values of each of its filters at every node of a game. A column is evaluated at a set of nodes, the live
//! ones, and promises its values there alone. So a later part of a filter is evaluated at the nodes that the earlier ones leave open. This
//! crate evaluates the parts of a filter; `cql_columns` makes the column of the whole from theirs.
//!
//! `cql_syntax/specs/Meaning` has the meaning, `cql_columns/specs/Columns` the promise of a column.
#![tactic(auto)]

pub mod column;
mod evaluate;
pub mod laws;
mod local;
mod query;

pub use column::Column;
pub use query::{columns, hit_columns, hit_columns_at};
