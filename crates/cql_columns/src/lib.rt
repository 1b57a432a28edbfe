//! Columns: the values of a filter at the live nodes of a game, and sets of such nodes. A live node is one at which a filter is evaluated.
//!
//! `cql_syntax/specs/Meaning` has the meaning, and `specs/Columns` the promise of a column. `cql_operators` makes columns of columns.
//! `cql_candidates` finds the nodes that need no evaluation, and `cql_eval` evaluates the parts of a filter. All three use this crate.
#![tactic(auto)]

pub mod binding;
pub mod filter_column;
pub mod nodes;
pub mod scope;
pub mod spans;
pub mod standing_squares;
