//! Operators on columns, node by node. None of them evaluates a filter's parts. They combine columns, narrow sets of nodes, and follow the
//! tree. They also make the columns of words, the patterns of lines, and the sets of nodes of squares that are tried one by one.
//!
//! `cql_columns/specs/Columns` has the promise of a column. `cql_eval` uses this crate.
#![tactic(auto)]

pub mod attacks;
pub mod combine;
pub mod from_other_nodes;
pub mod narrow;
pub mod nodes;
pub mod patterns;
pub mod squares;
pub mod tree;
pub mod words;
