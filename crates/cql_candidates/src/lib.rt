//! Analysis of a filter before its parts are evaluated, so that they are evaluated at fewer nodes and squares. It finds the squares that a
//! name can have, the filters that hold nowhere, the order of evaluation, and the moves to look at.
//!
//! The live nodes are those at which a filter is evaluated. `cql_columns/specs/Columns` has the promise of a column. `cql_eval` builds on
//! this crate.
#![tactic(auto)]

pub mod attacks;
pub mod by_occupancy;
pub mod covers;
pub mod ever_standing;
pub mod independent;
pub mod move_targets;
pub mod moves;
pub mod order;
pub mod pairs;
