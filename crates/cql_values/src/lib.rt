//! Values of filters, and the filters of one word. The plain and the fast evaluator of queries share them. Here are also the filters on a
//! game's tags and on the move to a node, and the squares bound to names.
//!
//! `cql_syntax/specs/Values` has the values of the meaning, `specs/ValueModel` their form in memory.
#![tactic(auto)]

pub mod combine;
pub mod counts;
pub mod filter_forms;
pub mod headers;
pub mod move_filter;
pub mod names;
pub mod numbers;
pub mod sets;
pub mod value;
pub mod walks;
pub mod words;

pub use names::Names;
