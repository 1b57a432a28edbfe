//! Queries evaluated node by node: the value of a filter at one node of a game, square by square, without a list of nodes. The filter may
//! look at the node alone, at its move, at its children, or at the nodes above it.
//!
//! `cql_syntax/specs/Meaning` has the meaning. A filter that needs more has no value here.
#![tactic(auto)]

mod calls;
mod candidates;
mod evaluate;
mod leaves;
mod local_cost;
mod move_ends;
mod moves_sought;
mod node_scope;
mod not_local;

pub use calls::{is_cheap_locally, local_square_truth};
pub use node_scope::GameNode;
