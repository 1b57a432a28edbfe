//! Several queries over one game: each of the different parts of their plan is evaluated at most once a game.
//!
//! `specs/Parts` has the parts of a query and defines equality of parts. `specs/Matching` has the result and the cost of each part in a
//! game; `specs/Verdicts` the result of each query.
#![tactic(auto)]

mod collecting;
mod finding;
mod interning;
mod keys;
pub mod laws;
mod many_queries;
mod matching;
mod narrowing;
mod nodes;
mod part;
mod part_values;
mod plan;
mod single;
mod start_nodes;
mod table;
mod verdicts;

pub use many_queries::match_all;
pub use plan::SharedPlan;
pub use verdicts::Verdicts;
