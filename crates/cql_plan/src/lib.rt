//! The plan that is made once of a query for many games, and the match of one game by it: the hits of its query, and its sort keys.
//!
//! `specs/Needs` defines the games that have no hit by their men alone, `specs/Plans` the contents of a plan. `specs/Replacements` defines
//! the form of the query that is evaluated: it has the query's hits and keys, and costs no more looks. `cql_syntax/specs/Hits` has hits and
//! keys.
#![tactic(auto)]

mod hashing;
mod hits_and_keys;
mod joining;
mod keys;
pub mod laws;
mod lifting;
mod matching;
mod members;
mod needs;
mod plan;
mod verdict;

pub use joining::join;
pub use keys::key_over;
pub use matching::match_game;
pub use plan::Plan;
pub use plan::making::may_hold;
pub use verdict::Verdict;
