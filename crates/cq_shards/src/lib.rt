//! The answers of the games of a batch to one or several queries, by several workers, and the order of answers.
#![tactic(auto)]

mod answers;
mod game_rows;
pub mod laws;
mod match_plan;
mod matcher;
mod order;
mod plan_matcher;
mod run;
mod search_batch;
mod search_first;
mod search_game;
mod search_many;
mod shared_plan_matcher;

pub use answers::{Answer, GameAnswer, Keys};
pub use order::{by_keys, in_order};
pub use pgn_batches::{Batch, BatchFault, Batches};
pub use run::{run_batch, run_first, run_many};
pub use search_many::ManyAnswers;
