//! The search of an archive: for one query over all its games, or up to the first that matches, or for several over one reading of it.
#![tactic(auto)]

mod all_games;
mod all_queries;
mod archives;
mod batch_refusal;
mod first_match;
mod keeping;
mod laws;
mod output;
mod outputs;
mod run_context;
mod selfrun;
mod sorts;
mod tally;
mod totals;

pub use all_queries::{answer_many, search_archive_many};
pub use archives::{answer, search_archive};
pub use run_context::RunContext;
pub use selfrun::{GENERATED_LIMIT, search_generated_archive};
pub use tally::Tally;
pub use totals::Totals;
