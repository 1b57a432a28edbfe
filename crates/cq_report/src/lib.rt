//! The lines of reports: the line of a faulty game, the counts after the last game or on a made archive, and the line of a faulty query.
#![tactic(auto)]

mod games;
mod queries;

pub use games::{fault_line, head_line, made_line, summary_line};
pub use queries::{numbered_query_line, query_line};
