//! The reader of queries, from texts and from files, and the lines of their faults.
#![tactic(auto)]

mod flat_form;
pub mod laws;
mod queries;
mod query_files;
mod status;

pub use flat_form::explain;
pub use queries::{
    FileRefusal, accept_query, drop_query, query_in_file, read_query, refuse_query, report_refusal,
};
pub use query_files::{ManyFault, drop_queries, queries_in_file, report_queries_refusal};
pub use status::Status;
