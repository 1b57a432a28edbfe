//! The layer of all programs: the outcomes of a call, the usage line, and the end of a program. It knows the outside alone.
#![tactic(auto)]

mod status;
mod usage;

pub use status::Status;
pub use usage::refuse_words;
