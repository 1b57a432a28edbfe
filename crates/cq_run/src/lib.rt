//! The top call: the jobs that the words of a command name.
#![tactic(auto)]

mod command;
mod selfrun;
mod top_call;

pub use command::answer_command;
pub use cq_query_files::Status;
pub use cq_search::{answer, answer_many};
pub use top_call::run;
