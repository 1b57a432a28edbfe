//! The command words: the job that they name, or their refusal. `clap` reads them as one simple command. The rules on the mode, the archive
//! and the options of each mode are here.
#![tactic(auto)]

mod job;
mod line;
mod mode;
mod options;
mod reading;

pub use job::{Job, SelfRunSettings, Settings, WordsRefused};
pub use reading::read_words;
