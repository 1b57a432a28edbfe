//! The games of an archive in batches.
#![tactic(auto)]

mod batch;
mod batch_access;
mod cutting;
mod kept_game;
pub mod laws;
mod queue;
mod reading;
mod state;
mod visits;
mod window;

pub use batch::Batch;
pub use kept_game::KeptGame;
pub use state::{BatchFault, Batches};
pub use visits::{BatchVisitor, VisitEnd, visit_batches};
