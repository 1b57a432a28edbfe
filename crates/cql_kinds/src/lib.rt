//! The check of a query's tree for faults: its kinds, names, places and sorts, and its limits.
#![tactic(auto)]

mod bound_names;
mod checking;
mod first_breaches;
mod operand_kinds;
mod places;
mod rules;
mod typing_context;
mod walk;

pub use checking::check;
