//! The squares that a played move left and reached, and its capture.
#![tactic(auto)]

pub mod led;

pub use led::{Led, led_by};
