//! A board on which workers keep the least number that one of them found, whatever the order of their steps.
#![tactic(auto)]

mod board;
mod look;
mod seat;
mod view;

pub use seat::{FirstBoard, FirstSeat};
