//! Basics that the readers of games, the readers of queries and the outside share. These are lists of bytes, faults of calls, a counter of
//! steps, and the trait of types that threads share. White space and decimal digits are the same in PGN and in queries. Patterns spell
//! lists.
#![tactic(auto)]

pub mod bytes;
pub mod faults;
pub mod laws;
pub mod shared;
pub mod steps;
pub mod text;

pub use bytes::Bytes;
pub use faults::{Failed, NoMemory, OpenFault, Refusal};
pub use shared::Shared;
pub use steps::Steps;
pub use text::{decimal_up_to, digits_len, is_white, white_len};
