//! Attacks by bitboards: the attacks of the men of a set, the men that attack a set, and the squares between two sets.
#![tactic(auto)]

pub mod attacking;
pub mod attacks;
pub mod between;

pub use attacking::{attackers, attackers_among};
pub use attacks::attacked;
pub use between::between_all;
pub use cq_square_sets::{BitSet64, slide};
