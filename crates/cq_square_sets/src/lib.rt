//! Bitboards, which are sets of squares as words of 64 bits, and their slides and steps. Bit k is the square k.
//!
//! `specs/Bitboards` defines the set of a word, and `specs/Sets` the squares that a sliding set reaches. `specs/Planes` defines the list of
//! 64 items that four words keep together.
#![tactic(auto)]

pub mod leaps;
pub mod lines;
mod rays;
pub mod sets;
pub mod slides;

pub use leaps::{black_pawn_attacks, king_attacks, knight_attacks, white_pawn_attacks};
pub use lines::{bishop_attacks, bishop_lines, rook_attacks, rook_lines};
pub use sets::{highest_square, lowest_square, meets, set_of};
pub use slides::{BitSet64, slide};
