//! Chess positions: the men, the moves, and the text of a position in Forsyth-Edwards Notation.
//!
//! `specs/Position` has the invariant of every position, and `specs/Fen` the meaning of a text. `specs/Attacks` has the attacks, and
//! `specs/Legal` the moves and the position after each.
#![tactic(auto)]

mod attack_test;
pub mod attacks;
pub mod fen;
pub mod games;
pub mod home_squares;
pub mod king;
pub mod laws;
pub mod men;
pub mod moves;
pub mod planes;
pub mod position;

pub use attacks::{attacks_from, in_check};
pub use fen::{FenFault, fen_text, read_fen};
pub use games::GameResult;
pub use men::{
    Man, Piece, Promotion, Side, is_of_side, king_of, letter_of, man_of, man_of_letter, opponent,
    rook_of,
};
pub use moves::Move;
pub use planes::Men;
pub use position::{Position, Rights, material};
