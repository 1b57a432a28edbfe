//! The legal moves of a chess position, and the position after each.
#![tactic(auto)]

mod castling;
mod goals;
mod legality;
mod list;
mod mate;
mod men_after;
mod mover;
mod next_position;
mod null_move;
mod reach;
mod sliders;

pub use castling::is_castling;
pub use legality::{is_legal, is_legal_seen};
pub use list::legal_moves;
pub use mate::{is_mate, is_stalemate};
pub use men_after::is_en_passant_capture;
pub use next_position::play;
pub use null_move::pass;
pub use reach::origins_to;
