//! Moves in Standard Algebraic Notation. A text is read as the one legal move that it means in a position, and a move is written as text.
//!
//! `specs/Spelling` defines the spelling of a move, which is more lenient than the PGN standard. `specs/Fits` defines the moves that fit,
//! and `specs/Writing` the text of a move.
#![tactic(auto)]

mod fault;
mod fit;
mod laws;
mod origins;
mod parts;
mod reading;
mod text;

pub use fault::SanFault;
pub use laws::{san_means, signs_mean, written_is_read};
pub use parts::{Parts, PieceMove, parts_of};
pub use reading::read_san;
pub use text::{san_text, san_text_to};
