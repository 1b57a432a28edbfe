//! The pieces of an archive, and the top call of `pgnpieces`. An archive is cut at ends of games, so each piece can be searched by itself.
//!
//! A piece begins at the end of the one before. It ends with the first game with which it has the required bytes; the last piece has the
//! rest. The laws say that the pieces, one after the other, are the archive. Each of them, cut by itself, has exactly its games: the first
//! piece as it is, any other after one space.
#![tactic(auto)]

mod cutting;
mod job;
mod laws;
mod line;
mod piece;
mod pieces;
mod state;
mod table;
mod top_call;
mod words;

pub use job::{Job, WordsRefused};
pub use laws::{pieces_cover_their_archive, pieces_have_their_games};
pub use piece::Piece;
pub use state::Pieces;
pub use top_call::{answer_command, run};
pub use words::read_words;
