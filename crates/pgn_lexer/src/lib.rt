//! The tokens of PGN, read from bytes: sections 5 to 8 of the standard.
//!
//! `specs/Grammar` defines the texts of each kind of lexeme. `specs/Readings` defines the reading at a place, and
//! `readings_are_longest` proves that it is the longest lexeme there. `specs/Lexemes` takes the readings off the front
//! of a text, one after the other; `tokens` gives exactly these, without escape lines. The laws are on the order of
//! lexemes, on those of a part of a text, and on those that stay whatever follows the text.
#![tactic(auto)]

mod game;
mod laws;
mod lexeme;
mod reading;
mod token;

pub use game::tokens;
pub use laws::{
    fronts_settle, lexemes_are_local, lexemes_are_spelled, lexemes_follow, lexemes_move,
    lexemes_stand_apart, readings_are_longest, readings_grow, tokens_stand_apart,
    white_space_is_passed, whole_lexemes_stay,
};
pub use lexeme::{Lexeme, next_lexeme};
pub use reading::{continues_symbol, longest_reading, place_of, plain_len};
pub use token::{LexemeKind, Reading, Token, TokenKind};
