//! The text of a game as JSON (RFC 8259), and the top call of `pgnjson`.
//!
//! `specs/Strings` defines the text of a JSON string, `specs/Values` that of objects and arrays, and `specs/Json` the text of a game.
//! `specs/Data` has JSON values, and `specs/Grammar` the texts that spell them. Laws say that a line is read as the value of its game
//! (`specs/GameValue`). They also say that lines tell games apart but for the bytes of their texts (`specs/GameReading`). `specs/Promise`
//! is the promise of the top call.
#![tactic(auto)]

mod game;
mod game_writer;
mod job;
mod laws;
mod line;
mod node;
mod notes;
mod part_texts;
mod plies;
mod strings;
mod texts;
mod top_call;
mod words;
mod write_archive;
mod writing;

pub use game::json_line;
pub use job::{Job, WordsRefused};
pub use laws::{
    games_have_valid_nodes, lines_are_json, lines_are_utf8, same_lines_have_the_same_game,
    strings_are_read_back, texts_are_bytes,
};
pub use top_call::{answer_command, refuse_command, run};
pub use words::read_words;
