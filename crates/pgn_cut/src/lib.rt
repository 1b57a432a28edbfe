//! An archive of PGN, cut into its games.
//!
//! `specs/Cut` defines the beginning and the end of each game, by the lexemes of the whole archive; `cut_whole` gives
//! exactly these. The laws say that games are in order, and that the tokens of a game are the archive's lexemes within
//! it. No game ends within another. The games that a prefix of an archive closes stay, whatever follows, and an archive
//! splits after each of its games. A `Cutter` gives the games of an archive that comes in pieces, and the beginning of
//! the open game.
#![tactic(auto)]

mod cutter;
mod game;
mod laws;
mod pair_runs;
mod settled_lexeme;
mod span;
mod state;
mod whole_archive;
mod word_runs;

pub use cutter::Cutter;
pub use laws::{
    archives_split, closed_games_stay, games_end_once, games_have_their_tokens, games_stand_apart,
    open_lexemes_settle,
};
pub use span::Span;
pub use whole_archive::cut_whole;
