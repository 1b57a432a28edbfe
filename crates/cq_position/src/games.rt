//! The results of games.

/// The result of a game, as its termination marker gives it (PGN standard, section 8.2.6).
#[derive(Clone, Copy, Debug, PartialEq, Eq)]
pub enum GameResult {
    /// White won: `1-0`.
    White,
    /// Black won: `0-1`.
    Black,
    /// The game was drawn: `1/2-1/2`.
    Draw,
    /// The game is in progress, or its result is not known: `*`.
    Open,
}
