//! The counts of games.

/// The numbers of the games that were searched, of those that match, and of the faulty ones.
#[derive(Clone, Copy, Debug)]
pub struct Tally {
    pub games: u64,
    pub matched: u64,
    pub refused: u64,
}
