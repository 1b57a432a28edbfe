//! The node at which filters are evaluated.

use pgn_tree::Game;

/// A node of a game at which filters are evaluated.
#[derive(Clone, Copy)]
pub struct GameNode<'a> {
    pub game: &'a Game,
    /// True if the variations are searched, and false if the main line alone is.
    pub variations: bool,
    pub node: u32,
}
