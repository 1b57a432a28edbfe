//! The game and the names by which a filter's parts are evaluated.

use cql_values::names::Names;
use pgn_tree::Game;

/// The game and the names by which a filter is evaluated.
#[derive(Clone, Copy)]
pub struct Scope<'a> {
    pub game: &'a Game,
    /// True if the variations are searched, and false if the main line alone is.
    pub variations: bool,
    /// The squares that are bound to names.
    pub names: &'a Names,
}
