//! The game, the mappings and the names by which a filter's parts are evaluated.

use cq_symmetry::Mapping;
use cql_values::names::Names;
use pgn_tree::Game;

/// The game, the mappings and the names by which a filter is evaluated.
#[derive(Clone, Copy)]
pub(crate) struct Scope<'a> {
    pub(crate) game: &'a Game,
    /// True if the variations are searched, and false if the main line alone is.
    pub(crate) variations: bool,
    /// The mappings inside of which the filter is evaluated, the innermost first.
    pub(crate) context: &'a [Mapping],
    /// The squares that are bound to names.
    pub(crate) names: &'a Names,
}
