//! The hits of a query in a game, node by node, and the values of its sort items.

mod accessors;

/// The nodes of a game at which all items of a query hold, and the values of its sort items, node by node.
#[derive(Drop)]
pub struct Column {
    pub(crate) hits: Vec<bool>,
    pub(crate) keys: Vec<Vec<Option<i64>>>,
}
