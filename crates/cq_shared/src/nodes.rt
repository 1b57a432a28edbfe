//! Sets of a game's nodes and rows of numbers, kept while parts are evaluated.

/// A set of nodes: a truth for each.
#[derive(Drop)]
pub struct NodeSet {
    pub there: Vec<bool>,
}

/// The numbers of a sort item, a place for each node.
#[derive(Drop)]
pub struct KeyColumn {
    pub numbers: Vec<Option<i64>>,
}

/// The nodes that are left to each query after the sort items, and a row for each part.
#[derive(Drop)]
pub struct NodesAndKeys {
    pub left: Vec<NodeSet>,
    pub rows: Vec<KeyColumn>,
}

/// The nodes that are left to each query after one part, and if this is a sort item, its row.
#[derive(Drop)]
pub struct PartResult {
    pub left: Vec<NodeSet>,
    pub row: KeyColumn,
}

/// The truths of a part and, if it is a sort item, its numbers, a place for each node.
#[derive(Drop)]
pub struct PartValues {
    pub truths: Vec<bool>,
    pub numbers: Vec<Option<i64>>,
}
