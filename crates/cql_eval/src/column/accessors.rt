//! The entries of a query's column.
ghost use Rattle.std.specs.Prelude.{◌≡◌, ◌<◌, [], length, get_or, false, None};
ghost use Rattle.cql_eval.specs.Hits.{hits_of, keys_of};

use crate::column::Column;

impl Column {
    /// Returns true if all items hold at a node.
    pub fn hit(&self, node: u32) -> bool
        requires { node < length (hits_of self.now) }
        ensures { result ≡ get_or (hits_of self.now) node false }
    {
        self.hits[node as usize]
    }

    /// The column of hits: an entry for each node, true if all items hold there.
    pub fn into_hits(self) -> Vec<bool>
        ensures { result.items ≡ hits_of self }
    {
        self.hits
    }

    /// The number of sort items of the query.
    pub fn sorts(&self) -> usize
        ensures { result ≡ length (keys_of self.now) }
    {
        self.keys.len()
    }

    /// The value at a node of the sort item with a number, counted from 0; `None` if it has none.
    pub fn key(&self, sort: u32, node: u32) -> Option<i64>
        requires sort { sort < length (keys_of self.now) }
        requires node { node < length (get_or (keys_of self.now) sort []) }
        ensures { result ≡ get_or (get_or (keys_of self.now) sort []) node None }
    {
        self.keys[sort as usize][node as usize]
    }

    /// The values at each node of the sort item with a number, counted from 0.
    pub fn row(&self, sort: usize) -> &[Option<i64>]
        requires { sort < length (keys_of self.now) }
        ensures { result.now ≡ get_or (keys_of self.now) sort [] }
    {
        self.keys[sort].as_slice()
    }
}
