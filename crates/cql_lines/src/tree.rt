//! Building and reading of trees.
ghost use Rattle.std.specs.Prelude.{◌≡◌, ◌<◌, ◌≤◌, ◌++◌, ◌∷◌, [], length, true, Some, None, IfSome, OnOk, OnErr};
ghost use Rattle.cql_lines.specs.Limits.{longest_limit};
ghost use Rattle.cql_lines.specs.Shapes.{joined, is_searched};
ghost use Rattle.cql_lines.specs.Trees.{tree_nodes_of, goes_back, is_primary, limits_of};

use crate::shape::{Limits, Shape, TreeNode};
use cq_common::NoMemory;
use std::alloc::Global;

impl Shape {
    /// Returns a tree without nodes, for paths down or, with `back`, up. With `primary` each step joins a node and its first child. Paths
    /// of every length count.
    pub fn new(alloc: Global, back: bool, primary: bool) -> Shape
        ensures { (tree_nodes_of result ≡ []) × (goes_back result ≡ back) × (is_primary result ≡ primary) × (limits_of result ≡ None) }
    {
        Shape {
            tree_nodes: Vec::new(alloc),
            back,
            primary,
            extent: None,
        }
    }

    /// Restricts the paths that count to those of `least` to `most` nodes, both numbers from 1 to 127. If `least` is above `most`, none
    /// counts.
    pub fn limit(&mut self, least: u32, most: u32)
        requires least { (0 < least) × (least ≤ longest_limit) }
        requires most { (0 < most) × (most ≤ longest_limit) }
        ensures extent { limits_of self.new ≡ Some (record { least = least; most = most }) }
        ensures tree { (tree_nodes_of self.new ≡ tree_nodes_of self.old) × (goes_back self.new ≡ goes_back self.old)
            × (is_primary self.new ≡ is_primary self.old) }
    {
        self.extent = Some(Limits { least, most });
    }

    /// Adds a node. `searched` is true if the node is searched, `first` if it is its parent's first child.
    ///
    /// # Errors
    ///
    /// `NoMemory` if out of memory. The tree is then unchanged.
    pub fn push(&mut self, parent: Option<u32>, searched: bool, first: bool) -> Result<(), NoMemory>
        requires parent { IfSome parent (λ p. p < length (tree_nodes_of self.old)) }
        requires searched { IfSome parent (λ p. searched ≡ true → is_searched (tree_nodes_of self.old) p ≡ true) }
        ensures more { OnOk result (tree_nodes_of self.new
            ≡ tree_nodes_of self.old ++ record { parent = parent; searched = searched; first = first } ∷ []) }
        ensures same { OnErr result (tree_nodes_of self.new ≡ tree_nodes_of self.old) }
        ensures way { (goes_back self.new ≡ goes_back self.old) × (is_primary self.new ≡ is_primary self.old)
            × (limits_of self.new ≡ limits_of self.old) }
    {
        self.tree_nodes.push(TreeNode {
            parent,
            searched,
            first,
        })?;
        Ok(())
    }

    /// Returns the parent to which a node is joined, if it is joined to one.
    pub(crate) fn joined_to(&self, node: usize) -> Option<u32>
        requires { node < length self.now.tree_nodes.items }
        ensures { result ≡ joined self.now.primary self.now.tree_nodes.items node }
    {
        let spot = self.tree_nodes[node];
        if spot.searched && (spot.first || !self.primary) {
            return spot.parent;
        }
        None
    }

    /// Returns true if a node is searched.
    pub(crate) fn searched(&self, node: usize) -> bool
        requires { node < length self.now.tree_nodes.items }
        ensures { result ≡ is_searched self.now.tree_nodes.items node }
    {
        self.tree_nodes[node].searched
    }

    /// Returns the number of nodes.
    pub(crate) fn len(&self) -> usize
        ensures { result ≡ length self.now.tree_nodes.items }
    {
        self.tree_nodes.len()
    }
}
