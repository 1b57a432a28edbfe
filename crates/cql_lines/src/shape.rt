//! The tree, and the paths through it that count.
ghost use Rattle.std.specs.Prelude.{◌≡◌, ℕ, ◌<◌, ◌≤◌, true, Some};
ghost use Rattle.cql_lines.specs.declared.shape.Limits.{Limits as SomeLimits};
ghost use Rattle.cql_lines.specs.Limits.{longest_limit};
ghost use Rattle.cql_lines.specs.Shapes.{joined, is_searched};

use cq_common::Shared;

/// A node of the tree.
#[derive(Clone, Copy, Debug)]
pub struct TreeNode {
    pub parent: Option<u32>,
    pub searched: bool,
    pub first: bool,
}

/// The lengths that count, from the least to the most, in nodes.
#[derive(Clone, Copy, Debug)]
pub struct Limits {
    pub least: u32,
    pub most: u32,
}

/// The tree, and the paths through it that count.
#[derive(Drop)]
pub struct Shape {
    pub(crate) tree_nodes: Vec<TreeNode>,
    pub(crate) back: bool,
    pub(crate) primary: bool,
    /// The lengths that count. If it is `None`, every length does.
    pub(crate) extent: Option<Limits>,
    ghost below: { (n p : ℕ) → joined primary tree_nodes.items n ≡ Some p → p < n },
    ghost whole: { (n p : ℕ) → joined primary tree_nodes.items n ≡ Some p → is_searched tree_nodes.items p ≡ true },
    ghost short: { (e : SomeLimits) → extent ≡ Some e → e.most ≤ longest_limit },
}

impl Shared for Shape {}
