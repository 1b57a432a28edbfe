//! The lengths of the paths of a line.
ghost use Rattle.std.specs.Prelude.{◌≡◌, ◌≤◌, ℕ};
ghost use Rattle.cql_syntax.specs.Extents.{path_length};
ghost use Rattle.cql_syntax.specs.Limits.{longest_path};

use std::marker::Model;

/// The greatest length of a path in a line's extent, in nodes.
pub const LONGEST_PATH: u32 = 127;

/// A number of nodes along a path, from 1 to `LONGEST_PATH`.
#[derive(Clone, Copy, Debug, PartialEq, Eq)]
pub struct PathLength {
    nodes: u32,
}

impl Model for PathLength {
    ghost Value = { ℕ };

    ghost view = { λ length. length.nodes };

    ghost invariant = { λ length. (1 ≤ length.nodes) × (length.nodes ≤ longest_path) };

    ghost inverse = { λ nodes. record { nodes = nodes } };
}

impl PathLength {
    /// Returns the length of so many nodes, or `None` if the number is not from 1 to
    /// `LONGEST_PATH`.
    pub fn new(nodes: u32) -> Option<PathLength>
        ensures { result ≡ path_length nodes }
    {
        if 1 <= nodes && nodes <= LONGEST_PATH {
            Some(PathLength { nodes })
        } else {
            None
        }
    }

    /// Returns the number of nodes.
    pub fn nodes(self) -> u32
        ensures value { result ≡ self }
        ensures least { 1 ≤ result }
        ensures most { result ≤ longest_path }
    {
        self.nodes
    }
}

/// The lengths that a line allows its paths.
#[derive(Clone, Copy, Debug, PartialEq, Eq)]
pub enum Extent {
    /// Every length.
    Any,
    /// The lengths from the first to the second; none if the first is the greater.
    Within(PathLength, PathLength),
}
