//! Patterns of lines.
ghost use Rattle.std.specs.Prelude.{◌≡◌, ◌++◌, ◌∷◌, [], length, OnOk, OnErr};
ghost use Rattle.cql_lines.specs.PatternTrees.{patterns_in};

use cq_common::NoMemory;
use std::alloc::Global;

/// A pattern of paths, node by node.
#[cycle(pattern)]
#[derive(Drop)]
pub enum Pattern {
    /// One node at which the atom of this number holds.
    Atom(u32),
    /// A path in parts, one for each pattern in order.
    Sequence(Patterns),
    /// Any number of parts, or none.
    Star(Box<Pattern>),
    /// One part or more.
    Plus(Box<Pattern>),
    /// No part or one.
    Maybe(Box<Pattern>),
    /// A number of parts from the first number to the second.
    Times(u32, u32, Box<Pattern>),
}

/// Patterns in order.
#[cycle(pattern)]
#[derive(Drop)]
pub struct Patterns {
    items: Vec<Pattern>,
}

impl Patterns {
    /// Returns an empty list of patterns.
    pub fn new(alloc: Global) -> Patterns
        ensures { patterns_in result ≡ [] }
    {
        Patterns {
            items: Vec::new(alloc),
        }
    }

    /// Adds a pattern at the end.
    ///
    /// # Errors
    ///
    /// `NoMemory` if out of memory. The pattern is then dropped.
    pub fn push(&mut self, item: Pattern) -> Result<(), NoMemory>
        ensures more { OnOk result (patterns_in self.new ≡ patterns_in self.old ++ item ∷ []) }
        ensures same { OnErr result (patterns_in self.new ≡ patterns_in self.old) }
    {
        self.items.push(item)?;
        Ok(())
    }

    /// Returns the number of patterns.
    pub fn len(&self) -> usize
        ensures { result ≡ length (patterns_in self.now) }
    {
        self.items.len()
    }

    /// Returns all patterns in order.
    pub fn as_slice(&self) -> &[Pattern]
        ensures { result.now ≡ patterns_in self.now }
    {
        self.items.as_slice()
    }
}
