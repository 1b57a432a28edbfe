//! The automaton of a pattern.
ghost use Rattle.std.specs.Prelude.{◌≤◌, length};

use cq_common::Shared;

/// The ways on after a node of a path: the places that may read the next node, and whether the path may end.
#[derive(Clone, Copy, Debug)]
pub struct FollowSet {
    pub places: u64,
    pub ends: bool,
}

/// A place: the atom that it reads, and the ways on after it.
#[derive(Clone, Copy, Debug)]
pub struct Transition {
    pub atom: u32,
    pub after: FollowSet,
}

/// The places of a pattern: one for each atom in it. A repeated part counts as often as it may occur.
#[derive(Drop)]
pub struct Automaton {
    pub(crate) rules: Vec<Transition>,
    /// The places that read a path's first node.
    pub(crate) first: u64,
    ghost few: { length rules.items ≤ 64 },
}

impl Shared for Automaton {}
