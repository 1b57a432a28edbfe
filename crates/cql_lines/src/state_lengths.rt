//! The lengths that each place reads from a node: the greatest of them or, for lines with limits, their set.
ghost use Rattle.std.specs.Prelude.{◌≡◌, ℕ, ◌<◌, ◌≤◌, Bool, length, slice_get, Some};
ghost use Rattle.cql_lines.specs.Internal.Cells.{both_kinds, place_cell, LeavesRoom, Counts, IsGreatestAllowed};
ghost use Rattle.cql_lines.specs.declared.automaton.Transition.{Transition as RuleValue};

use crate::automaton::Transition;
use crate::shape::Limits;

/// A row of cells, one for each place. A cell is a number that represents the lengths of the ways that the place reads from a node.
pub trait StateLengths: Copy {
    /// True if a cell is a set of lengths, and false if it is the greatest of them.
    ghost sets: { Bool };

    ghost cells: { Self → ℕ → ℕ };

    /// Returns a row without lengths.
    fn blank() -> Self
        ensures { (j : ℕ) → cells result j ≡ 0 };

    /// Returns the lengths that the places read from a node, by the row of the nodes after it on the paths.
    fn own(&self, rules: &[Transition], held: u64) -> Self
        requires count { length rules.now ≤ 64 }
        requires atoms { (i : ℕ) (r : RuleValue) → slice_get rules.now i ≡ Some r → r.atom < 64 }
        requires room { (j : ℕ) → LeavesRoom sets (cells self.now j) }
        ensures here { (i : ℕ) (r : RuleValue) → slice_get rules.now i ≡ Some r
            → cells result i ≡ place_cell sets r held (cells self.now) (length rules.now) }
        ensures past { (i : ℕ) → length rules.now ≤ i → cells result i ≡ 0 };

    /// Adds the lengths of the other row, which has none from place `count` on.
    fn merge(&mut self, own: &Self, count: usize)
        requires count { count ≤ 64 }
        requires past { (j : ℕ) → count ≤ j → cells own.now j ≡ 0 }
        ensures { (j : ℕ) → cells self.new j ≡ both_kinds sets (cells self.old j) (cells own.now j) };

    /// Returns the greatest length that counts, among those of the first `count` places that are in the mask.
    fn greatest_allowed(&self, mask: u64, count: usize, extent: Option<Limits>) -> Option<u32>
        requires count { count ≤ 64 }
        requires extent { Counts sets extent }
        ensures { IsGreatestAllowed sets extent mask (cells self.now) count result };
}
