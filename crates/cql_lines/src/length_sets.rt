//! Rows of sets of lengths, for lines with limits. Bit k of a cell is the length k, and no length above 127 counts.
ghost use Rattle.std.specs.Prelude.{◌≡◌, ℕ, ◌<◌, ◌≤◌, length, if◌then◌else◌, bit_or, slice_get, Some, true};
ghost use Rattle.cq_common.specs.Greatest.{IsGreatest};
ghost use Rattle.cql_lines.specs.Internal.Lengths.{is_set, at};
ghost use Rattle.cql_lines.specs.Places.{when, IsIn};
ghost use Rattle.cql_lines.specs.Internal.LengthSets.{Between, shifted, union_in, place_set};
ghost use Rattle.cql_lines.specs.declared.automaton.Transition.{Transition as RuleValue};

use crate::automaton::Transition;
use crate::masks::{first_place, past_places};
use crate::shape::Limits;
use crate::state_lengths::StateLengths;

fn with_lengths(set: u128, mask: u64, j: usize, more: u128) -> u128
    requires { j < 64 }
    ensures { result ≡ (if is_set mask j then bit_or set more else set) }
{
    if (mask >> j) & 1 == 1 {
        set | more
    } else {
        set
    }
}

// The lengths of the places, among the first `count`, that are in the mask.
fn union_of(mask: u64, row: &[u128; 64], count: usize) -> u128
    requires { count ≤ 64 }
    ensures { result ≡ union_in mask (at row.now) count }
{
    let mut all = 0;
    for j in first_place(mask, count)..past_places(mask, count) {
        all = with_lengths(all, mask, j, row[j]);
    }
    all
}

// Each length plus one.
fn longer(set: u128) -> u128
    ensures { result ≡ shifted set }
{
    set << 1
}

// The lengths that a place reads from a node.
fn lengths_at(rule: Transition, held: u64, below: &[u128; 64], count: usize) -> u128
    requires count { count ≤ 64 }
    requires atom { rule.atom < 64 }
    ensures { result ≡ place_set rule held (at below.now) count }
{
    if (held >> rule.atom) & 1 == 0 {
        return 0;
    }
    longer(union_of(rule.after.places, below, count)) | alone(rule.after.ends)
}

fn alone(ends: bool) -> u128
    ensures { result ≡ when ends 2 }
{
    if ends { 2 } else { 0 }
}

// The greatest length of the set from `least` to `most`.
fn greatest_within(set: u128, least: u32, most: u32) -> Option<u32>
    requires { most < 128 }
    ensures { IsGreatest (Between least most (IsIn set)) result }
{
    for back in 0..most + 1 {
        let k = most - back;
        if k < least {
            return None;
        }
        if (set >> k) & 1 == 1 {
            return Some(k);
        }
    }
    None
}

// The lengths that the places read from a node, by the row of the nodes after it on the paths.
fn own_length_sets(rules: &[Transition], held: u64, below: &[u128; 64]) -> [u128; 64]
    requires count { length rules.now ≤ 64 }
    requires atoms { (i : ℕ) (r : RuleValue) → slice_get rules.now i ≡ Some r → r.atom < 64 }
    ensures here { (i : ℕ) (r : RuleValue) → slice_get rules.now i ≡ Some r
        → at result i ≡ place_set r held (at below.now) (length rules.now) }
    ensures past { (i : ℕ) → length rules.now ≤ i → at result i ≡ 0 }
{
    let mut own = [0; 64];
    for i in 0..rules.len() {
        own[i] = lengths_at(rules[i], held, below, rules.len());
    }
    own
}

// Adds the lengths of the other row, which has none from place `count` on.
#[tactic(auto, using(crate::proofs::RowsLaw::united_all))]
fn merge(row: &mut [u128; 64], own: &[u128; 64], count: usize)
    requires count { count ≤ 64 }
    requires past { (j : ℕ) → count ≤ j → at own.now j ≡ 0 }
    ensures { (j : ℕ) → at row.new j ≡ bit_or (at row.old j) (at own.now j) }
{
    for j in 0..count {
        row[j] |= own[j];
    }
}

impl StateLengths for [u128; 64] {
    ghost sets = { true };

    ghost cells = { at };

    fn blank() -> Self {
        [0; 64]
    }

    fn own(&self, rules: &[Transition], held: u64) -> Self {
        own_length_sets(rules, held, self)
    }

    fn merge(&mut self, own: &Self, count: usize) {
        merge(self, own, count)
    }

    fn greatest_allowed(&self, mask: u64, count: usize, extent: Option<Limits>) -> Option<u32> {
        let Some(extent) = extent else {
            return None;
        };
        let all = union_of(mask, self, count);
        greatest_within(all, extent.least, extent.most)
    }
}
