//! Rows of the greatest lengths, for lines without limits.
ghost use Rattle.std.specs.Prelude.{◌≡◌, ℕ, ◌<◌, ◌≤◌, get_or, length, max, if◌then◌else◌, slice_get, Some, false};
ghost use Rattle.cql_lines.specs.Internal.DownwardPass.{found};
ghost use Rattle.cql_lines.specs.Internal.Lengths.{greatest_in, place_value, is_set, at};
ghost use Rattle.cql_lines.specs.declared.automaton.Transition.{Transition as RuleValue};

use crate::automaton::Transition;
use crate::masks::{first_place, past_places};
use crate::shape::Limits;
use crate::state_lengths::StateLengths;

// The greatest value among the first `count` places that are in the mask.
fn greatest(mask: u64, row: &[u32; 64], count: usize) -> u32
    requires { count ≤ 64 }
    ensures { result ≡ greatest_in mask (at row.now) count }
{
    let mut best = 0;
    for j in first_place(mask, count)..past_places(mask, count) {
        best = better(best, mask, j, row[j]);
    }
    best
}

fn better(best: u32, mask: u64, j: usize, value: u32) -> u32
    requires { j < 64 }
    ensures { result ≡ (if is_set mask j then max best value else best) }
{
    if (mask >> j) & 1 == 1 && value > best {
        value
    } else {
        best
    }
}

// The greatest length that a place reads from a node.
fn length_at(rule: Transition, held: u64, below: &[u32; 64], count: usize) -> u32
    requires count { count ≤ 64 }
    requires atom { rule.atom < 64 }
    requires small { (j : ℕ) → get_or below.now j 0 < 4294967295 }
    ensures { result ≡ place_value rule held (at below.now) count }
{
    if (held >> rule.atom) & 1 == 0 {
        return 0;
    }
    let best = greatest(rule.after.places, below, count);
    if best > 0 {
        return best + 1;
    }
    rule.after.ends as u32
}

// The number of places up to the last that has a length. Most nodes have none.
fn used_len(row: &[u32; 64], count: usize) -> usize
    requires { count ≤ 64 }
    ensures within { result ≤ count }
    ensures past { (j : ℕ) → result ≤ j → j < count → at row.now j ≡ 0 }
{
    let mut used = count;
    while used > 0 && row[used - 1] == 0 {
        used -= 1;
    }
    used
}

// The greatest lengths that the places read from a node, by the row of the nodes after it on the paths.
fn own_lengths(rules: &[Transition], held: u64, below: &[u32; 64]) -> [u32; 64]
    requires count { length rules.now ≤ 64 }
    requires atoms { (i : ℕ) (r : RuleValue) → slice_get rules.now i ≡ Some r → r.atom < 64 }
    requires small { (j : ℕ) → get_or below.now j 0 < 4294967295 }
    ensures here { (i : ℕ) (r : RuleValue) → slice_get rules.now i ≡ Some r
        → at result i ≡ place_value r held (at below.now) (length rules.now) }
    ensures past { (i : ℕ) → length rules.now ≤ i → at result i ≡ 0 }
{
    let used = used_len(below, rules.len());
    let mut own = [0; 64];
    for i in 0..rules.len() {
        own[i] = length_at(rules[i], held, below, used);
    }
    own
}

// Raises each length to that of the other row, which has 0 from place `count` on.
#[tactic(auto, using(crate::proofs::RowsLaw::raised_all))]
fn raise(row: &mut [u32; 64], own: &[u32; 64], count: usize)
    requires count { count ≤ 64 }
    requires past { (j : ℕ) → count ≤ j → at own.now j ≡ 0 }
    ensures { (j : ℕ) → at row.new j ≡ max (at row.old j) (at own.now j) }
{
    for j in 0..count {
        row[j] = larger(row[j], own[j]);
    }
}

fn larger(a: u32, b: u32) -> u32
    ensures { result ≡ max a b }
{
    if a < b { b } else { a }
}

fn found_length(m: u32) -> Option<u32>
    ensures { result ≡ found m }
{
    if m > 0 {
        return Some(m);
    }
    None
}

impl StateLengths for [u32; 64] {
    ghost sets = { false };

    ghost cells = { at };

    fn blank() -> Self {
        [0; 64]
    }

    fn own(&self, rules: &[Transition], held: u64) -> Self {
        own_lengths(rules, held, self)
    }

    fn merge(&mut self, own: &Self, count: usize) {
        raise(self, own, count)
    }

    fn greatest_allowed(&self, mask: u64, count: usize, _extent: Option<Limits>) -> Option<u32> {
        found_length(greatest(mask, self, count))
    }
}
