//! Building the automaton of a pattern.

ghost use Rattle.std.specs.Prelude.{◌≡◌, ℕ, ◌+◌, ◌-◌, ◌*◌, ◌<◌, ◌≤◌, ◌&&◌, ◌||◌, ◌++◌, length, IfOk, OnOk, true, false, bit_or};
ghost use Rattle.cql_lines.specs.Building.{AtomsBelow, size, firsts, firsts_times, rows, rows_times, begins, nullable, null_times};
ghost use Rattle.cql_lines.specs.Places.{when};
ghost use Rattle.cql_lines.specs.Internal.BinaryPatterns.{plain_tree};
ghost use Rattle.cql_lines.specs.PatternTrees.{pattern_tree};
ghost use Rattle.cql_lines.specs.Automata.{places, IsAutomatonOf, UsesBelow};

use crate::automaton::{Automaton, FollowSet, Transition};
use crate::binary_pattern::{BinaryPattern, plain_of};
use crate::pattern::Pattern;
use cq_common::NoMemory;
use std::alloc::{AllocError, Global};

impl Automaton {
    /// Returns the automaton of a pattern of at most 64 places. A part without places may be repeated as often as a bound says, and each
    /// repetition takes time.
    ///
    /// # Errors
    ///
    /// `NoMemory` if out of memory.
    #[tactic(auto, using(crate::proofs::LinesLaw::few_rules))]
    pub fn build(alloc: Global, pattern: &Pattern) -> Result<Automaton, NoMemory>
        requires places { places (pattern_tree pattern.now) ≤ 64 }
        ensures automaton { IfOk result (λ a. IsAutomatonOf a (pattern_tree pattern.now)) }
        ensures atoms { IfOk result (λ a. (atoms : ℕ) → AtomsBelow (pattern_tree pattern.now) atoms → UsesBelow a atoms) }
    {
        let plain = plain_of(alloc, pattern)?;
        let mut rules = Vec::new(alloc);
        let end = FollowSet {
            places: 0,
            ends: true,
        };
        let first = build(&plain, end, &mut rules);
        drop(plain);
        Ok(Automaton {
            rules,
            first: first?,
        })
    }
}

/// Returns true if the pattern spells the empty list.
#[cycle(nullable)]
pub fn is_nullable(p: &BinaryPattern) -> bool
    ensures { result ≡ nullable (plain_tree p.now) }
{
    match p {
        BinaryPattern::Atom(_) => false,
        BinaryPattern::Empty | BinaryPattern::Star(_) => true,
        BinaryPattern::Both(a, b) => is_nullable(a) && is_nullable(b),
        BinaryPattern::Plus(a) => is_nullable(a),
        BinaryPattern::Times(m, n, a) => *m == 0 || (*m <= *n && is_nullable(a)),
    }
}

/// Returns the number of places of the pattern.
#[cycle(size)]
pub fn size_of(p: &BinaryPattern) -> usize
    requires { size (plain_tree p.now) ≤ 64 }
    ensures { result ≡ size (plain_tree p.now) }
{
    match p {
        BinaryPattern::Atom(_) => 1,
        BinaryPattern::Empty => 0,
        BinaryPattern::Star(a) | BinaryPattern::Plus(a) => size_of(a),
        BinaryPattern::Both(a, b) => size_of(b) + size_of(a),
        BinaryPattern::Times(_, n, a) => {
            if *n == 0 {
                return 0;
            }
            *n as usize * size_of(a)
        }
    }
}

fn begin(first: u64, empty: bool, next: FollowSet) -> FollowSet
    ensures { result ≡ begins first empty next }
{
    FollowSet {
        places: with_where(first, empty, next.places),
        ends: empty && next.ends,
    }
}

fn with_where(first: u64, empty: bool, more: u64) -> u64
    ensures { result ≡ bit_or first (when empty more) }
{
    if empty { first | more } else { first }
}

/// Returns the places that read the first node of the pattern, if its places begin at number `at`.
#[cycle(first)]
pub fn first_of(p: &BinaryPattern, at: usize) -> u64
    requires { at + size (plain_tree p.now) ≤ 64 }
    ensures { result ≡ firsts (plain_tree p.now) at }
{
    match p {
        BinaryPattern::Atom(_) => 1 << at,
        BinaryPattern::Empty => 0,
        BinaryPattern::Star(a) | BinaryPattern::Plus(a) => first_of(a, at),
        BinaryPattern::Both(a, b) => {
            let more = first_of(b, at);
            with_where(first_of(a, at + size_of(b)), is_nullable(a), more)
        }
        BinaryPattern::Times(_, n, a) => first_of_times(a, *n, at),
    }
}

#[cycle(first)]
fn first_of_times(p: &BinaryPattern, n: u32, at: usize) -> u64
    requires { at + n * size (plain_tree p.now) ≤ 64 }
    ensures { result ≡ firsts_times (firsts (plain_tree p.now)) (nullable (plain_tree p.now)) (size (plain_tree p.now)) n at }
{
    if n == 0 {
        return 0;
    }
    let len = size_of(p);
    let empty = is_nullable(p);
    let mut first = 0;
    for k in 0..n {
        first = with_where(first_of(p, at + k as usize * len), empty, first);
    }
    first
}

/// Adds the places of a pattern, after which a path goes on by `next`. Returns the places that read its first node.
///
/// # Errors
///
/// `AllocError` if out of memory.
#[cycle(build)]
pub fn build(
    p: &BinaryPattern,
    next: FollowSet,
    rules: &mut Vec<Transition>,
) -> Result<u64, AllocError>
    requires { length rules.old.items + size (plain_tree p.now) ≤ 64 }
    ensures rows { OnOk result (rules.new.items ≡ rules.old.items ++ rows (plain_tree p.now) next (length rules.old.items)) }
    ensures first { IfOk result (λ f. f ≡ firsts (plain_tree p.now) (length rules.old.items)) }
    ensures len { OnOk result (length rules.new.items ≡ length rules.old.items + size (plain_tree p.now)) }
{
    match p {
        BinaryPattern::Atom(atom) => {
            let first = 1 << rules.len();
            rules.push(Transition {
                atom: *atom,
                after: next,
            })?;
            Ok(first)
        }
        BinaryPattern::Empty => Ok(0),
        BinaryPattern::Star(a) | BinaryPattern::Plus(a) => {
            let first = first_of(a, rules.len());
            build(a, begin(first, true, next), rules)
        }
        BinaryPattern::Both(a, b) => {
            let more = build(b, next, rules)?;
            let first = build(a, begin(more, is_nullable(b), next), rules)?;
            Ok(with_where(first, is_nullable(a), more))
        }
        BinaryPattern::Times(m, n, a) => build_times(a, *m, *n, next, rules),
    }
}

#[cycle(build)]
fn build_times(
    p: &BinaryPattern,
    m: u32,
    n: u32,
    next: FollowSet,
    rules: &mut Vec<Transition>,
) -> Result<u64, AllocError>
    requires { length rules.old.items + n * size (plain_tree p.now) ≤ 64 }
    ensures rows { OnOk result (rules.new.items ≡ rules.old.items
        ++ rows_times (rows (plain_tree p.now)) (firsts (plain_tree p.now)) (nullable (plain_tree p.now)) (size (plain_tree p.now))
        m n next (length rules.old.items)) }
    ensures first { IfOk result (λ f.
        f ≡ firsts_times (firsts (plain_tree p.now)) (nullable (plain_tree p.now)) (size (plain_tree p.now)) n (length rules.old.items)) }
    ensures len { OnOk result (length rules.new.items ≡ length rules.old.items + n * size (plain_tree p.now)) }
{
    let empty = is_nullable(p);
    let mut first = 0;
    let mut null = m <= n;
    for k in 0..n {
        first = with_where(build(p, begin(first, null, next), rules)?, empty, first);
        null = null_after(m, n - 1 - k, empty, null);
    }
    Ok(first)
}

fn null_after(m: u32, left: u32, empty: bool, null: bool) -> bool
    ensures { (k : ℕ) → null ≡ null_times empty (m - left - 1) k → result ≡ null_times empty (m - left) (k + 1) }
{
    m <= left || (empty && null)
}
