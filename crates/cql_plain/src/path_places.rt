//! Sets of places along paths: a truth for each place.
ghost use Rattle.std.specs.Prelude.{◌≡◌, ◌<◌, ◌+◌, ◌∷◌, ◌&&◌, ◌||◌, None, length, get_or, map, zip, not, replicate, true, false, IfOk};
ghost use Rattle.std.specs.List.{list_any};
ghost use Rattle.cql_plain.specs.Internal.Paths as path;
ghost use Rattle.cql_plain.specs.Internal.Paths.{AreSteps};

use crate::paths::PathStep;
use cq_common::NoMemory;
use cql_values::walks::both;
use std::alloc::Global;

/// Returns the set of place 0 alone, among the places before and after `nodes` nodes.
pub(crate) fn only_first(alloc: Global, nodes: usize) -> Result<Vec<bool>, NoMemory>
    ensures { IfOk result (λ set. set.items ≡ true ∷ replicate nodes false) }
{
    let mut set = Vec::new(alloc);
    set.push(true)?;
    for _k in 0..nodes {
        set.push(false)?;
    }
    Ok(set)
}

/// Returns the places of a set if they count, else none.
pub(crate) fn where_counted(
    alloc: Global,
    counts: bool,
    set: &[bool],
) -> Result<Vec<bool>, NoMemory>
    ensures { IfOk result (λ same. same.items ≡ map (λ b. counts && b) set.now) }
{
    let mut same = Vec::with_capacity(alloc, set.len())?;
    for k in 0..set.len() {
        let there = both(counts, set[k]);
        same.push(there)?;
    }
    Ok(same)
}

/// Returns the places that are reached next. If ends count, those that are ends already are left out.
pub(crate) fn fresh(
    alloc: Global,
    counts: bool,
    next: &[bool],
    ends: &[bool],
) -> Result<Vec<bool>, NoMemory>
    requires { length ends.now ≡ length next.now }
    ensures { IfOk result (λ set. set.items ≡ map (λ b. b.0 && not (counts && b.1)) (zip next.now ends.now)) }
{
    let mut set = Vec::with_capacity(alloc, next.len())?;
    for k in 0..next.len() {
        let there = both(next[k], !both(counts, ends[k]));
        set.push(there)?;
    }
    Ok(set)
}

/// Returns the ends and, if they count, the places that are reached next.
pub(crate) fn with_next(
    alloc: Global,
    counts: bool,
    next: &[bool],
    ends: &[bool],
) -> Result<Vec<bool>, NoMemory>
    requires { length ends.now ≡ length next.now }
    ensures { IfOk result (λ set. set.items ≡ map (λ b. b.1 || (counts && b.0)) (zip next.now ends.now)) }
{
    let mut set = Vec::with_capacity(alloc, next.len())?;
    for k in 0..next.len() {
        let there = either(ends[k], both(counts, next[k]));
        set.push(there)?;
    }
    Ok(set)
}

fn either(a: bool, b: bool) -> bool
    ensures { result ≡ (a || b) }
{
    a || b
}

/// Returns true if a set has some place.
pub(crate) fn has_some(set: &[bool]) -> bool
    ensures { result ≡ list_any (λ there. there) set.now }
{
    set.iter().any(|there| *there)
}

/// Returns true if the place before a node is in a set.
pub(crate) fn comes_from(set: &[bool], steps: &[Option<PathStep>], k: u32) -> bool
    requires node { k < length steps.now }
    requires steps { AreSteps steps.now }
    requires places { length set.now ≡ length steps.now + 1 }
    ensures { result ≡ path.comes_from set.now (get_or steps.now k None) }
{
    match steps[k as usize] {
        Some(reached) => set[reached.before as usize],
        None => false,
    }
}
