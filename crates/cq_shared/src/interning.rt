//! The table of parts, which has each once.
ghost use Rattle.std.specs.Prelude.{◌≡◌, ℕ, ◌<◌, ◌++◌, ◌∷◌, ◌&&◌, ◌||◌, ◌==◌, [], true, false, length, map, IfOk, OnOk, MatchOption};
ghost use Rattle.std.specs.List.{list_all, list_any};
ghost use Rattle.cql_syntax.specs.TreeOf.{filter_tree};
ghost use Rattle.cq_shared.specs.StandaloneFilters.{stands_alone};
ghost use Rattle.cq_shared.specs.Interning.{all_shown, is_owned, with_part, with_parts};
ghost use Rattle.cq_shared.specs.Parts.{parts_with, same_part, is_at, are_at, Keeps};
ghost use Rattle.cq_shared.specs.PartTables.{IsTable, bucket_of, is_among};
ghost use Rattle.cq_shared.specs.Singles.{shown};

use crate::part::Part;
use crate::single::StandaloneFilter;
use crate::single::reading::{filter_of, place, same_single, single_of};
use crate::table::{PartBucket, put};
use cq_common::NoMemory;
use cql_candidates::order::class_of;
use cql_syntax::Filter;
use std::alloc::Global;

/// Adds the parts of a query and returns their numbers, in order. If there is a part already, the query is added to its owners.
pub(crate) fn add_all(
    alloc: Global,
    filters: &[Filter],
    variations: bool,
    owner: u32,
    parts: &mut Vec<Part>,
    places: &mut Vec<PartBucket>,
) -> Result<Vec<usize>, NoMemory>
    requires alone { list_all stands_alone (map filter_tree filters.now) ≡ true }
    requires table { IsTable places.old.items (all_shown parts.old.items) }
    ensures table { OnOk result (IsTable places.new.items (all_shown parts.new.items)) }
    ensures parts { OnOk result (all_shown parts.new.items
        ≡ with_parts (all_shown parts.old.items) (parts_with variations (map filter_tree filters.now))) }
    ensures kept { OnOk result (Keeps (all_shown parts.old.items) (all_shown parts.new.items)) }
    ensures numbers { IfOk result (λ ks. are_at (all_shown parts.new.items) ks.items (parts_with variations (map filter_tree filters.now))
        ≡ true) }
    ensures asked { IfOk result (λ ks. (k q : ℕ) → is_owned parts.new.items k q
        ≡ (is_owned parts.old.items k q || (is_among k ks.items && (owner == q)))) }
{
    let mut numbers = Vec::new(alloc);
    for filter in filters {
        let single = single_of(alloc, filter, variations)?;
        let number = add(alloc, parts, places, single, owner)?;
        numbers.push(number)?;
    }
    Ok(numbers)
}

// Adds a part or, if there is one that is the same, the query to its owners, and returns its number.
fn add(
    alloc: Global,
    parts: &mut Vec<Part>,
    places: &mut Vec<PartBucket>,
    single: StandaloneFilter,
    owner: u32,
) -> Result<usize, NoMemory>
    requires table { IsTable places.old.items (all_shown parts.old.items) }
    ensures table { OnOk result (IsTable places.new.items (all_shown parts.new.items)) }
    ensures parts { OnOk result (all_shown parts.new.items ≡ with_part (all_shown parts.old.items) (shown single)) }
    ensures number { IfOk result (λ k. is_at (all_shown parts.new.items) k (shown single) ≡ true) }
    ensures asked { IfOk result (λ k. (j q : ℕ) → is_owned parts.new.items j q
        ≡ (is_owned parts.old.items j q || ((k == j) && (owner == q)))) }
{
    let at = place(alloc, &single, places.len())?;
    match find(parts, places, at, &single) {
        Some(number) => {
            ask(parts, number, owner)?;
            Ok(number)
        }
        None => add_new(alloc, parts, places, at, single, owner),
    }
}

// The number of the part that is the same, among those at a place.
fn find(
    parts: &[Part],
    places: &[PartBucket],
    at: usize,
    single: &StandaloneFilter,
) -> Option<usize>
    requires table { IsTable places.now (all_shown parts.now) }
    requires at { at ≡ bucket_of (length places.now) (shown single.now) }
    requires below { at < length places.now }
    ensures { MatchOption result (list_any (λ p. same_part p (shown single.now)) (all_shown parts.now) ≡ false)
        (λ k. (k < length parts.now) × (is_at (all_shown parts.now) k (shown single.now) ≡ true)) }
{
    for number in places[at].numbers.as_slice() {
        if is_same(parts, *number, single) {
            return Some(*number);
        }
    }
    None
}

fn is_same(parts: &[Part], number: usize, single: &StandaloneFilter) -> bool
    ensures { result ≡ is_at (all_shown parts.now) number (shown single.now) }
{
    if number >= parts.len() {
        return false;
    }
    same_single(&parts[number].single, single)
}

// Adds a query to the owners of a part.
fn ask(parts: &mut Vec<Part>, number: usize, owner: u32) -> Result<(), NoMemory>
    requires { number < length parts.old.items }
    ensures parts { OnOk result (all_shown parts.new.items ≡ all_shown parts.old.items) }
    ensures asked { OnOk result ((j q : ℕ) → is_owned parts.new.items j q
        ≡ (is_owned parts.old.items j q || ((number == j) && (owner == q)))) }
{
    let part = &mut parts[number];
    part.owners.push(owner)?;
    Ok(())
}

// Adds a part that is not in the table yet.
fn add_new(
    alloc: Global,
    parts: &mut Vec<Part>,
    places: &mut Vec<PartBucket>,
    at: usize,
    single: StandaloneFilter,
    owner: u32,
) -> Result<usize, NoMemory>
    requires table { IsTable places.old.items (all_shown parts.old.items) }
    requires at { at ≡ bucket_of (length places.old.items) (shown single) }
    requires below { at < length places.old.items }
    ensures table { OnOk result (IsTable places.new.items (all_shown parts.new.items)) }
    ensures parts { OnOk result (all_shown parts.new.items ≡ all_shown parts.old.items ++ shown single ∷ []) }
    ensures number { IfOk result (λ k. is_at (all_shown parts.new.items) k (shown single) ≡ true) }
    ensures asked { IfOk result (λ k. (j q : ℕ) → is_owned parts.new.items j q
        ≡ (is_owned parts.old.items j q || ((k == j) && (owner == q)))) }
{
    let number = parts.len();
    let class = class_of(filter_of(&single));
    let mut owners = Vec::new(alloc);
    owners.push(owner)?;
    put(places, at, number)?;
    parts.push(Part {
        single,
        class,
        owners,
    })?;
    Ok(number)
}
