//! The members of a family, each once.
ghost use Rattle.std.specs.Prelude.{◌≡◌, true, IfOk, OnOk};
ghost use Rattle.cql_syntax.specs.Trees.{no_filters};
ghost use Rattle.cql_syntax.specs.TreeOf.{filter_tree, filters_tree};
ghost use Rattle.cql_syntax.specs.declared.leaves.Kind.{Kind};
ghost use Rattle.cql_plan.specs.Replacements as spec;
ghost use Rattle.cql_plan.specs.Replacements.{Gathers, alone};

use crate::hashing::key_of;
use cq_common::NoMemory;
use cql_rewrite::same_unplaced;
use cql_syntax::{Filter, Filters};
use std::alloc::Global;

/// The number of places of a table, a prime, so that every bit of a key counts.
const BUCKETS: u64 = 1021;

/// Members, and the numbers of those at each place by their keys. The places save time, and no result depends on them.
#[derive(Drop)]
pub(crate) struct Members {
    pub(crate) filters: Filters,
    places: Vec<MemberBucket>,
}

/// The numbers of the members of one place.
#[derive(Drop)]
struct MemberBucket {
    numbers: Vec<usize>,
}

/// The empty table of members.
pub(crate) fn no_members(alloc: Global) -> Result<Members, NoMemory>
    ensures { IfOk result (λ m. filters_tree m.filters ≡ no_filters) }
{
    let mut places = Vec::new(alloc);
    for _place in 0..BUCKETS {
        places.push(MemberBucket {
            numbers: Vec::new(alloc),
        })?;
    }
    Ok(Members {
        filters: Filters::new(alloc),
        places,
    })
}

/// Adds a member, unless there is one that is the same but for its places.
pub(crate) fn add(to: &mut Members, member: Filter) -> Result<(), NoMemory>
    ensures { OnOk result ((kind : Kind) →
        Gathers kind (filters_tree to.old.filters) (filters_tree to.new.filters) (alone (filter_tree member))) }
{
    let at = (key_of(&member) % BUCKETS) as usize;
    if is_known(to, at, &member) {
        drop(member);
        return Ok(());
    }
    let number = to.filters.len();
    to.filters.push(member)?;
    note(&mut to.places, at, number)?;
    Ok(())
}

// Returns true only if there is a member that is the same but for its places. Those with its key's place alone are looked at.
fn is_known(members: &Members, at: usize, member: &Filter) -> bool
    ensures { result ≡ true → spec.has_like (filters_tree members.now.filters) (filter_tree member.now) ≡ true }
{
    if at >= members.places.len() {
        return false;
    }
    for number in members.places[at].numbers.as_slice() {
        if is_like(&members.filters, *number, member) {
            return true;
        }
    }
    false
}

/// Returns true only if there is a filter that is the same but for its places.
pub(crate) fn has_like(filters: &Filters, member: &Filter) -> bool
    ensures { result ≡ true → spec.has_like (filters_tree filters.now) (filter_tree member.now) ≡ true }
{
    for number in 0..filters.len() {
        if is_like(filters, number, member) {
            return true;
        }
    }
    false
}

fn is_like(filters: &Filters, number: usize, member: &Filter) -> bool
    ensures { result ≡ true → spec.has_like (filters_tree filters.now) (filter_tree member.now) ≡ true }
{
    let filters = filters.as_slice();
    if number >= filters.len() {
        return false;
    }
    same_unplaced(&filters[number], member)
}

// Adds the number of a member at its place.
fn note(places: &mut Vec<MemberBucket>, at: usize, number: usize) -> Result<(), NoMemory> {
    if at >= places.len() {
        return Ok(());
    }
    let place = &mut places[at];
    place.numbers.push(number)?;
    Ok(())
}
