//! The making of a plan of several queries, and its contents.
ghost use Rattle.std.specs.Prelude.{◌≡◌, ℕ, ◌+◌, ◌<◌, ◌≤◌, ◌==◌, ◌&&◌, ◌||◌, false, true, length, map, get_or, IfOk, OnOk};
ghost use Rattle.std.specs.List.{list_all};
ghost use Rattle.cql_plan.specs.Plans.{query_of};
ghost use Rattle.cql_syntax.specs.Flat.{flat_query};
ghost use Rattle.cql_syntax.specs.TreeOf.{filter_tree, query_tree};
ghost use Rattle.cq_shared.specs.StandaloneFilters.{stands_alone};
ghost use Rattle.cq_shared.specs.PartOwners.{owner_query, IsOwner, AreOwners};
ghost use Rattle.cq_shared.specs.Interning.{all_shown, is_owned, with_parts};
ghost use Rattle.cq_shared.specs.Parts.{parts_in, parts_in_all, parts_with, top_parts, different, equal_parts, Keeps};
ghost use Rattle.cq_shared.specs.PartTables.{IsTable, is_among};
ghost use Rattle.cql_syntax.specs.QueryTrees.{trees_of};
ghost use Rattle.cq_shared.specs.Plans.{owners_of, each_part_of, queries_of, plan_parts};

use crate::finding::{add_sorts, add_top, count_top};
use crate::interning::add_all;
use crate::part::{Part, PartOwner, QueryParts};
use crate::plan::SharedPlan;
use crate::table::{PartBucket, empty_buckets};
use cq_common::NoMemory;
use cql_plan::Plan;
use cql_rewrite::expand;
use cql_syntax::TypedQuery;
use std::alloc::Global;

impl SharedPlan {
    /// The plan of 1 to 16 queries.
    ///
    /// Each part has a place in a table by its text, and is compared with the parts at this place alone. These are few, unless the texts
    /// were chosen to share a place.
    ///
    /// # Errors
    ///
    /// `NoMemory` if out of memory.
    pub fn make(alloc: Global, queries: &[TypedQuery]) -> Result<SharedPlan, NoMemory>
        requires some { 0 < length queries.now }
        requires few { length queries.now ≤ 16 }
        ensures { IfOk result (λ plan. trees_of (queries_of plan) ≡ trees_of queries.now) }
    {
        let mut places = empty_buckets(alloc, count_all(queries))?;
        let mut parts = Vec::new(alloc);
        let mut owners = Vec::new(alloc);
        for q in 0..queries.len() {
            let owner = owner_of(alloc, &queries[q], q as u32, &mut parts, &mut places)?;
            owners.push(owner)?;
        }
        if parts.len() > u32::MAX as usize {
            return Err(NoMemory);
        }
        let plan = SharedPlan { owners, parts };
        Ok(plan)
    }

    /// The number of queries that it was made from.
    pub fn len(&self) -> u32
        ensures { result ≡ length (queries_of self.now) }
    {
        self.owners.len() as u32
    }

    /// The query with a number, of those that it was made from.
    pub fn query(&self, query: u32) -> &TypedQuery
        requires { query < length (queries_of self.now) }
        ensures { result.now ≡ get_or (queries_of self.now) query result.now }
    {
        self.owners[query as usize].plan.query()
    }

    /// The number of different parts of the queries.
    pub fn parts(&self) -> u32
        ensures { result ≡ length (plan_parts (queries_of self.now)) }
    {
        self.parts.len() as u32
    }

    /// The queries, each with the numbers of its parts.
    pub fn owners(&self) -> &[PartOwner]
        ensures value { result.now ≡ owners_of self.now }
        ensures parts { AreOwners (each_part_of self.now) (owners_of self.now) }
    {
        self.owners.as_slice()
    }

    /// The different parts, by their numbers.
    pub fn each_part(&self) -> &[Part]
        ensures value { result.now ≡ each_part_of self.now }
        ensures different { equal_parts (all_shown (each_part_of self.now))
            (different (parts_in_all (map (λ a. owner_query a) (owners_of self.now)))) ≡ true }
    {
        self.parts.as_slice()
    }
}

// The number of parts of the queries, and one more.
fn count_all(queries: &[TypedQuery]) -> usize
    ensures { 0 < result }
{
    let mut count = 1;
    for query in queries {
        count = count_top(&query.query.items, count);
    }
    count
}

// A query, whose parts are added to those of the queries before it.
fn owner_of(
    alloc: Global,
    query: &TypedQuery,
    number: u32,
    parts: &mut Vec<Part>,
    places: &mut Vec<PartBucket>,
) -> Result<PartOwner, NoMemory>
    requires table { IsTable places.old.items (all_shown parts.old.items) }
    requires fresh { (k : ℕ) → is_owned parts.old.items k number ≡ false }
    ensures table { OnOk result (IsTable places.new.items (all_shown parts.new.items)) }
    ensures parts { OnOk result (all_shown parts.new.items
        ≡ with_parts (all_shown parts.old.items) (parts_in (query_tree query.now.query))) }
    ensures kept { OnOk result (Keeps (all_shown parts.old.items) (all_shown parts.new.items)) }
    ensures query { IfOk result (λ a. owner_query a ≡ query_tree query.now.query) }
    ensures owner { IfOk result (λ a. IsOwner parts.new.items number a) }
    ensures asked { IfOk result (λ a. (k q : ℕ) → is_owned parts.new.items k q
        ≡ (is_owned parts.old.items k q || (is_among k a.numbers.items && (number == q)))) }
{
    let parts_of_query = parts_of_query(alloc, query)?;
    let filters = parts_of_query.filters.as_slice();
    let numbers = add_all(
        alloc,
        filters,
        parts_of_query.variations,
        number,
        parts,
        places,
    )?;
    Ok(PartOwner {
        plan: parts_of_query.plan,
        numbers,
        sorts: parts_of_query.sorts,
    })
}

// The parts of a query.
fn parts_of_query(alloc: Global, query: &TypedQuery) -> Result<QueryParts, NoMemory>
    ensures query { IfOk result (λ l. query_tree (query_of l.plan).query ≡ query_tree query.now.query) }
    ensures parts { IfOk result (λ l. parts_with l.variations (map filter_tree l.filters.items)
        ≡ parts_in (query_tree query.now.query)) }
    ensures alone { IfOk result (λ l. list_all stands_alone (map filter_tree l.filters.items) ≡ true) }
    ensures sorts { IfOk result (λ l. l.sorts ≡ length (top_parts (flat_query (query_tree query.now.query)).items)) }
{
    let flat = expand(alloc, query)?;
    let mut filters = Vec::new(alloc);
    add_top(alloc, &flat.items, &mut filters)?;
    let sorts = filters.len();
    add_sorts(alloc, &flat.items, &mut filters)?;
    let variations = flat.variations;
    drop(flat);
    let plan = Plan::make(alloc, query)?;
    Ok(QueryParts {
        plan,
        filters,
        sorts,
        variations,
    })
}
