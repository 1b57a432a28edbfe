//! A part of queries, and a query's record of its own parts.
ghost use Rattle.std.specs.Prelude.{◌≡◌};
ghost use Rattle.cql_candidates.specs.Classes.{filter_class};
ghost use Rattle.cql_syntax.specs.TreeOf.{filters_tree};
ghost use Rattle.cq_shared.specs.Parts.{first_of};

use crate::single::StandaloneFilter;
use cql_plan::Plan;
use cql_syntax::Filter;

/// A part, its class, which is a guess at its cost, and the numbers of the queries that have it, each as often as the query has it.
#[derive(Drop)]
pub struct Part {
    pub single: StandaloneFilter,
    pub class: u32,
    pub owners: Vec<u32>,
    pub ghost class_is: { class ≡ filter_class (first_of (filters_tree single.query.items)) },
}

/// The filters of a query that are its parts, in their order, the number of those before its sort items, and its word `variations`.
#[derive(Drop)]
pub(crate) struct QueryParts {
    pub(crate) plan: Plan,
    pub(crate) filters: Vec<Filter>,
    pub(crate) sorts: usize,
    pub(crate) variations: bool,
}

/// A query, with the numbers of its parts in their order, and the number of those before its sort items.
#[derive(Drop)]
pub struct PartOwner {
    pub(crate) plan: Plan,
    pub(crate) numbers: Vec<usize>,
    pub(crate) sorts: usize,
}
