//! A query that was checked.
ghost use Rattle.std.specs.Prelude.{◌≡◌, None, false};
ghost use Rattle.cql_syntax.specs.TreeFaults.{tree_fault, has_any};
ghost use Rattle.cql_syntax.specs.TreeOf.{query_tree};

use crate::tree::Query;
use cq_common::Shared;

/// A query whose tree has no fault, and no `Any`, which no query text has.
#[derive(Drop)]
pub struct TypedQuery {
    pub query: Query,
    pub ghost accepted: { tree_fault (query_tree query) ≡ None },
    pub ghost written: { has_any (query_tree query) ≡ false },
}

impl Shared for TypedQuery {}
