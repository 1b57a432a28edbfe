//! A plan of a query.
ghost use Rattle.std.specs.Prelude.{◌≡◌, true};
ghost use Rattle.cql_plan.specs.Replacements.{HaveSameHits};
ghost use Rattle.cql_syntax.specs.Flat.{flat_query};
ghost use Rattle.cql_syntax.specs.Same.{same_filters};
ghost use Rattle.cql_syntax.specs.TreeOf.{filters_tree, query_tree};

pub mod making;

use cq_common::Shared;
use cql_syntax::{FlatQuery, TypedQuery};

/// A query, its flat form, which gives the needs, and the form that is evaluated, made once for many games.
#[derive(Drop)]
pub struct Plan {
    query: TypedQuery,
    flat: FlatQuery,
    joined: FlatQuery,
    ghost items: { same_filters (filters_tree flat.items) (flat_query (query_tree query.query)).items ≡ true },
    ghost variations: { flat.variations ≡ query.query.variations },
    ghost hits: { HaveSameHits (filters_tree flat.items) (filters_tree joined.items) },
    ghost searched: { joined.variations ≡ flat.variations },
}

impl Shared for Plan {}
