//! A filter by itself.
ghost use Rattle.std.specs.Prelude.{◌≡◌, true};
ghost use Rattle.cql_plan.specs.Replacements.{HaveSameHits};
ghost use Rattle.cql_syntax.specs.TreeOf.{filters_tree};
ghost use Rattle.cq_shared.specs.Parts.{is_single};

pub(crate) mod reading;

use cql_syntax::FlatQuery;

/// A filter as the only item of a flat query, and the form in which it is evaluated if it is no sort item.
#[derive(Drop)]
pub struct StandaloneFilter {
    pub query: FlatQuery,
    pub joined: FlatQuery,
    pub ghost one: { is_single (filters_tree query.items) ≡ true },
    pub ghost same: { HaveSameHits (filters_tree query.items) (filters_tree joined.items) },
    pub ghost searched: { joined.variations ≡ query.variations },
}
