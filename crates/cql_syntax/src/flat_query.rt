//! A query without families.
ghost use Rattle.std.specs.Prelude.{◌≡◌, true, false};
ghost use Rattle.cql_syntax.specs.FlatItems.{has_family, kinds_agree, break_no_rule};
ghost use Rattle.cql_syntax.specs.TreeOf.{filters_tree};

use crate::tree::Filters;
use cq_common::Shared;

/// A query whose families are written out. Its items have no family, the parts of each `Any` are of the kind that it names, and no
/// filter breaks a rule. The weight alone is not limited.
#[derive(Drop)]
pub struct FlatQuery {
    /// True if all nodes of a game are searched, and not the main line alone.
    pub variations: bool,
    pub items: Filters,
    pub ghost flat: { has_family (filters_tree items) ≡ false },
    pub ghost kinds: { kinds_agree (filters_tree items) ≡ true },
    pub ghost accepted: { break_no_rule (filters_tree items) ≡ true },
}

impl Shared for FlatQuery {}
