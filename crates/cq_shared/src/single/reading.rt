//! Single filters: their making, their contents, their equality.
ghost use Rattle.std.specs.Prelude.{◌≡◌, ◌<◌, true, IfOk};
ghost use Rattle.cql_syntax.specs.Leaves as leaves;
ghost use Rattle.cql_syntax.specs.TreeOf.{filter_tree, filters_tree};
ghost use Rattle.cq_shared.specs.StandaloneFilters.{stands_alone};
ghost use Rattle.cq_shared.specs.Parts.{first_of, same_part};
ghost use Rattle.cq_shared.specs.PartTables.{bucket_of};
ghost use Rattle.cq_shared.specs.Singles.{part_tree, shown};

use crate::single::StandaloneFilter;
use crate::table::hash_of;
use cq_common::NoMemory;
use cql_plan::join;
use cql_rewrite::{flat_text, same_unplaced};
use cql_syntax::{Filter, Filters, FlatQuery};
use std::alloc::Global;

/// A copy of a filter by itself.
pub(crate) fn single_of(
    alloc: Global,
    filter: &Filter,
    variations: bool,
) -> Result<StandaloneFilter, NoMemory>
    requires { stands_alone (filter_tree filter.now) ≡ true }
    ensures { IfOk result (λ s. shown s ≡ part_tree variations (filter_tree filter.now)) }
{
    let copied = filter.copy(alloc)?;
    let mut items = Filters::new(alloc);
    items.push(copied)?;
    let query = FlatQuery { variations, items };
    let joined = join(alloc, &query)?;
    Ok(StandaloneFilter { query, joined })
}

/// The filter.
pub(crate) fn filter_of(single: &StandaloneFilter) -> &Filter
    ensures { filter_tree result.now ≡ first_of (filters_tree single.now.query.items) }
{
    let items = single.query.items.as_slice();
    &items[0]
}

/// Returns true if two single filters are the same part.
pub(crate) fn same_single(a: &StandaloneFilter, b: &StandaloneFilter) -> bool
    ensures { result ≡ same_part (shown a.now) (shown b.now) }
{
    same_flag(a.query.variations, b.query.variations) && same_unplaced(filter_of(a), filter_of(b))
}

fn same_flag(a: bool, b: bool) -> bool
    ensures { result ≡ leaves.same_flag a b }
{
    if a { b } else { !b }
}

/// The place of a filter in a table of `many` places.
#[tactic(auto, unfolding(crate::specs::PartTables::bucket_of))]
pub(crate) fn place(
    alloc: Global,
    single: &StandaloneFilter,
    many: usize,
) -> Result<usize, NoMemory>
    requires { 0 < many }
    ensures value { IfOk result (λ at. at ≡ bucket_of many (shown single.now)) }
    ensures below { IfOk result (λ at. at < many) }
{
    let text = flat_text(alloc, &single.query)?;
    let mixed = hash_of(text.as_slice());
    Ok(mixed as usize % many)
}
