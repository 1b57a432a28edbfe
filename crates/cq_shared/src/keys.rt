//! The keys of a query over the nodes that are left to it.
ghost use Rattle.std.specs.Prelude.{◌≡◌, ◌<◌, ◌≢◌, [], length, map, drop, get_or, true, None, Some, is_some, All, IfOk};
ghost use Rattle.cql_syntax.specs.TreeOf.{filter_tree};
ghost use Rattle.cq_shared.specs.Internal.Reading.{is_least, row_key, row_keys, HaveNumbers};
ghost use Rattle.cq_shared.specs.declared.nodes.KeyColumn.{KeyColumn as RowOf};

use crate::nodes::KeyColumn;
use crate::part::{Part, PartOwner};
use crate::single::reading::filter_of;
use cq_common::NoMemory;
use cql_plan::key_over;
use cql_syntax::{Filter, Form};
use std::alloc::Global;

/// One key for each sort item over the hits, the first item first; over no nodes there are none.
pub(crate) fn keys(
    alloc: Global,
    owner: &PartOwner,
    parts: &[Part],
    rows: &[KeyColumn],
    nodes: &[u32],
) -> Result<Vec<i64>, NoMemory>
    requires { HaveNumbers parts.now rows.now nodes.now (drop owner.now.sorts owner.now.numbers.items) }
    ensures keys { IfOk result (λ ks. nodes.now ≢ []
        → map Some ks.items ≡ row_keys parts.now rows.now nodes.now (drop owner.now.sorts owner.now.numbers.items)) }
    ensures none { IfOk result (λ ks. nodes.now ≡ [] → ks.items ≡ []) }
{
    let mut keys = Vec::new(alloc);
    if nodes.is_empty() {
        return Ok(keys);
    }
    for i in owner.sorts..owner.numbers.len() {
        let number = owner.numbers[i];
        let key = key_of(parts, rows, number, nodes);
        keys.push(key)?;
    }
    Ok(keys)
}

// The key of a part over some nodes, by its row.
fn key_of(parts: &[Part], rows: &[KeyColumn], number: usize, nodes: &[u32]) -> i64
    requires some { 0 < length nodes.now }
    requires part { number < length parts.now }
    requires row { number < length rows.now }
    requires values { (r : RowOf) → r ≡ get_or rows.now number r
        → All (λ n. is_some (get_or r.numbers.items n None) ≡ true) nodes.now }
    ensures { Some result ≡ row_key parts.now rows.now nodes.now number }
{
    let part = &parts[number];
    let row = &rows[number];
    let least = is_least(filter_of(&part.single));
    key_over(row.numbers.as_slice(), least, nodes)
}

#[tactic(auto, unfolding(crate::specs::Internal::Reading::is_least))]
fn is_least(filter: &Filter) -> bool
    ensures { result ≡ is_least (filter_tree filter.now) }
{
    match &filter.form {
        Form::Sort(least, ..) => *least,
        _ => false,
    }
}
