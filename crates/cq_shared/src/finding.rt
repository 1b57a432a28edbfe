//! The parts of filters.
ghost use Rattle.std.specs.Prelude.{◌≡◌, ◌++◌, ◌≤◌, map, OnOk};
ghost use Rattle.cql_syntax.specs.TreeOf.{filter_tree, filters_tree};
ghost use Rattle.cq_shared.specs.Parts.{parts_of, all_parts, top_parts, item_parts, top_sorts, item_sorts};

use cq_common::NoMemory;
use cql_syntax::{Chain, Filter, Filters, Form};
use std::alloc::Global;

/// Adds copies of the parts of the top items that are no sort items.
pub(crate) fn add_top(alloc: Global, items: &Filters, to: &mut Vec<Filter>) -> Result<(), NoMemory>
    ensures { OnOk result (map filter_tree to.new.items ≡ map filter_tree to.old.items ++ top_parts (filters_tree items.now)) }
{
    for item in items.as_slice() {
        add_item(alloc, item, to)?;
    }
    Ok(())
}

#[tactic(auto, unfolding(crate::specs::Parts::item_parts, crate::specs::Parts::parts_of))]
fn add_item(alloc: Global, item: &Filter, to: &mut Vec<Filter>) -> Result<(), NoMemory>
    ensures { OnOk result (map filter_tree to.new.items ≡ map filter_tree to.old.items ++ item_parts (filter_tree item.now)) }
{
    match &item.form {
        Form::Sort(..) | Form::Comment(_) => Ok(()),
        _ => add_parts(alloc, item, to),
    }
}

// Adds copies of the parts of a filter.
#[cycle(parts)]
#[tactic(auto, unfolding(crate::specs::Parts::parts_of))]
fn add_parts(alloc: Global, f: &Filter, to: &mut Vec<Filter>) -> Result<(), NoMemory>
    ensures { OnOk result (map filter_tree to.new.items ≡ map filter_tree to.old.items ++ parts_of (filter_tree f.now)) }
{
    match &f.form {
        Form::Chain(Chain::And | Chain::All, parts) => add_all(alloc, parts, to),
        _ => {
            to.push(f.copy(alloc)?)?;
            Ok(())
        }
    }
}

#[cycle(parts)]
#[tactic(auto, unfolding(crate::specs::Parts::parts_of))]
fn add_all(alloc: Global, fs: &Filters, to: &mut Vec<Filter>) -> Result<(), NoMemory>
    ensures { OnOk result (map filter_tree to.new.items ≡ map filter_tree to.old.items ++ all_parts (filters_tree fs.now)) }
{
    for f in fs.as_slice() {
        add_parts(alloc, f, to)?;
    }
    Ok(())
}

/// Adds copies of the sort items.
pub(crate) fn add_sorts(
    alloc: Global,
    items: &Filters,
    to: &mut Vec<Filter>,
) -> Result<(), NoMemory>
    ensures { OnOk result (map filter_tree to.new.items ≡ map filter_tree to.old.items ++ top_sorts (filters_tree items.now)) }
{
    for item in items.as_slice() {
        add_sort(alloc, item, to)?;
    }
    Ok(())
}

#[tactic(auto, unfolding(crate::specs::Parts::item_sorts))]
fn add_sort(alloc: Global, item: &Filter, to: &mut Vec<Filter>) -> Result<(), NoMemory>
    ensures { OnOk result (map filter_tree to.new.items ≡ map filter_tree to.old.items ++ item_sorts (filter_tree item.now)) }
{
    match &item.form {
        Form::Sort(..) => {
            to.push(item.copy(alloc)?)?;
            Ok(())
        }
        _ => Ok(()),
    }
}

/// The number of parts of some filters, on top of `before`, for the size of a table.
pub(crate) fn count_top(items: &Filters, before: usize) -> usize
    ensures { before ≤ result }
{
    let mut count = before;
    for item in items.as_slice() {
        count = count_parts(item, count);
    }
    count
}

#[cycle(counts)]
fn count_parts(f: &Filter, before: usize) -> usize
    ensures { before ≤ result }
{
    match &f.form {
        Form::Chain(Chain::And | Chain::All, parts) => count_all(parts, before),
        _ => before.saturating_add(1),
    }
}

#[cycle(counts)]
fn count_all(fs: &Filters, before: usize) -> usize
    ensures { before ≤ result }
{
    let mut count = before;
    for f in fs.as_slice() {
        count = count_parts(f, count);
    }
    count
}
