//! A family whose members have parts in common: these are evaluated once, and then the rest of each member.
ghost use Rattle.std.specs.Prelude.{◌≡◌, true, take, IfOk, IfSome, OnOk};
ghost use Rattle.cql_syntax.specs.Trees.{FilterTrees, filter_at, chain, any, with_filter};
ghost use Rattle.cql_syntax.specs.TreeOf.{filter_tree, filters_in, filters_tree, filter_trees};
ghost use Rattle.cql_syntax.specs.declared.leaves.Chain.TheVariants.{All};
ghost use Rattle.cql_syntax.specs.declared.leaves.Kind.TheVariants.{Position};
ghost use Rattle.cql_plan.specs.Replacements.{StandsFor, alone};
ghost use Rattle.cql_plan.specs.Internal.CommonParts.{AreCommon, AreDivided, AreLeft, IsRest, AreRests};

use crate::members::has_like;
use cq_common::NoMemory;
use cql_syntax::{Chain, Filter, Filters, Form, Kind};
use std::alloc::Global;

/// The parts of a member: those that each member has, and the rest.
#[derive(Drop)]
struct CommonAndRest {
    common: Filters,
    rest: Filters,
}

/// A filter that holds if some member holds.
pub(crate) fn any_of(alloc: Global, at: u32, members: Filters) -> Result<Filter, NoMemory>
    ensures { IfOk result (λ g. StandsFor (filter_at at (any Position (filters_tree members))) (filter_tree g)) }
{
    match lifted(alloc, at, &members)? {
        Some(filter) => Ok(filter),
        None => Ok(Filter {
            at,
            form: Form::Any(Kind::Position, members),
        }),
    }
}

// The common parts and then the rests, if the members have parts in common; else `None`.
fn lifted(alloc: Global, at: u32, members: &Filters) -> Result<Option<Filter>, NoMemory>
    ensures { IfOk result (λ found. IfSome found (λ g.
        StandsFor (filter_at at (any Position (filters_tree members.now))) (filter_tree g))) }
{
    let filters = members.as_slice();
    if filters.len() < 2 {
        return Ok(None);
    }
    let first = &filters[0];
    match &first.form {
        Form::Chain(Chain::All, parts) => {
            let divided = divide(alloc, parts, members)?;
            before_rests(alloc, at, members, divided)
        }
        _ => Ok(None),
    }
}

// Divides the parts of a member.
fn divide(alloc: Global, parts: &Filters, members: &Filters) -> Result<CommonAndRest, NoMemory>
    ensures parts { IfOk result (λ d. AreDivided (filters_tree parts.now) (filters_tree d.common) (filters_tree d.rest)) }
    ensures common { IfOk result (λ d. AreCommon (filters_tree members.now) (filters_tree d.common)) }
{
    let common = Filters::new(alloc);
    let rest = Filters::new(alloc);
    let mut divided = CommonAndRest { common, rest };
    for part in parts.as_slice() {
        put(alloc, part, members, &mut divided)?;
    }
    Ok(divided)
}

fn put(
    alloc: Global,
    part: &Filter,
    members: &Filters,
    to: &mut CommonAndRest,
) -> Result<(), NoMemory>
    ensures parts { OnOk result ((parts : FilterTrees) → AreDivided parts (filters_tree to.old.common) (filters_tree to.old.rest)
        → AreDivided (with_filter parts (filter_tree part.now)) (filters_tree to.new.common) (filters_tree to.new.rest)) }
    ensures common { OnOk result (AreCommon (filters_tree members.now) (filters_tree to.old.common)
        → AreCommon (filters_tree members.now) (filters_tree to.new.common)) }
{
    if all_have(members, part) {
        return add_copy(alloc, part, &mut to.common);
    }
    add_copy(alloc, part, &mut to.rest)
}

fn add_copy(alloc: Global, filter: &Filter, to: &mut Filters) -> Result<(), NoMemory>
    ensures { OnOk result (filters_tree to.new ≡ with_filter (filters_tree to.old) (filter_tree filter.now)) }
{
    to.push(filter.copy(alloc)?)?;
    Ok(())
}

// Returns true only if each member has the part.
fn all_have(members: &Filters, part: &Filter) -> bool
    ensures { result ≡ true → AreCommon (filters_tree members.now) (alone (filter_tree part.now)) }
{
    for member in members.as_slice() {
        if !has_part(member, part) {
            return false;
        }
    }
    true
}

fn has_part(member: &Filter, part: &Filter) -> bool
    ensures { result ≡ true → AreCommon (alone (filter_tree member.now)) (alone (filter_tree part.now)) }
{
    match &member.form {
        Form::Chain(Chain::All, parts) => has_like(parts, part),
        _ => false,
    }
}

// The common parts and any of the rests, if there are common parts.
fn before_rests(
    alloc: Global,
    at: u32,
    members: &Filters,
    first: CommonAndRest,
) -> Result<Option<Filter>, NoMemory>
    requires common { AreCommon (filters_tree members.now) (filters_tree first.common) }
    requires first { AreRests (filters_tree first.common) (filter_trees (take 1 (filters_in members.now)))
        (alone (filter_at at (chain All (filters_tree first.rest)))) }
    ensures { IfOk result (λ found. IfSome found (λ g.
        StandsFor (filter_at at (any Position (filters_tree members.now))) (filter_tree g))) }
{
    let mut parts = first.common;
    if parts.is_empty() {
        return Ok(None);
    }
    let begun = Filter {
        at,
        form: Form::Chain(Chain::All, first.rest),
    };
    let rests = rests_of(alloc, members, &parts, begun)?;
    let rest = Filter {
        at,
        form: Form::Any(Kind::Position, rests),
    };
    parts.push(rest)?;
    Ok(Some(Filter {
        at,
        form: Form::Chain(Chain::All, parts),
    }))
}

// The rest of each member, given that of the first.
fn rests_of(
    alloc: Global,
    members: &Filters,
    common: &Filters,
    first: Filter,
) -> Result<Filters, NoMemory>
    requires { AreRests (filters_tree common.now) (filter_trees (take 1 (filters_in members.now))) (alone (filter_tree first)) }
    ensures { IfOk result (λ rests. AreRests (filters_tree common.now) (filters_tree members.now) (filters_tree rests)) }
{
    let mut rests = only(alloc, first)?;
    let filters = members.as_slice();
    for k in 1..filters.len() {
        rests.push(rest_of(alloc, &filters[k], common)?)?;
    }
    Ok(rests)
}

fn only(alloc: Global, filter: Filter) -> Result<Filters, NoMemory>
    ensures { IfOk result (λ fs. filters_tree fs ≡ alone (filter_tree filter)) }
{
    let mut filters = Filters::new(alloc);
    filters.push(filter)?;
    Ok(filters)
}

fn rest_of(alloc: Global, member: &Filter, common: &Filters) -> Result<Filter, NoMemory>
    ensures { IfOk result (λ g. IsRest (filters_tree common.now) (filter_tree member.now) (filter_tree g)) }
{
    match &member.form {
        Form::Chain(Chain::All, parts) => {
            let rest = left_of(alloc, parts, common)?;
            Ok(Filter {
                at: member.at,
                form: Form::Chain(Chain::All, rest),
            })
        }
        _ => {
            let copy = member.copy(alloc)?;
            Ok(copy)
        }
    }
}

// The parts that are none of the common ones.
fn left_of(alloc: Global, parts: &Filters, common: &Filters) -> Result<Filters, NoMemory>
    ensures { IfOk result (λ rest. AreLeft (filters_tree common.now) (filters_tree parts.now) (filters_tree rest)) }
{
    let mut rest = Filters::new(alloc);
    for part in parts.as_slice() {
        keep(alloc, part, common, &mut rest)?;
    }
    Ok(rest)
}

fn keep(alloc: Global, part: &Filter, common: &Filters, to: &mut Filters) -> Result<(), NoMemory>
    ensures { OnOk result ((parts : FilterTrees) → AreLeft (filters_tree common.now) parts (filters_tree to.old)
        → AreLeft (filters_tree common.now) (with_filter parts (filter_tree part.now)) (filters_tree to.new)) }
{
    if has_like(common, part) {
        return Ok(());
    }
    add_copy(alloc, part, to)
}
