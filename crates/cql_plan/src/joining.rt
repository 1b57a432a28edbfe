//! The form of a query that is evaluated: a family within families has each member once.
ghost use Rattle.std.specs.Prelude.{◌≡◌, IfOk, OnOk};
ghost use Rattle.cql_syntax.specs.Trees.{no_filters};
ghost use Rattle.cql_syntax.specs.TreeOf.{filter_tree, filters_tree};
ghost use Rattle.cql_plan.specs.Replacements.{StandsFor, AllStandFor, Gathers, HaveSameHits, alone};

use crate::lifting::any_of;
use crate::members::{Members, add, no_members};
use cq_common::NoMemory;
use cql_syntax::{Filter, Filters, FlatQuery, Form, Kind};
use std::alloc::Global;

/// A query with the same hits and keys, in which a family within families is one of their members, each once up to places.
///
/// # Errors
///
/// `NoMemory` if out of memory.
pub fn join(alloc: Global, query: &FlatQuery) -> Result<FlatQuery, NoMemory>
    ensures variations { IfOk result (λ q. q.variations ≡ query.now.variations) }
    ensures hits { IfOk result (λ q. HaveSameHits (filters_tree query.now.items) (filters_tree q.items)) }
{
    let items = joined_all(alloc, &query.items)?;
    Ok(FlatQuery {
        variations: query.variations,
        items,
    })
}

#[cycle(join)]
fn joined_all(alloc: Global, filters: &Filters) -> Result<Filters, NoMemory>
    ensures { IfOk result (λ gs. AllStandFor (filters_tree filters.now) (filters_tree gs)) }
{
    let mut made = Filters::new(alloc);
    for filter in filters.as_slice() {
        made.push(joined_one(alloc, filter)?)?;
    }
    Ok(made)
}

// A filter whose truth depends on its parts alone is rebuilt from joined parts. Every other filter is copied.
#[cycle(join)]
fn joined_one(alloc: Global, f: &Filter) -> Result<Filter, NoMemory>
    ensures { IfOk result (λ g. StandsFor (filter_tree f.now) (filter_tree g)) }
{
    match &f.form {
        Form::Unary(word, part) => {
            let part = joined_box(alloc, part)?;
            Ok(Filter {
                at: f.at,
                form: Form::Unary(*word, part),
            })
        }
        Form::Chain(chain, parts) => {
            let parts = joined_all(alloc, parts)?;
            Ok(Filter {
                at: f.at,
                form: Form::Chain(*chain, parts),
            })
        }
        Form::Any(Kind::Position, parts) => {
            let members = members_of(alloc, Kind::Position, parts)?;
            any_of(alloc, f.at, members)
        }
        Form::Any(Kind::Set, parts) => {
            let members = members_of(alloc, Kind::Set, parts)?;
            Ok(Filter {
                at: f.at,
                form: Form::Any(Kind::Set, members),
            })
        }
        _ => f.copy(alloc),
    }
}

#[cycle(join)]
fn joined_box(alloc: Global, f: &Filter) -> Result<Box<Filter>, NoMemory>
    ensures { IfOk result (λ g. StandsFor (filter_tree f.now) (filter_tree g.value)) }
{
    let filter = joined_one(alloc, f)?;
    Ok(Box::new(alloc, filter)?)
}

// The members of a kind.
#[cycle(join)]
fn members_of(alloc: Global, kind: Kind, parts: &Filters) -> Result<Filters, NoMemory>
    ensures { IfOk result (λ gs. Gathers kind no_filters (filters_tree gs) (filters_tree parts.now)) }
{
    let mut members = no_members(alloc)?;
    gather(alloc, kind, parts, &mut members)?;
    Ok(members.filters)
}

#[cycle(join)]
fn gather(alloc: Global, kind: Kind, parts: &Filters, to: &mut Members) -> Result<(), NoMemory>
    ensures { OnOk result (Gathers kind (filters_tree to.old.filters) (filters_tree to.new.filters) (filters_tree parts.now)) }
{
    for part in parts.as_slice() {
        gather_one(alloc, kind, part, to)?;
    }
    Ok(())
}

// A part of the kind that has members itself is replaced by these.
#[cycle(join)]
fn gather_one(alloc: Global, kind: Kind, part: &Filter, to: &mut Members) -> Result<(), NoMemory>
    ensures { OnOk result (Gathers kind (filters_tree to.old.filters) (filters_tree to.new.filters) (alone (filter_tree part.now))) }
{
    match (kind, &part.form) {
        (Kind::Position, Form::Any(Kind::Position, parts)) => gather(alloc, kind, parts, to),
        (Kind::Set, Form::Any(Kind::Set, parts)) => gather(alloc, kind, parts, to),
        _ => {
            let member = joined_one(alloc, part)?;
            add(to, member)
        }
    }
}
