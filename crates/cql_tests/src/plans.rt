//! Queries from texts, and the form in which they are evaluated.
ghost use Rattle.std.specs.Prelude.{◌≡◌, false, IfOk};
ghost use Rattle.cql_syntax.specs.TreeFaults.{has_any};
ghost use Rattle.cql_syntax.specs.TreeOf.{query_tree};

use cq_common::{NoMemory, Refusal};
use cql_kinds::check;
use cql_lexer::query_tokens;
use cql_parser::{parse, spelled_queries_have_no_any, tokens_of_a_text_are_ended};
use cql_plan::{Plan, join};
use cql_rewrite::expand;
use cql_syntax::{Chain, FlatQuery, Form, Query, QueryFault, TypedQuery};
use std::alloc::Global;
use std::test::Fail;

// Returns the query that a text spells, before its kinds are checked.
fn parsed(alloc: Global, text: &[u8]) -> Result<Query, Refusal<QueryFault>>
    ensures { IfOk result (λ query. has_any (query_tree query) ≡ false) }
{
    tokens_of_a_text_are_ended();
    spelled_queries_have_no_any();
    let tokens = query_tokens(alloc, text)?;
    parse(alloc, tokens.as_slice())
}

/// Returns the query that a text spells.
pub(crate) fn read_query(alloc: Global, text: &[u8]) -> Result<TypedQuery, Refusal<QueryFault>> {
    check(&parsed(alloc, text)?)
}

/// Returns its flat form.
pub(crate) fn flat_query(alloc: Global, text: &[u8]) -> Result<FlatQuery, Refusal<QueryFault>> {
    let query = read_query(alloc, text)?;
    Ok(expand(alloc, &query)?)
}

/// Returns its plan.
pub(crate) fn plan_of(alloc: Global, text: &[u8]) -> Result<Plan, Refusal<QueryFault>> {
    let query = read_query(alloc, text)?;
    let plan = Plan::make(alloc, &query);
    drop(query);
    Ok(plan?)
}

/// A query, and the number of parts of its first item in the form that is evaluated, if the item is braces there.
type JoinedCase<'a> = (&'a [u8], usize);

static JOINED: [JoinedCase<'static>; 3] = [
    (b"cql() flip { check Ka1 }", 2),
    (b"cql() flip { check Ka1 mate }", 3),
    (b"cql() flip { Ka1 Ra8 }", 0),
];

fn parts_of_first(query: &FlatQuery) -> usize {
    let items = query.items.as_slice();
    if items.is_empty() {
        return 0;
    }
    match &items[0].form {
        Form::Chain(Chain::All, parts) => parts.len(),
        _ => 0,
    }
}

fn parts_joined(alloc: Global, flat: &FlatQuery) -> Result<usize, NoMemory> {
    let joined = join(alloc, flat)?;
    Ok(parts_of_first(&joined))
}

// Returns true if the form in which a query is evaluated has so many parts first.
fn has_parts(alloc: Global, query: &[u8], parts: usize) -> Result<bool, Fail> {
    let flat = flat_query(alloc, query)?;
    Ok(parts_joined(alloc, &flat)? == parts)
}

#[test]
fn what_stands_in_each_image_is_asked_once(rt: HostRuntime) -> Result<(), Fail> {
    for (query, parts) in JOINED.iter() {
        assert!(rt; has_parts(rt.alloc(), query, *parts)?);
    }
    Ok(())
}
