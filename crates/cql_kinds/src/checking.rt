//! The fault of a query's tree.
ghost use Rattle.std.specs.Prelude.{◌≡◌, ◌<◌, ◌≤◌, ◌+◌, ◌^◌, nat_lt, false, None};
ghost use Rattle.cq_common.specs.Refusals.{Gives};
ghost use Rattle.cql_syntax.specs.Limits.{most_weight};
ghost use Rattle.cql_syntax.specs.Occurrences.{of_items, sorts_with};
ghost use Rattle.cql_syntax.specs.TreeFaults.{checked, has_any};
ghost use Rattle.cql_syntax.specs.TreeOf.{query_tree, filters_tree, filter_tree};
ghost use Rattle.cql_syntax.specs.Weights.{query_weight};
ghost use Rattle.cql_kinds.specs.Internal.Walks.{no_breaches, walk_result, limit_fault};

use crate::bound_names::BoundNames;
use crate::first_breaches::FirstBreaches;
use crate::rules::holds_brace;
use crate::typing_context::TypingContext;
use crate::walk::walk;
use cq_common::Refusal;
use cql_syntax::{
    Filter, Filters, Form, Kind, Query, QueryFault, QueryReason, TypedQuery, WEIGHT_LIMIT, weight,
};
use std::alloc::Global;

// The number of sort items, with one item more.
fn sorts_with(sorts: usize, item: &Filter) -> usize
    requires { sorts + 1 < 2 ^ 64 }
    ensures value { result ≡ sorts_with sorts (filter_tree item.now) }
    ensures most { result ≤ sorts + 1 }
{
    match &item.form {
        Form::Sort(..) => sorts + 1,
        _ => sorts,
    }
}

// The first filter of each kind in the top items, or the first fault of a filter that breaks a
// rule.
fn walk_items(alloc: Global, items: &Filters) -> Result<FirstBreaches, Refusal<QueryFault>>
    ensures { Gives (λ found. found) result (walk_result no_breaches (of_items 0 (filters_tree items.now))) }
{
    let names = BoundNames::Unbound;
    let mut found = FirstBreaches {
        line: None,
        square: None,
        family: None,
    };
    let mut sorts = 0;
    for item in items.as_slice() {
        let standing = TypingContext {
            wanted: Kind::Position,
            names: &names,
            squares: 0,
            item: Some(sorts),
        };
        found = walk(alloc, item, standing, found)?;
        sorts = sorts_with(sorts, item);
    }
    Ok(found)
}

// The fault of the first limit that the query exceeds.
fn limit_fault(firsts: FirstBreaches, heavy: bool) -> Option<QueryFault>
    ensures { result ≡ limit_fault firsts heavy }
{
    let (byte, reason) = match (firsts.line, firsts.square) {
        (Some(byte), _) => (byte, QueryReason::LineTooLong),
        (None, Some(byte)) => (byte, QueryReason::TooManySquares),
        (None, None) if heavy => (firsts.family.unwrap_or(0), QueryReason::TooManyMembers),
        (None, None) => return None,
    };
    Some(QueryFault { byte, reason })
}

// True if the weight of a query is above the limit.
fn is_too_heavy(query: &Query) -> bool
    ensures { result ≡ nat_lt most_weight (query_weight (query_tree query.now)) }
{
    weight(query) > WEIGHT_LIMIT
}

/// Returns a copy of the query as a typed query, if its tree has no fault.
///
/// # Errors
///
/// Returns a `Refusal::Fault` with the first fault, in this order:
///
/// 1. `TextHoldsBrace` in the match string, at the word `matchstring` before it.
/// 2. The first filter that breaks a rule, outer before inner and left before right, at its first byte.
///    The rules of one filter have the order `KindMismatch`, `NotAtTop`, `TooManySorts`, `UnknownName`, `TextHoldsBrace`.
/// 3. `LineTooLong` at the first line of more than 64 places.
/// 4. `TooManySquares` at the first `square` with four around it.
/// 5. `TooManyMembers` if the weight is above 2^18, at the first family, or at byte 0 if there is none.
///
/// Returns `Refusal::NoMemory` if memory runs out.
pub fn check(query: &Query) -> Result<TypedQuery, Refusal<QueryFault>>
    requires { has_any (query_tree query.now) ≡ false }
    ensures { Gives (λ typed. query_tree typed.query) result (checked (query_tree query.now)) }
{
    if holds_brace(query.match_text.as_slice()) {
        return Err(Refusal::Fault(QueryFault {
            byte: query.match_at,
            reason: QueryReason::TextHoldsBrace,
        }));
    }
    let firsts = walk_items(query.items.allocator(), &query.items)?;
    if let Some(fault) = limit_fault(firsts, is_too_heavy(query)) {
        return Err(Refusal::Fault(fault));
    }
    Ok(TypedQuery {
        query: query.copy()?,
    })
}
