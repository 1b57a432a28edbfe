//! The rules that a filter may break in its context.
ghost use Rattle.std.specs.Prelude.{◌≡◌, ◌++◌, ℕ, Bool, List, IfOk};
ghost use Rattle.cql_syntax.specs.Kinds.{filter_kind};
ghost use Rattle.cql_syntax.specs.TreeFaults.{first, holds_brace, wrong_kind, below_top, past_four_sorts, unbound_name, brace_in_comment, broken_rules};
ghost use Rattle.cql_syntax.specs.Trees.{FilterTree, name as name_form, sort, comment};
ghost use Rattle.cql_syntax.specs.TreeOf.{filter_tree};
ghost use Rattle.cql_kinds.specs.Internal.TypingContexts.{names_in, occurrence};

use crate::bound_names::BoundNames;
use crate::typing_context::TypingContext;
use cq_common::{Bytes, NoMemory};
use cql_syntax::{Filter, Form, Kind, QueryReason, kind_of};
use std::alloc::Global;

// The greatest number of sort items.
const SORTS_LIMIT: usize = 4;

/// Returns true if a text has a closing brace, which would end the comment that has the text.
pub fn holds_brace(text: &[u8]) -> bool
    ensures { result ≡ holds_brace text.now }
{
    text.iter().any(|byte| *byte == b'}')
}

// A filter of another kind than the required one. A filter of any kind may be a position.
fn wrong_kind(filter: &Filter, wanted: Kind) -> Option<QueryReason>
    ensures { result ≡ first (wrong_kind wanted (filter_kind (filter_tree filter.now))) }
{
    if wanted == Kind::Position {
        return None;
    }
    let found = kind_of(filter);
    if wanted == found {
        return None;
    }
    Some(QueryReason::KindMismatch(wanted, found))
}

// A sort that is no top item, or that comes after four or more sort items.
fn misplaced_sort(item: Option<usize>) -> Option<QueryReason>
    ensures { (least : Bool) (text : List ℕ) (f : FilterTree) →
        result ≡ first (below_top item (sort least text f) ++ past_four_sorts item (sort least text f)) }
{
    match item {
        None => Some(QueryReason::NotAtTop),
        Some(sorts) if sorts >= SORTS_LIMIT => Some(QueryReason::TooManySorts),
        Some(_) => None,
    }
}

// A comment that is no top item, or that has a closing brace.
fn faulty_comment(item: Option<usize>, text: &[u8]) -> Option<QueryReason>
    ensures { result ≡ first (below_top item (comment text.now) ++ brace_in_comment (comment text.now)) }
{
    if item.is_none() {
        return Some(QueryReason::NotAtTop);
    }
    if holds_brace(text) {
        return Some(QueryReason::TextHoldsBrace);
    }
    None
}

// A name that is not bound.
fn unbound_name(
    alloc: Global,
    names: &BoundNames,
    name: &[u8],
) -> Result<Option<QueryReason>, NoMemory>
    ensures { IfOk result (λ reason. reason ≡ first (unbound_name (names_in names.now) (name_form name.now))) }
{
    if names.binds(name) {
        return Ok(None);
    }
    Ok(Some(QueryReason::UnknownName(Bytes::from_slice(alloc, name)?)))
}

/// Returns the first rule that a filter breaks in its context.
///
/// # Errors
///
/// Returns `NoMemory` if memory runs out.
pub fn broken_rule(
    alloc: Global,
    filter: &Filter,
    standing: TypingContext,
) -> Result<Option<QueryReason>, NoMemory>
    ensures { IfOk result (λ reason. reason ≡ first (broken_rules (occurrence standing.entry filter.now))) }
{
    if let Some(reason) = wrong_kind(filter, standing.wanted) {
        return Ok(Some(reason));
    }
    Ok(match &filter.form {
        Form::Sort(..) => misplaced_sort(standing.item),
        Form::Comment(text) => faulty_comment(standing.item, text.as_slice()),
        Form::Name(name) => return unbound_name(alloc, standing.names, name.as_slice()),
        _ => None,
    })
}
