//! Filters with a token between them. A filter that is left over when memory runs out is dropped by a call, whose proof is shorter
//! than that of a `?` beside it.
ghost use Rattle.std.specs.Prelude.{◌≡◌, ◌==◌, IfOk};
ghost use Rattle.cql_syntax.specs.TreeOf.{filter_tree, filters_tree, form_tree, terms_tree};
ghost use Rattle.cql_syntax.specs.Trees.{chain as chain_of, sum_of, with_filter, with_term};
ghost use Rattle.cql_parser.specs.PartialFilters.{new_infix, longer_infix, infix_of as row_by, subtracts, infix_node};
ghost use Rattle.cql_parser.specs.Internal.Models.{node_model};
ghost use Rattle.cql_parser.specs.declared.role.InfixOperator.TheVariants.{Chained, Added, Paired};

use crate::partial_filter::{Node, boxed_filter, filter_in};
use crate::role::{InfixOperator, infix_level};
use cq_common::NoMemory;
use cql_syntax::{Chain, Filter, Filters, Form, Pair, Term, Terms};
use std::alloc::Global;

// The filters, and one more at the end.
fn more_filters(parts: Filters, next: Filter) -> Result<Filters, NoMemory>
    ensures { IfOk result (λ fs. filters_tree fs ≡ with_filter (filters_tree parts) (filter_tree next)) }
{
    let mut parts = parts;
    parts.push(next)?;
    Ok(parts)
}

// The terms, and one more at the end.
fn more_terms(terms: Terms, minus: bool, filter: Filter) -> Result<Terms, NoMemory>
    ensures { IfOk result (λ ts. terms_tree ts ≡ with_term (terms_tree terms) minus (filter_tree filter)) }
{
    let mut terms = terms;
    terms.push(Term { minus, filter })?;
    Ok(terms)
}

// Two filters in a chain.
fn new_chain(alloc: Global, first: Filter, chain: Chain, second: Filter) -> Result<Form, NoMemory>
    ensures { IfOk result (λ f. form_tree f ≡ new_infix (filter_tree first) (Chained chain) (filter_tree second)) }
{
    match more_filters(Filters::new(alloc), first) {
        Ok(parts) => longer_chain(chain, parts, second),
        Err(refused) => {
            drop(second);
            Err(refused)
        }
    }
}

// A sum of two filters. The second is subtracted if `minus` is true.
fn new_sum(alloc: Global, first: Filter, minus: bool, second: Filter) -> Result<Form, NoMemory>
    ensures { IfOk result (λ f. form_tree f ≡ new_infix (filter_tree first) (Added minus) (filter_tree second)) }
{
    match more_terms(Terms::new(alloc), false, first) {
        Ok(terms) => longer_sum(terms, minus, second),
        Err(refused) => {
            drop(second);
            Err(refused)
        }
    }
}

// A filter paired with a second one.
fn pair_with(
    alloc: Global,
    first: Box<Filter>,
    pair: Pair,
    second: Filter,
) -> Result<Form, NoMemory>
    ensures { IfOk result (λ f. form_tree f ≡ new_infix (filter_tree first.value) (Paired pair) (filter_tree second)) }
{
    match boxed_filter(alloc, second) {
        Ok(second) => Ok(Form::Pair(pair, first, second)),
        Err(refused) => {
            drop(first);
            Err(refused)
        }
    }
}

// A pair of two filters.
fn new_pair(alloc: Global, first: Filter, pair: Pair, second: Filter) -> Result<Form, NoMemory>
    ensures { IfOk result (λ f. form_tree f ≡ new_infix (filter_tree first) (Paired pair) (filter_tree second)) }
{
    match boxed_filter(alloc, first) {
        Ok(first) => pair_with(alloc, first, pair, second),
        Err(refused) => {
            drop(second);
            Err(refused)
        }
    }
}

// A row of two filters.
fn new_infix(
    alloc: Global,
    first: Filter,
    joint: InfixOperator,
    second: Filter,
) -> Result<Form, NoMemory>
    ensures { IfOk result (λ f. form_tree f ≡ new_infix (filter_tree first) joint (filter_tree second)) }
{
    match joint {
        InfixOperator::Chained(chain) => new_chain(alloc, first, chain, second),
        InfixOperator::Added(minus) => new_sum(alloc, first, minus, second),
        InfixOperator::Paired(pair) => new_pair(alloc, first, pair, second),
    }
}

// True if the filter after the token is subtracted.
fn subtracts(joint: InfixOperator) -> bool
    ensures { result ≡ subtracts joint }
{
    match joint {
        InfixOperator::Added(minus) => minus,
        _ => false,
    }
}

// A chain with one filter more.
fn longer_chain(chain: Chain, parts: Filters, next: Filter) -> Result<Form, NoMemory>
    ensures { IfOk result (λ f. form_tree f ≡ chain_of chain (with_filter (filters_tree parts) (filter_tree next))) }
{
    Ok(Form::Chain(chain, more_filters(parts, next)?))
}

// A sum with one filter more, which is subtracted if `minus` is true.
fn longer_sum(terms: Terms, minus: bool, next: Filter) -> Result<Form, NoMemory>
    ensures { IfOk result (λ f. form_tree f ≡ sum_of (with_term (terms_tree terms) minus (filter_tree next))) }
{
    Ok(Form::Sum(more_terms(terms, minus, next)?))
}

// A row with one filter more at its end.
fn longer_infix(
    alloc: Global,
    row: Filter,
    joint: InfixOperator,
    next: Filter,
) -> Result<Form, NoMemory>
    ensures { IfOk result (λ f. form_tree f ≡ longer_infix (form_tree row.form) (filter_tree row) joint (filter_tree next)) }
{
    let at = row.at;
    match row.form {
        Form::Chain(chain, parts) => longer_chain(chain, parts, next),
        Form::Sum(terms) => longer_sum(terms, subtracts(joint), next),
        form => new_infix(alloc, Filter { at, form }, joint, next),
    }
}

// A filter and one more after a token. The first is a row that goes on, or becomes the first of a new row.
fn infix_of(
    alloc: Global,
    goes_on: bool,
    first: Filter,
    joint: InfixOperator,
    second: Filter,
) -> Result<Filter, NoMemory>
    ensures { IfOk result (λ f. filter_tree f ≡ row_by goes_on (filter_tree first) joint (filter_tree second)) }
{
    let at = first.at;
    let form = if goes_on {
        longer_infix(alloc, first, joint, second)?
    } else {
        new_infix(alloc, first, joint, second)?
    };
    Ok(Filter { at, form })
}

/// Returns two filters with a token between them as one filter. The first is of the given level.
///
/// # Errors
///
/// Returns `NoMemory` if memory runs out.
pub fn joined(
    alloc: Global,
    level: u8,
    first: Node,
    joint: InfixOperator,
    second: Node,
) -> Result<Node, NoMemory>
    ensures { IfOk result (λ n. node_model n ≡ infix_node level (node_model first) joint (node_model second)) }
{
    let goes_on = level == infix_level(joint);
    let row = infix_of(alloc, goes_on, filter_in(first), joint, filter_in(second))?;
    Ok(Node::Filter(row))
}
