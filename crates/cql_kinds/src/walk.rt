//! The walk over the filters of a query, outer before inner and left before right.
ghost use Rattle.std.specs.Prelude.{◌++◌};
ghost use Rattle.cq_common.specs.Refusals.{Gives};
ghost use Rattle.cql_syntax.specs.Occurrences.{occurrences, inner, all_of, of_terms, of_played, of_written, of_parts, of_body};
ghost use Rattle.cql_syntax.specs.TreeOf.{filter_tree, form_tree, filters_tree, terms_tree, played_tree, written_tree, parts_tree, body_tree};
ghost use Rattle.cql_kinds.specs.Internal.TypingContexts.{typing_context_of};
ghost use Rattle.cql_kinds.specs.Internal.Walks.{walk_result};

use crate::bound_names::BoundNames;
use crate::first_breaches::FirstBreaches;
use crate::operand_kinds::{pair_operand_kind, unary_operand_kind};
use crate::rules::broken_rule;
use crate::typing_context::TypingContext;
use cq_common::Refusal;
use cql_syntax::{Body, Constituents, Filter, Filters, Form, Kind, Played, QueryFault, Terms};
use std::alloc::Global;

/// Returns the first breaches with a filter and all in it added.
///
/// # Errors
///
/// Returns a `Refusal::Fault` with the first fault of a filter that breaks a rule. Returns `Refusal::NoMemory` if memory runs out.
#[tactic(auto, using(crate::proofs::Walking::walk_on, crate::proofs::Walking::walk_stop))]
#[cycle(walk)]
pub fn walk(
    alloc: Global,
    filter: &Filter,
    standing: TypingContext,
    firsts: FirstBreaches,
) -> Result<FirstBreaches, Refusal<QueryFault>>
    ensures { Gives (λ found. found) result (walk_result firsts (occurrences (typing_context_of standing.entry) (filter_tree filter.now))) }
{
    if let Some(reason) = broken_rule(alloc, filter, standing)? {
        return Err(Refusal::Fault(QueryFault {
            byte: filter.at,
            reason,
        }));
    }
    walk_inner(alloc, &filter.form, standing, firsts.with(filter, standing))
}

#[tactic(auto, using(crate::proofs::Walking::walked_none), unfolding(cql_syntax::specs::Occurrences::inner, cql_syntax::specs::Occurrences::of_line))]
#[cycle(walk)]
fn walk_inner(
    alloc: Global,
    form: &Form,
    standing: TypingContext,
    firsts: FirstBreaches,
) -> Result<FirstBreaches, Refusal<QueryFault>>
    ensures { Gives (λ found. found) result (walk_result firsts (inner (typing_context_of standing.entry) (form_tree form.now))) }
{
    match form {
        Form::Squares(_) | Form::Number(_) | Form::Name(_) | Form::Plain(_) => Ok(firsts),
        Form::Tagged(..) | Form::Outcome(_) | Form::Elo(_) | Form::Comment(_) => Ok(firsts),
        Form::Unary(unary, part) => walk(
            alloc,
            part,
            standing.part(unary_operand_kind(*unary)),
            firsts,
        ),
        Form::Steps(.., part) => walk(alloc, part, standing.part(Kind::Set), firsts),
        Form::Sort(.., part) => walk(alloc, part, standing.part(Kind::Number), firsts),
        Form::Transform(_, part) => walk(alloc, part, standing.part(Kind::Position), firsts),
        Form::Chain(chain, parts) => walk_all(alloc, parts, standing.part(chain.kind()), firsts),
        Form::Any(kind, parts) => walk_all(alloc, parts, standing.part(*kind), firsts),
        Form::Sum(terms) => walk_terms(alloc, terms, standing.part(Kind::Number), firsts),
        Form::Pair(pair, first, second) => {
            let part = standing.part(pair_operand_kind(*pair));
            let after_first = walk(alloc, first, part, firsts)?;
            walk(alloc, second, part, after_first)
        }
        Form::If(condition, then, otherwise) => {
            let branch = standing.part(Kind::Position);
            let after_condition = walk(alloc, condition, branch, firsts)?;
            let after_then = walk(alloc, then, branch, after_condition)?;
            walk(alloc, otherwise, branch, after_then)
        }
        Form::Square(_, name, squares, asked) => {
            let among = standing.part_of_square(Kind::Set);
            let after_squares = walk(alloc, squares, among, firsts)?;
            let names = BoundNames::Bound(name.as_slice(), standing.names);
            walk(
                alloc,
                asked,
                standing.square_condition(&names),
                after_squares,
            )
        }
        Form::Line(line) => walk_parts(alloc, &line.parts, standing.part(Kind::Position), firsts),
        Form::Played(played) => walk_played(alloc, played, standing.part(Kind::Set), firsts),
    }
}

#[tactic(auto, unfolding(cql_syntax::specs::Occurrences::all_of))]
#[cycle(walk)]
fn walk_all(
    alloc: Global,
    filters: &Filters,
    standing: TypingContext,
    firsts: FirstBreaches,
) -> Result<FirstBreaches, Refusal<QueryFault>>
    ensures { Gives (λ found. found) result (walk_result firsts (all_of (typing_context_of standing.entry) (filters_tree filters.now))) }
{
    let mut found = firsts;
    for filter in filters.as_slice() {
        found = walk(alloc, filter, standing, found)?;
    }
    Ok(found)
}

#[tactic(auto, unfolding(cql_syntax::specs::Occurrences::of_terms))]
#[cycle(walk)]
fn walk_terms(
    alloc: Global,
    terms: &Terms,
    standing: TypingContext,
    firsts: FirstBreaches,
) -> Result<FirstBreaches, Refusal<QueryFault>>
    ensures { Gives (λ found. found) result (walk_result firsts (of_terms (typing_context_of standing.entry) (terms_tree terms.now))) }
{
    let mut found = firsts;
    for term in terms.as_slice() {
        found = walk(alloc, &term.filter, standing, found)?;
    }
    Ok(found)
}

#[tactic(auto, unfolding(cql_syntax::specs::Occurrences::of_parts))]
#[cycle(walk)]
fn walk_parts(
    alloc: Global,
    parts: &Constituents,
    standing: TypingContext,
    firsts: FirstBreaches,
) -> Result<FirstBreaches, Refusal<QueryFault>>
    ensures { Gives (λ found. found) result (walk_result firsts (of_parts (typing_context_of standing.entry) (parts_tree parts.now))) }
{
    let mut found = firsts;
    for part in parts.as_slice() {
        found = walk_body(alloc, &part.body, standing, found)?;
    }
    Ok(found)
}

#[tactic(auto, unfolding(cql_syntax::specs::Occurrences::of_body))]
#[cycle(walk)]
fn walk_body(
    alloc: Global,
    body: &Body,
    standing: TypingContext,
    firsts: FirstBreaches,
) -> Result<FirstBreaches, Refusal<QueryFault>>
    ensures { Gives (λ found. found) result (walk_result firsts (of_body (typing_context_of standing.entry) (body_tree body.now))) }
{
    match body {
        Body::Atom(filter) => walk(alloc, filter, standing, firsts),
        Body::Group(parts) => walk_parts(alloc, parts, standing, firsts),
    }
}

#[tactic(auto, using(crate::proofs::Walking::walked_none), unfolding(cql_syntax::specs::Occurrences::of_written))]
#[cycle(walk)]
fn walk_written(
    alloc: Global,
    written: &Option<Box<Filter>>,
    standing: TypingContext,
    firsts: FirstBreaches,
) -> Result<FirstBreaches, Refusal<QueryFault>>
    ensures { Gives (λ found. found) result (walk_result firsts (of_written (typing_context_of standing.entry) (written_tree written.now))) }
{
    match written {
        Some(filter) => walk(alloc, filter, standing, firsts),
        None => Ok(firsts),
    }
}

#[cycle(walk)]
fn walk_played(
    alloc: Global,
    played: &Played,
    standing: TypingContext,
    firsts: FirstBreaches,
) -> Result<FirstBreaches, Refusal<QueryFault>>
    ensures { Gives (λ found. found) result (walk_result firsts (of_played (typing_context_of standing.entry) (played_tree played.now))) }
{
    let after_origin = walk_written(alloc, &played.origin, standing, firsts)?;
    let after_goal = walk_written(alloc, &played.goal, standing, after_origin)?;
    let after_taken = walk_written(alloc, &played.taken, standing, after_goal)?;
    walk_written(alloc, &played.promoted, standing, after_taken)
}
