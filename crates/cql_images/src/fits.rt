//! The test of a filter against a context.
ghost use Rattle.std.specs.Prelude.{◌≡◌, ◌∷◌, IfOk};
ghost use Rattle.std.specs.List.{list_any};
ghost use Rattle.cq_symmetry.specs.Families.{members};
ghost use Rattle.cql_syntax.specs.Meaning as meaning;
ghost use Rattle.cql_syntax.specs.TreeOf.{filter_tree, filters_tree, terms_tree, parts_tree, body_tree, played_tree, written_tree};

use crate::contexts::{designator_image, inside};
use cq_common::NoMemory;
use cq_symmetry::{Family, Mapping, member, size};
use cql_syntax::{Body, Constituents, Filter, Filters, Form, Played, Terms};
use std::alloc::Global;

/// Returns true if a filter fits a context. Each designator in it outside of families must have an image, and each outermost family in
/// it must have a member with which its part fits.
///
/// # Errors
///
/// Returns `NoMemory` if memory runs out.
#[cycle(fit)]
#[tactic(auto, unfolding(cql_syntax::specs::Meaning::fits))]
pub fn fits(alloc: Global, f: &Filter, context: &[Mapping]) -> Result<bool, NoMemory>
    ensures { IfOk result (λ b. b ≡ meaning.fits context.now (filter_tree f.now)) }
{
    match &f.form {
        Form::Squares(d) => Ok(designator_image(context, d).is_some()),
        Form::Number(_) | Form::Name(_) | Form::Plain(_) | Form::Tagged(..) => Ok(true),
        Form::Outcome(_) | Form::Elo(_) | Form::Comment(_) => Ok(true),
        Form::Unary(_, part) | Form::Steps(.., part) | Form::Sort(.., part) => {
            fits(alloc, part, context)
        }
        Form::Chain(_, parts) | Form::Any(_, parts) => all_fit(alloc, parts, context),
        Form::Sum(terms) => terms_fit(alloc, terms, context),
        Form::Pair(_, first, second) | Form::Square(.., first, second) => {
            Ok(fits(alloc, first, context)? && fits(alloc, second, context)?)
        }
        Form::If(condition, then, otherwise) => Ok(
            fits(alloc, condition, context)?
                && fits(alloc, then, context)?
                && fits(alloc, otherwise, context)?,
        ),
        Form::Line(line) => parts_fit(alloc, &line.parts, context),
        Form::Played(played) => played_fits(alloc, played, context),
        Form::Transform(family, part) => member_fits(alloc, *family, part, context),
    }
}

// True if a filter fits with some member of a family inside of the context.
#[cycle(fit)]
fn member_fits(
    alloc: Global,
    family: Family,
    part: &Filter,
    context: &[Mapping],
) -> Result<bool, NoMemory>
    ensures { IfOk result (λ b. b ≡ list_any (λ h. meaning.fits (h ∷ context.now) (filter_tree part.now)) (members family)) }
{
    for k in 0..size(family) {
        let longer = inside(alloc, member(family, k), context)?;
        if fits(alloc, part, longer.as_slice())? {
            return Ok(true);
        }
    }
    Ok(false)
}

#[cycle(fit)]
#[tactic(auto, unfolding(cql_syntax::specs::Meaning::fits))]
fn all_fit(alloc: Global, filters: &Filters, context: &[Mapping]) -> Result<bool, NoMemory>
    ensures { IfOk result (λ b. b ≡ meaning.all_fit context.now (filters_tree filters.now)) }
{
    for filter in filters.as_slice() {
        if !fits(alloc, filter, context)? {
            return Ok(false);
        }
    }
    Ok(true)
}

#[cycle(fit)]
#[tactic(auto, unfolding(cql_syntax::specs::Meaning::fits))]
fn terms_fit(alloc: Global, terms: &Terms, context: &[Mapping]) -> Result<bool, NoMemory>
    ensures { IfOk result (λ b. b ≡ meaning.terms_fit context.now (terms_tree terms.now)) }
{
    for term in terms.as_slice() {
        if !fits(alloc, &term.filter, context)? {
            return Ok(false);
        }
    }
    Ok(true)
}

#[cycle(fit)]
#[tactic(auto, unfolding(cql_syntax::specs::Meaning::fits))]
fn played_fits(alloc: Global, played: &Played, context: &[Mapping]) -> Result<bool, NoMemory>
    ensures { IfOk result (λ b. b ≡ meaning.played_fits context.now (played_tree played.now)) }
{
    Ok(
        written_fits(alloc, &played.origin, context)?
            && written_fits(alloc, &played.goal, context)?
            && written_fits(alloc, &played.taken, context)?
            && written_fits(alloc, &played.promoted, context)?,
    )
}

#[cycle(fit)]
#[tactic(auto, unfolding(cql_syntax::specs::Meaning::fits))]
fn written_fits(
    alloc: Global,
    written: &Option<Box<Filter>>,
    context: &[Mapping],
) -> Result<bool, NoMemory>
    ensures { IfOk result (λ b. b ≡ meaning.written_fits context.now (written_tree written.now)) }
{
    match written {
        Some(filter) => fits(alloc, filter, context),
        None => Ok(true),
    }
}

#[cycle(fit)]
#[tactic(auto, unfolding(cql_syntax::specs::Meaning::fits))]
fn parts_fit(alloc: Global, parts: &Constituents, context: &[Mapping]) -> Result<bool, NoMemory>
    ensures { IfOk result (λ b. b ≡ meaning.parts_fit context.now (parts_tree parts.now)) }
{
    for part in parts.as_slice() {
        if !body_fits(alloc, &part.body, context)? {
            return Ok(false);
        }
    }
    Ok(true)
}

#[cycle(fit)]
#[tactic(auto, unfolding(cql_syntax::specs::Meaning::fits))]
fn body_fits(alloc: Global, body: &Body, context: &[Mapping]) -> Result<bool, NoMemory>
    ensures { IfOk result (λ b. b ≡ meaning.body_fits context.now (body_tree body.now)) }
{
    match body {
        Body::Atom(filter) => fits(alloc, filter, context),
        Body::Group(parts) => parts_fit(alloc, parts, context),
    }
}
