//! The flat form of a query.
ghost use Rattle.std.specs.Prelude.{◌≡◌, [], map, option_map, Some, IfOk, OnOk};
ghost use Rattle.cq_symmetry.specs.Families.{members};
ghost use Rattle.cql_syntax.specs.Flat as spec;
ghost use Rattle.cql_syntax.specs.Meaning.{fitting};
ghost use Rattle.cql_syntax.specs.TreeOf.{filter_tree, form_tree, filters_tree, terms_tree, line_tree, played_tree, written_tree, parts_tree, body_tree, query_tree};
ghost use Rattle.cql_rewrite.specs.SameMeaning.{MeansTheSame};
ghost use Rattle.cql_rewrite.specs.Internal.DistinctMembers.{with_new, some_same, flat_if_fits};

use crate::same::same_filter;
use cq_common::{Bytes, NoMemory};
use cq_symmetry::{Family, Mapping, SquarePart, member, size};
use cql_images::contexts::{
    designator_image, field_image, inside, of_image, outcome_image, unary_image, way_image,
    word_image,
};
use cql_images::fits::fits;
use cql_syntax::{
    Body, Constituent, Constituents, Designator, Filter, Filters, FlatQuery, Form, Line, Played,
    Term, Terms, TypedQuery, kind_of,
};
use std::alloc::Global;

/// Returns the query without families that means the same: each leaf of a family is mapped, member by member.
///
/// Each flat form is made once, and compared only with those kept of the same family, at most 225. A comparison ends at the first
/// difference. So the work stays within a small multiple of the query's weight, which is at most 2^18.
///
/// # Errors
///
/// Returns `NoMemory` if memory runs out.
#[tactic(auto, using(crate::proofs::Meant::flat_means_the_same))]
pub fn expand(alloc: Global, query: &TypedQuery) -> Result<FlatQuery, NoMemory>
    ensures variations { IfOk result (λ flat. flat.variations ≡ query.now.query.variations) }
    ensures items { IfOk result (λ flat. filters_tree flat.items ≡ spec.flat_all [] (filters_tree query.now.query.items)) }
    ensures meaning { IfOk result (λ flat. MeansTheSame (query_tree query.now.query) (filters_tree flat.items)) }
{
    let items = flat_all(alloc, &query.query.items, &[])?;
    Ok(FlatQuery {
        variations: query.query.variations,
        items,
    })
}

/// The flat form of a filter in a context.
#[cycle(flat)]
#[tactic(auto, unfolding(cql_syntax::specs::Flat::flat))]
pub(crate) fn flat(alloc: Global, f: &Filter, context: &[Mapping]) -> Result<Filter, NoMemory>
    ensures { IfOk result (λ r. filter_tree r ≡ spec.flat context.now (filter_tree f.now)) }
{
    Ok(Filter {
        at: f.at,
        form: flat_form(alloc, &f.form, context)?,
    })
}

#[cycle(flat)]
fn flat_box(alloc: Global, f: &Filter, context: &[Mapping]) -> Result<Box<Filter>, NoMemory>
    ensures { IfOk result (λ r. filter_tree r.value ≡ spec.flat context.now (filter_tree f.now)) }
{
    let filter = flat(alloc, f, context)?;
    Ok(Box::new(alloc, filter)?)
}

#[cycle(flat)]
#[tactic(auto, unfolding(cql_syntax::specs::Flat::flat))]
fn flat_form(alloc: Global, f: &Form, context: &[Mapping]) -> Result<Form, NoMemory>
    ensures { IfOk result (λ r. form_tree r ≡ spec.flat_form context.now (form_tree f.now)) }
{
    match f {
        Form::Squares(d) => Ok(Form::Squares(image_or_nothing(designator_image(context, d)))),
        Form::Number(number) => Ok(Form::Number(*number)),
        Form::Name(name) => Ok(Form::Name(Bytes::from_slice(alloc, name.as_slice())?)),
        Form::Plain(word) => Ok(Form::Plain(word_image(context, *word))),
        Form::Tagged(field, text) => {
            let text = Bytes::from_slice(alloc, text.as_slice())?;
            Ok(Form::Tagged(field_image(context, *field), text))
        }
        Form::Outcome(outcome) => Ok(Form::Outcome(outcome_image(context, *outcome))),
        Form::Elo(of) => Ok(Form::Elo(of_image(context, *of))),
        Form::Unary(word, a) => {
            let part = flat_box(alloc, a, context)?;
            Ok(Form::Unary(unary_image(context, *word), part))
        }
        Form::Steps(way, m, n, a) => {
            let part = flat_box(alloc, a, context)?;
            Ok(Form::Steps(way_image(context, *way), *m, *n, part))
        }
        Form::Chain(chain, parts) => Ok(Form::Chain(*chain, flat_all(alloc, parts, context)?)),
        Form::Sum(terms) => Ok(Form::Sum(flat_terms(alloc, terms, context)?)),
        Form::Pair(pair, a, b) => {
            let first = flat_box(alloc, a, context)?;
            let second = flat_box(alloc, b, context)?;
            Ok(Form::Pair(*pair, first, second))
        }
        Form::If(a, b, c) => {
            let condition = flat_box(alloc, a, context)?;
            let then = flat_box(alloc, b, context)?;
            let otherwise = flat_box(alloc, c, context)?;
            Ok(Form::If(condition, then, otherwise))
        }
        Form::Square(every, name, a, b) => {
            let name = Bytes::from_slice(alloc, name.as_slice())?;
            let squares = flat_box(alloc, a, context)?;
            let asked = flat_box(alloc, b, context)?;
            Ok(Form::Square(*every, name, squares, asked))
        }
        Form::Line(line) => Ok(Form::Line(flat_line(alloc, line, context)?)),
        Form::Played(played) => Ok(Form::Played(flat_played(alloc, played, context)?)),
        Form::Transform(family, part) => {
            let members = flat_members(alloc, *family, part, context)?;
            Ok(Form::Any(kind_of(part), members))
        }
        Form::Sort(least, name, a) => {
            let name = Bytes::from_slice(alloc, name.as_slice())?;
            Ok(Form::Sort(*least, name, flat_box(alloc, a, context)?))
        }
        Form::Comment(text) => Ok(Form::Comment(Bytes::from_slice(alloc, text.as_slice())?)),
        Form::Any(kind, parts) => Ok(Form::Any(*kind, flat_all(alloc, parts, context)?)),
    }
}

// The image of a designator, or no men on no squares if it has none. A designator of a filter that
// fits has one.
fn image_or_nothing(image: Option<Designator>) -> Designator
    ensures { result ≡ spec.image_or_nothing image }
{
    match image {
        Some(designator) => designator,
        None => Designator {
            men: 0,
            part: SquarePart {
                squares: 0,
                whole_ranks: false,
                whole_files: false,
            },
        },
    }
}

// The flat forms of a family's part inside of the members with which it fits, each once.
#[cycle(flat)]
fn flat_members(
    alloc: Global,
    family: Family,
    part: &Filter,
    context: &[Mapping],
) -> Result<Filters, NoMemory>
    ensures { IfOk result (λ fs. filters_tree fs ≡
        spec.distinct (map (λ h. spec.flat h (filter_tree part.now)) (fitting context.now (members family) (filter_tree part.now)))) }
{
    let mut kept = Filters::new(alloc);
    for k in 0..size(family) {
        let found = flat_member(alloc, member(family, k), part, context)?;
        keep_new(&mut kept, found)?;
    }
    Ok(kept)
}

// The flat form of a filter inside of one more mapping, if it fits.
#[cycle(flat)]
fn flat_member(
    alloc: Global,
    first: Mapping,
    part: &Filter,
    context: &[Mapping],
) -> Result<Option<Filter>, NoMemory>
    ensures { IfOk result (λ r. option_map filter_tree r ≡ flat_if_fits context.now first (filter_tree part.now)) }
{
    let longer = inside(alloc, first, context)?;
    if !fits(alloc, part, longer.as_slice())? {
        return Ok(None);
    }
    Ok(Some(flat(alloc, part, longer.as_slice())?))
}

// Adds a filter, if there is one and it isn't in the list yet.
fn keep_new(kept: &mut Filters, found: Option<Filter>) -> Result<(), NoMemory>
    ensures { OnOk result (filters_tree kept.new ≡ with_new (filters_tree kept.old) (option_map filter_tree found)) }
{
    match found {
        Some(filter) => keep_filter(kept, filter),
        None => Ok(()),
    }
}

// Adds a filter, if it isn't in the list yet.
fn keep_filter(kept: &mut Filters, filter: Filter) -> Result<(), NoMemory>
    ensures { OnOk result (filters_tree kept.new ≡ with_new (filters_tree kept.old) (Some (filter_tree filter))) }
{
    if is_known(kept, &filter) {
        drop(filter);
        return Ok(());
    }
    kept.push(filter)
}

// True if one of these filters is the same as another.
fn is_known(kept: &Filters, filter: &Filter) -> bool
    ensures { result ≡ some_same (filters_tree kept.now) (filter_tree filter.now) }
{
    for other in kept.as_slice() {
        if same_filter(other, filter) {
            return true;
        }
    }
    false
}

#[cycle(flat)]
#[tactic(auto, unfolding(cql_syntax::specs::Flat::flat))]
fn flat_all(alloc: Global, filters: &Filters, context: &[Mapping]) -> Result<Filters, NoMemory>
    ensures { IfOk result (λ fs. filters_tree fs ≡ spec.flat_all context.now (filters_tree filters.now)) }
{
    let mut made = Filters::new(alloc);
    for filter in filters.as_slice() {
        made.push(flat(alloc, filter, context)?)?;
    }
    Ok(made)
}

#[cycle(flat)]
#[tactic(auto, unfolding(cql_syntax::specs::Flat::flat))]
fn flat_terms(alloc: Global, terms: &Terms, context: &[Mapping]) -> Result<Terms, NoMemory>
    ensures { IfOk result (λ ts. terms_tree ts ≡ spec.flat_terms context.now (terms_tree terms.now)) }
{
    let mut made = Terms::new(alloc);
    for term in terms.as_slice() {
        made.push(Term {
            minus: term.minus,
            filter: flat(alloc, &term.filter, context)?,
        })?;
    }
    Ok(made)
}

#[cycle(flat)]
#[tactic(auto, unfolding(cql_syntax::specs::Flat::flat))]
fn flat_line(alloc: Global, line: &Line, context: &[Mapping]) -> Result<Line, NoMemory>
    ensures { IfOk result (λ l. line_tree l ≡ spec.flat_line context.now (line_tree line.now)) }
{
    Ok(Line {
        back: line.back,
        primary: line.primary,
        extent: line.extent,
        parts: flat_parts(alloc, &line.parts, context)?,
    })
}

#[cycle(flat)]
#[tactic(auto, unfolding(cql_syntax::specs::Flat::flat))]
fn flat_played(alloc: Global, played: &Played, context: &[Mapping]) -> Result<Played, NoMemory>
    ensures { IfOk result (λ p. played_tree p ≡ spec.flat_played context.now (played_tree played.now)) }
{
    Ok(Played {
        origin: flat_written(alloc, &played.origin, context)?,
        goal: flat_written(alloc, &played.goal, context)?,
        taken: flat_written(alloc, &played.taken, context)?,
        promoted: flat_written(alloc, &played.promoted, context)?,
    })
}

#[cycle(flat)]
#[tactic(auto, unfolding(cql_syntax::specs::Flat::flat))]
fn flat_written(
    alloc: Global,
    written: &Option<Box<Filter>>,
    context: &[Mapping],
) -> Result<Option<Box<Filter>>, NoMemory>
    ensures { IfOk result (λ w. written_tree w ≡ spec.flat_written context.now (written_tree written.now)) }
{
    match written {
        Some(filter) => Ok(Some(flat_box(alloc, filter, context)?)),
        None => Ok(None),
    }
}

#[cycle(flat)]
#[tactic(auto, unfolding(cql_syntax::specs::Flat::flat))]
fn flat_parts(
    alloc: Global,
    parts: &Constituents,
    context: &[Mapping],
) -> Result<Constituents, NoMemory>
    ensures { IfOk result (λ cs. parts_tree cs ≡ spec.flat_parts context.now (parts_tree parts.now)) }
{
    let mut made = Constituents::new(alloc);
    for part in parts.as_slice() {
        made.push(Constituent {
            body: flat_body(alloc, &part.body, context)?,
            mark: part.mark,
        })?;
    }
    Ok(made)
}

#[cycle(flat)]
#[tactic(auto, unfolding(cql_syntax::specs::Flat::flat))]
fn flat_body(alloc: Global, body: &Body, context: &[Mapping]) -> Result<Body, NoMemory>
    ensures { IfOk result (λ b. body_tree b ≡ spec.flat_body context.now (body_tree body.now)) }
{
    Ok(match body {
        Body::Atom(filter) => Body::Atom(flat_box(alloc, filter, context)?),
        Body::Group(parts) => Body::Group(flat_parts(alloc, parts, context)?),
    })
}
