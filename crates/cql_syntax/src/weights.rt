//! The weight of a query.
ghost use Rattle.std.specs.Prelude.{◌≡◌, ◌+◌, ◌*◌, length};
ghost use Rattle.cq_symmetry.specs.Families.{members};
ghost use Rattle.cql_syntax.specs.TreeOf.{filter_tree, filters_tree, terms_tree, parts_tree, body_tree, played_tree, written_tree, query_tree};
ghost use Rattle.cql_syntax.specs.Weights.{filter_weight, filters_weight, terms_weight, parts_weight, body_weight, played_weight, written_weight, query_weight, capped};

use crate::tree::{Body, Constituents, Filter, Filters, Form, Played, Query, Terms};
use cq_symmetry::{Family, size};

/// The greatest weight that a query may have.
pub const WEIGHT_LIMIT: u64 = 1 << 18;

/// Returns the weight of a query, or 2^18 + 1 if it is above 2^18.
pub fn weight(q: &Query) -> u64
    ensures { result ≡ capped (query_weight (query_tree q.now)) }
{
    weight_of_filters(&q.items)
}

// The sum of two weights.
fn weight_of_both(first: u64, second: u64) -> u64
    ensures { result ≡ capped (first + second) }
{
    first.saturating_add(second).min(WEIGHT_LIMIT + 1)
}

// The weight of a family whose part has the given weight.
fn weight_of_family(family: Family, part: u64) -> u64
    ensures { result ≡ capped (1 + length (members family) * part) }
{
    let written_out = u64::from(size(family)).saturating_mul(part);
    weight_of_both(1, written_out)
}

#[cycle(weigh)]
fn weight_of(f: &Filter) -> u64
    ensures { result ≡ capped (filter_weight (filter_tree f.now)) }
{
    let parts = match &f.form {
        Form::Squares(_) | Form::Number(_) | Form::Name(_) | Form::Plain(_) => 0,
        Form::Tagged(..) | Form::Outcome(_) | Form::Elo(_) | Form::Comment(_) => 0,
        Form::Unary(_, part) | Form::Steps(.., part) | Form::Sort(.., part) => weight_of(part),
        Form::Chain(_, parts) | Form::Any(_, parts) => weight_of_filters(parts),
        Form::Sum(terms) => weight_of_terms(terms),
        Form::Pair(_, first, second) | Form::Square(.., first, second) => {
            weight_of_both(weight_of(first), weight_of(second))
        }
        Form::If(condition, then, otherwise) => {
            let branches = weight_of_both(weight_of(then), weight_of(otherwise));
            weight_of_both(weight_of(condition), branches)
        }
        Form::Line(line) => weight_of_parts(&line.parts),
        Form::Played(played) => weight_of_played(played),
        Form::Transform(family, part) => return weight_of_family(*family, weight_of(part)),
    };
    weight_of_both(1, parts)
}

#[cycle(weigh)]
fn weight_of_filters(filters: &Filters) -> u64
    ensures { result ≡ capped (filters_weight (filters_tree filters.now)) }
{
    let mut total = 0;
    for filter in filters.as_slice() {
        total = weight_of_both(total, weight_of(filter));
    }
    total
}

#[cycle(weigh)]
fn weight_of_terms(terms: &Terms) -> u64
    ensures { result ≡ capped (terms_weight (terms_tree terms.now)) }
{
    let mut total = 0;
    for term in terms.as_slice() {
        total = weight_of_both(total, weight_of(&term.filter));
    }
    total
}

#[cycle(weigh)]
fn weight_of_parts(parts: &Constituents) -> u64
    ensures { result ≡ capped (parts_weight (parts_tree parts.now)) }
{
    let mut total = 0;
    for part in parts.as_slice() {
        total = weight_of_both(total, weight_of_body(&part.body));
    }
    total
}

#[cycle(weigh)]
fn weight_of_written(written: &Option<Box<Filter>>) -> u64
    ensures { result ≡ capped (written_weight (written_tree written.now)) }
{
    match written {
        Some(filter) => weight_of(filter),
        None => 0,
    }
}

#[cycle(weigh)]
fn weight_of_played(played: &Played) -> u64
    ensures { result ≡ capped (played_weight (played_tree played.now)) }
{
    let squares = weight_of_both(
        weight_of_written(&played.origin),
        weight_of_written(&played.goal),
    );
    let men = weight_of_both(
        weight_of_written(&played.taken),
        weight_of_written(&played.promoted),
    );
    weight_of_both(squares, men)
}

#[cycle(weigh)]
fn weight_of_body(body: &Body) -> u64
    ensures { result ≡ capped (body_weight (body_tree body.now)) }
{
    match body {
        Body::Atom(filter) => weight_of(filter),
        Body::Group(parts) => weight_of_parts(parts),
    }
}
