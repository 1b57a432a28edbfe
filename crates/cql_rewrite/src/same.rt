//! The equality of two filters, with their places or but for them. The comparison ends at the first difference.
ghost use Rattle.std.specs.Prelude.{◌≡◌, ◌==◌, ◌&&◌};
ghost use Rattle.std.specs.Str.{bytes_eq};
ghost use Rattle.cql_syntax.specs.Leaves as leaves;
ghost use Rattle.cql_syntax.specs.Same as spec;
ghost use Rattle.cql_syntax.specs.Unplaced as places;
ghost use Rattle.cql_syntax.specs.TreeOf.{filter_tree, form_tree, filters_tree, terms_tree, line_tree, played_tree, written_tree, parts_tree, body_tree};

use crate::leaves::{
    same_chain, same_designator, same_extent, same_family, same_field, same_flag, same_kind,
    same_mark, same_of, same_outcome, same_pair, same_plain, same_unary, same_way,
};
use cq_common::Bytes;
use cql_syntax::{
    Body, Constituent, Constituents, Filter, Filters, Form, Line, Played, Term, Terms,
};

/// Returns true if two filters are the same.
#[tactic(auto, using(crate::proofs::Placed::with_all))]
pub fn same_filter(f: &Filter, g: &Filter) -> bool
    ensures { result ≡ spec.same_filter (filter_tree f.now) (filter_tree g.now) }
{
    same_as(true, f, g)
}

/// Returns true if two filters are the same but for their places: the bytes at which they and the filters
/// in them begin.
pub fn same_unplaced(f: &Filter, g: &Filter) -> bool
    ensures { result ≡ places.same_unplaced (filter_tree f.now) (filter_tree g.now) }
{
    same_as(false, f, g)
}

// The same test, by their places too if these count.
#[cycle(same)]
#[tactic(auto, unfolding(cql_syntax::specs::Same::same_filter, cql_syntax::specs::Unplaced::with_places))]
fn same_as(placed: bool, f: &Filter, g: &Filter) -> bool
    ensures { result ≡ spec.same_filter (places.with_places placed (filter_tree f.now)) (places.with_places placed (filter_tree g.now)) }
{
    same_place(placed, f.at, g.at) && same_form(placed, &f.form, &g.form)
}

// True if two places are the same, or if places don't count.
fn same_place(placed: bool, a: u32, b: u32) -> bool
    ensures { result ≡ (places.place_if placed a == places.place_if placed b) }
{
    if placed {
        return a == b;
    }
    true
}

#[cycle(same)]
#[tactic(auto, unfolding(cql_syntax::specs::Same::same_filter, cql_syntax::specs::Unplaced::with_places))]
fn same_form(placed: bool, f: &Form, g: &Form) -> bool
    ensures { result ≡ spec.same_form (places.form_with placed (form_tree f.now)) (places.form_with placed (form_tree g.now)) }
{
    match (f, g) {
        (Form::Squares(d), Form::Squares(e)) => same_designator(d, e),
        (Form::Number(m), Form::Number(n)) => *m == *n,
        (Form::Name(a), Form::Name(b)) => same_text(a, b),
        (Form::Plain(v), Form::Plain(w)) => same_plain(*v, *w),
        (Form::Tagged(c, a), Form::Tagged(d, b)) => same_field(*c, *d) && same_text(a, b),
        (Form::Outcome(o), Form::Outcome(p)) => same_outcome(*o, *p),
        (Form::Elo(v), Form::Elo(w)) => same_of(*v, *w),
        (Form::Unary(u, a), Form::Unary(v, b)) => same_unary(*u, *v) && same_as(placed, a, b),
        (Form::Steps(v, m, n, a), Form::Steps(w, i, j, b)) => {
            same_way(*v, *w) && *m == *i && *n == *j && same_as(placed, a, b)
        }
        (Form::Chain(c, a), Form::Chain(d, b)) => same_chain(*c, *d) && same_filters(placed, a, b),
        (Form::Sum(a), Form::Sum(b)) => same_terms(placed, a, b),
        (Form::Pair(c, a, b), Form::Pair(d, x, y)) => {
            same_pair(*c, *d) && same_as(placed, a, x) && same_as(placed, b, y)
        }
        (Form::If(a, b, c), Form::If(x, y, z)) => same_as(placed, a, x)
            && same_as(placed, b, y)
            && same_as(placed, c, z),
        (Form::Square(c, s, a, b), Form::Square(d, t, x, y)) => {
            same_flag(*c, *d) && same_text(s, t) && same_as(placed, a, x) && same_as(placed, b, y)
        }
        (Form::Line(a), Form::Line(b)) => same_line(placed, a, b),
        (Form::Played(a), Form::Played(b)) => same_played(placed, a, b),
        (Form::Transform(c, a), Form::Transform(d, b)) => same_family(*c, *d)
            && same_as(placed, a, b),
        (Form::Sort(c, s, a), Form::Sort(d, t, b)) => {
            same_flag(*c, *d) && same_text(s, t) && same_as(placed, a, b)
        }
        (Form::Comment(a), Form::Comment(b)) => same_text(a, b),
        (Form::Any(c, a), Form::Any(d, b)) => same_kind(*c, *d) && same_filters(placed, a, b),
        _ => false,
    }
}

fn same_text(a: &Bytes, b: &Bytes) -> bool
    ensures { result ≡ bytes_eq a.now b.now }
{
    *a == *b
}

#[cycle(same)]
fn same_filters(placed: bool, a: &Filters, b: &Filters) -> bool
    ensures { result ≡ spec.same_filters (places.all_with placed (filters_tree a.now)) (places.all_with placed (filters_tree b.now)) }
{
    let (first, second) = (a.as_slice(), b.as_slice());
    if first.len() != second.len() {
        return false;
    }
    for k in 0..first.len() {
        if !same_as(placed, &first[k], &second[k]) {
            return false;
        }
    }
    true
}

#[cycle(same)]
fn same_term(placed: bool, a: &Term, b: &Term) -> bool
    ensures { result ≡ (leaves.same_flag a.now.minus b.now.minus
        && spec.same_filter (places.with_places placed (filter_tree a.now.filter)) (places.with_places placed (filter_tree b.now.filter))) }
{
    same_flag(a.minus, b.minus) && same_as(placed, &a.filter, &b.filter)
}

#[cycle(same)]
fn same_terms(placed: bool, a: &Terms, b: &Terms) -> bool
    ensures { result ≡ spec.same_terms (places.terms_with placed (terms_tree a.now)) (places.terms_with placed (terms_tree b.now)) }
{
    let (first, second) = (a.as_slice(), b.as_slice());
    if first.len() != second.len() {
        return false;
    }
    for k in 0..first.len() {
        if !same_term(placed, &first[k], &second[k]) {
            return false;
        }
    }
    true
}

#[cycle(same)]
#[tactic(auto, unfolding(cql_syntax::specs::Same::same_filter, cql_syntax::specs::Unplaced::with_places))]
fn same_line(placed: bool, a: &Line, b: &Line) -> bool
    ensures { result ≡ spec.same_line (places.line_with placed (line_tree a.now)) (places.line_with placed (line_tree b.now)) }
{
    same_flag(a.back, b.back)
        && same_flag(a.primary, b.primary)
        && same_extent(&a.extent, &b.extent)
        && same_parts(placed, &a.parts, &b.parts)
}

#[cycle(same)]
#[tactic(auto, unfolding(cql_syntax::specs::Same::same_filter, cql_syntax::specs::Unplaced::with_places))]
fn same_played(placed: bool, a: &Played, b: &Played) -> bool
    ensures { result ≡ spec.same_played (places.played_with placed (played_tree a.now)) (places.played_with placed (played_tree b.now)) }
{
    if !same_written(placed, &a.origin, &b.origin) || !same_written(placed, &a.goal, &b.goal) {
        return false;
    }
    if !same_written(placed, &a.taken, &b.taken) {
        return false;
    }
    same_written(placed, &a.promoted, &b.promoted)
}

#[cycle(same)]
#[tactic(auto, unfolding(cql_syntax::specs::Same::same_filter, cql_syntax::specs::Unplaced::with_places))]
fn same_written(placed: bool, a: &Option<Box<Filter>>, b: &Option<Box<Filter>>) -> bool
    ensures { result
        ≡ spec.same_written (places.written_with placed (written_tree a.now)) (places.written_with placed (written_tree b.now)) }
{
    match (a, b) {
        (Some(f), Some(g)) => same_as(placed, f, g),
        (None, None) => true,
        _ => false,
    }
}

#[cycle(same)]
fn same_part(placed: bool, a: &Constituent, b: &Constituent) -> bool
    ensures { result ≡ (spec.same_body (places.body_with placed (body_tree a.now.body)) (places.body_with placed (body_tree b.now.body))
        && leaves.same_mark a.now.mark b.now.mark) }
{
    same_body(placed, &a.body, &b.body) && same_mark(a.mark, b.mark)
}

#[cycle(same)]
fn same_parts(placed: bool, a: &Constituents, b: &Constituents) -> bool
    ensures { result ≡ spec.same_parts (places.parts_with placed (parts_tree a.now)) (places.parts_with placed (parts_tree b.now)) }
{
    let (first, second) = (a.as_slice(), b.as_slice());
    if first.len() != second.len() {
        return false;
    }
    for k in 0..first.len() {
        if !same_part(placed, &first[k], &second[k]) {
            return false;
        }
    }
    true
}

#[cycle(same)]
#[tactic(auto, unfolding(cql_syntax::specs::Same::same_filter, cql_syntax::specs::Unplaced::with_places))]
fn same_body(placed: bool, a: &Body, b: &Body) -> bool
    ensures { result ≡ spec.same_body (places.body_with placed (body_tree a.now)) (places.body_with placed (body_tree b.now)) }
{
    match (a, b) {
        (Body::Atom(f), Body::Atom(g)) => same_as(placed, f, g),
        (Body::Group(first), Body::Group(second)) => same_parts(placed, first, second),
        _ => false,
    }
}
