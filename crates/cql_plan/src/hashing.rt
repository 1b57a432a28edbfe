//! A hash of the designators of a filter.
//!
//! Filters that are the same but for their places have the same hash. The members of a family differ most often in their designators, so
//! others mostly have another hash. No result depends on it.

use cql_syntax::{Body, Constituents, Filter, Filters, Form, Played, Terms};

/// The key of a filter.
pub(crate) fn key_of(f: &Filter) -> u64 {
    keyed(0, f)
}

fn mixed(key: u64, word: u64) -> u64 {
    let product = (key ^ word).wrapping_mul(0x9e37_79b9_7f4a_7c15);
    product ^ (product >> 32)
}

#[cycle(keyed)]
fn keyed(key: u64, f: &Filter) -> u64 {
    match &f.form {
        Form::Squares(d) => mixed(mixed(key, d.part.squares), u64::from(d.men)),
        Form::Unary(_, part) | Form::Steps(.., part) | Form::Sort(.., part) => keyed(key, part),
        Form::Transform(_, part) => keyed(key, part),
        Form::Chain(_, parts) | Form::Any(_, parts) => hash_all(key, parts),
        Form::Sum(terms) => hash_terms(key, terms),
        Form::Pair(_, first, second) | Form::Square(.., first, second) => {
            keyed(keyed(key, first), second)
        }
        Form::If(condition, then, otherwise) => {
            keyed(keyed(keyed(key, condition), then), otherwise)
        }
        Form::Line(line) => hash_parts(key, &line.parts),
        Form::Played(played) => hash_played(key, played),
        Form::Number(_) | Form::Name(_) | Form::Plain(_) | Form::Tagged(..) => key,
        Form::Outcome(_) | Form::Elo(_) | Form::Comment(_) => key,
    }
}

#[cycle(keyed)]
fn hash_all(key: u64, filters: &Filters) -> u64 {
    let mut mixed = key;
    for filter in filters.as_slice() {
        mixed = keyed(mixed, filter);
    }
    mixed
}

#[cycle(keyed)]
fn hash_terms(key: u64, terms: &Terms) -> u64 {
    let mut mixed = key;
    for term in terms.as_slice() {
        mixed = keyed(mixed, &term.filter);
    }
    mixed
}

#[cycle(keyed)]
fn hash_parts(key: u64, parts: &Constituents) -> u64 {
    let mut mixed = key;
    for part in parts.as_slice() {
        mixed = hash_body(mixed, &part.body);
    }
    mixed
}

#[cycle(keyed)]
fn hash_body(key: u64, body: &Body) -> u64 {
    match body {
        Body::Atom(filter) => keyed(key, filter),
        Body::Group(parts) => hash_parts(key, parts),
    }
}

#[cycle(keyed)]
fn hash_played(key: u64, played: &Played) -> u64 {
    let squares = hash_written(hash_written(key, &played.origin), &played.goal);
    hash_written(hash_written(squares, &played.taken), &played.promoted)
}

#[cycle(keyed)]
fn hash_written(key: u64, written: &Option<Box<Filter>>) -> u64 {
    match written {
        Some(filter) => keyed(key, filter),
        None => key,
    }
}
