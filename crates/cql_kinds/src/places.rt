//! The places of a line.
ghost use Rattle.std.specs.Prelude.{◌≡◌, ◌*◌, ◌+◌, min};
ghost use Rattle.cql_syntax.specs.Limits.{most_places};
ghost use Rattle.cql_syntax.specs.Places.{places, parts_places, body_places, copies};
ghost use Rattle.cql_syntax.specs.TreeOf.{line_tree, parts_tree, body_tree};

use cql_syntax::{Body, Constituents, Line, Mark};

/// The greatest number of places that a line may have.
pub const PLACES_LIMIT: u64 = 64;

/// Returns the number of places of a line, or 65 if it has more than 64.
pub fn places_of(line: &Line) -> u64
    ensures { result ≡ min (places (line_tree line.now)) (most_places + 1) }
{
    places_of_parts(&line.parts)
}

// The number of places of a part with its mark.
fn places_marked(mark: Mark, places: u64) -> u64
    ensures { result ≡ min (copies mark * places) (most_places + 1) }
{
    let copies = match mark {
        Mark::Times(_, most) => most.max(1),
        Mark::Once | Mark::Star | Mark::Plus | Mark::Maybe => 1,
    };
    u64::from(copies)
        .saturating_mul(places)
        .min(PLACES_LIMIT + 1)
}

#[cycle(places)]
fn places_of_parts(parts: &Constituents) -> u64
    ensures { result ≡ min (parts_places (parts_tree parts.now)) (most_places + 1) }
{
    let mut total = 0u64;
    for part in parts.as_slice() {
        let places = places_marked(part.mark, places_of_body(&part.body));
        total = total.saturating_add(places).min(PLACES_LIMIT + 1);
    }
    total
}

#[cycle(places)]
fn places_of_body(body: &Body) -> u64
    ensures { result ≡ min (body_places (body_tree body.now)) (most_places + 1) }
{
    match body {
        Body::Atom(_) => 1,
        Body::Group(parts) => places_of_parts(parts),
    }
}
