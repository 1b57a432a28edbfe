//! The equality of two values without a tree below them.
ghost use Rattle.std.specs.Prelude.{◌≡◌};
ghost use Rattle.cql_syntax.specs.Leaves as spec;
ghost use Rattle.cql_syntax.specs.declared.extents.Extent.TheVariants.{Within};

use cq_symmetry::Family;
use cql_syntax::{
    Chain, Designator, Extent, Field, Kind, Mark, Of, Outcome, Pair, Plain, Unary, Way,
};

pub(crate) fn same_plain(a: Plain, b: Plain) -> bool
    ensures { result ≡ spec.same_plain a b }
{
    a as u8 == b as u8
}

pub(crate) fn same_of(a: Of, b: Of) -> bool
    ensures { result ≡ spec.same_of a b }
{
    a as u8 == b as u8
}

pub(crate) fn same_outcome(a: Outcome, b: Outcome) -> bool
    ensures { result ≡ spec.same_outcome a b }
{
    a as u8 == b as u8
}

pub(crate) fn same_unary(a: Unary, b: Unary) -> bool
    ensures { result ≡ spec.same_unary a b }
{
    a as u8 == b as u8
}

pub(crate) fn same_way(a: Way, b: Way) -> bool
    ensures { result ≡ spec.same_way a b }
{
    a as u8 == b as u8
}

pub(crate) fn same_chain(a: Chain, b: Chain) -> bool
    ensures { result ≡ spec.same_chain a b }
{
    a as u8 == b as u8
}

pub(crate) fn same_pair(a: Pair, b: Pair) -> bool
    ensures { result ≡ spec.same_pair a b }
{
    a as u8 == b as u8
}

pub(crate) fn same_family(a: Family, b: Family) -> bool
    ensures { result ≡ spec.same_family a b }
{
    a as u8 == b as u8
}

pub(crate) fn same_kind(a: Kind, b: Kind) -> bool
    ensures { result ≡ spec.same_kind a b }
{
    a as u8 == b as u8
}

pub(crate) fn same_flag(a: bool, b: bool) -> bool
    ensures { result ≡ spec.same_flag a b }
{
    if a { b } else { !b }
}

pub(crate) fn same_designator(a: &Designator, b: &Designator) -> bool
    ensures { result ≡ spec.same_designator a.now b.now }
{
    a.men == b.men
        && a.part.squares == b.part.squares
        && same_flag(a.part.whole_ranks, b.part.whole_ranks)
        && same_flag(a.part.whole_files, b.part.whole_files)
}

pub(crate) fn same_field(a: Field, b: Field) -> bool
    ensures { result ≡ spec.same_field a b }
{
    match (a, b) {
        (Field::Player(of), Field::Player(other)) => same_of(of, other),
        (Field::Event, Field::Event) | (Field::Site, Field::Site) => true,
        _ => false,
    }
}

pub(crate) fn same_mark(a: Mark, b: Mark) -> bool
    ensures { result ≡ spec.same_mark a b }
{
    match (a, b) {
        (Mark::Once, Mark::Once) | (Mark::Star, Mark::Star) => true,
        (Mark::Plus, Mark::Plus) | (Mark::Maybe, Mark::Maybe) => true,
        (Mark::Times(least, most), Mark::Times(other_least, other_most)) => {
            least == other_least && most == other_most
        }
        _ => false,
    }
}

pub(crate) fn same_extent(a: &Extent, b: &Extent) -> bool
    ensures { result ≡ spec.same_extent a.now b.now }
{
    match a {
        Extent::Any => matches!(b, Extent::Any),
        Extent::Within(least, most) => is_within(b, least.nodes(), most.nodes()),
    }
}

// True if an extent has these ends.
fn is_within(extent: &Extent, least: u32, most: u32) -> bool
    ensures { result ≡ spec.same_extent (Within least most) extent.now }
{
    match extent {
        Extent::Any => false,
        Extent::Within(first, last) => least == first.nodes() && most == last.nodes(),
    }
}
