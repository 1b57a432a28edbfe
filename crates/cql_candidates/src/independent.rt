//! Filters that are independent of names.
ghost use Rattle.std.specs.Prelude.{◌≡◌, ◌⊎◌, ◌∷◌, [], true, false, IfOk};
ghost use Rattle.std.specs.Str.{bytes_eq};
ghost use Rattle.cql_syntax.specs.TreeOf.{filter_tree, filters_tree, played_tree, written_tree};
ghost use Rattle.cql_syntax.specs.declared.leaves.Pair.TheVariants.{Attacks, AttackedBy};
ghost use Rattle.cql_candidates.specs.Covers.{IsIndependent, AreIndependent, IsIndependentMove, IsIndependentPart};

use cq_common::NoMemory;
use cq_geometry::Square;
use cql_syntax::{Filter, Filters, Form, Pair, Played};
use cql_values::names::Names;
use std::alloc::Global;

/// Returns true only if the filter has no line, and none of these names in a place that could change its value or its steps. Forms that it
/// doesn't look into give false.
#[cycle(is_independent)]
#[tactic(auto, unfolding(cql_syntax::specs::Meaning::value, cql_syntax::specs::Contexts::designator_image, cql_columns::specs::Costs::filter_cost))]
pub fn is_independent(opened: &Names, f: &Filter) -> bool
    ensures { result ≡ true → IsIndependent opened.now (filter_tree f.now) }
{
    match &f.form {
        Form::Squares(_) | Form::Number(_) | Form::Plain(_) | Form::Tagged(..) => true,
        Form::Outcome(_) | Form::Elo(_) | Form::Comment(_) => true,
        Form::Name(name) => !opened.squares_of(name.as_slice()).holds(),
        Form::Unary(_, part) => is_independent(opened, part),
        Form::Steps(_, _, _, part) => is_independent(opened, part),
        Form::Chain(_, parts) => are_independent(opened, parts),
        Form::Any(_, parts) => are_independent(opened, parts),
        Form::Pair(_, first, second) => is_independent(opened, first)
            && is_independent(opened, second),
        Form::Square(_, _, first, second) => is_independent(opened, first)
            && is_independent(opened, second),
        Form::Played(played) => is_independent_move(opened, played),
        Form::Sum(_) | Form::If(..) | Form::Sort(..) | Form::Line(_) | Form::Transform(..) => false,
    }
}

#[cycle(is_independent)]
fn are_independent(opened: &Names, parts: &Filters) -> bool
    ensures { result ≡ true → AreIndependent opened.now (filters_tree parts.now) }
{
    for part in parts.as_slice() {
        if !is_independent(opened, part) {
            return false;
        }
    }
    true
}

#[cycle(is_independent)]
#[tactic(auto, unfolding(cql_syntax::specs::Meaning::value, cql_columns::specs::Costs::filter_cost))]
fn is_independent_move(opened: &Names, played: &Played) -> bool
    ensures { result ≡ true → IsIndependentMove opened.now (played_tree played.now) }
{
    is_independent_part(opened, &played.origin)
        && is_independent_part(opened, &played.goal)
        && is_independent_part(opened, &played.taken)
        && is_independent_part(opened, &played.promoted)
}

/// Returns true only if a part is not written, or is independent of these names.
#[cycle(is_independent)]
#[tactic(auto, unfolding(cql_syntax::specs::Meaning::value, cql_columns::specs::Costs::filter_cost))]
pub fn is_independent_part(opened: &Names, part: &Option<Box<Filter>>) -> bool
    ensures { result ≡ true → IsIndependentPart opened.now (written_tree part.now) }
{
    match part {
        Some(part) => is_independent(opened, part),
        None => true,
    }
}

/// Returns true only if a part is written and independent of these names.
pub fn is_independent_and_present(opened: &Names, part: &Option<Box<Filter>>) -> bool
    ensures { result ≡ true → IsIndependentPart opened.now (written_tree part.now) }
{
    part.is_some() && is_independent_part(opened, part)
}

/// Returns true only if a `square` filter is about some square, not every one, and its name differs from another.
pub fn is_some_square_of_other_name(every: bool, inner: &[u8], name: &[u8]) -> bool
    ensures some { result ≡ true → every ≡ false }
    ensures other { result ≡ true → bytes_eq inner.now name.now ≡ false }
{
    !every && inner != name
}

/// A list of a name alone, bound to some square.
///
/// # Errors
///
/// `NoMemory` if out of memory.
pub fn only_name(alloc: Global, name: &[u8]) -> Result<Names, NoMemory>
    ensures { IfOk result (λ opened. opened ≡ (name.now, 0) ∷ []) }
{
    let mut opened = Names::new(alloc);
    opened.bind(name, Square::new(0))?;
    Ok(opened)
}

/// The relation of the second of two sets to the first.
pub fn converse(pair: Pair) -> Pair
    ensures attack { (result ≡ Attacks) ⊎ (result ≡ AttackedBy) }
    ensures attacks { pair ≡ Attacks → result ≡ AttackedBy }
    ensures attacked { pair ≡ AttackedBy → result ≡ Attacks }
{
    match pair {
        Pair::AttackedBy => Pair::Attacks,
        _ => Pair::AttackedBy,
    }
}
