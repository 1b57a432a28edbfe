//! The order in which filters are evaluated.
ghost use Rattle.std.specs.Prelude.{◌≡◌, false};
ghost use Rattle.cq_symmetry.specs.Images.{is_in};
ghost use Rattle.cql_syntax.specs.TreeOf.{filter_tree};
ghost use Rattle.cql_candidates.specs.Classes.{filter_class, is_of, CoverClasses};

use cql_syntax::{Filter, Form};

/// The number of classes of filters.
pub const COST_CLASSES: u32 = 6;

/// The class of the sort items, the last.
pub const SORT_CLASS: u32 = 5;

/// The class of a filter by its outermost form, as a guess at its cost. The classes are, in this order: the same at all nodes, words and
/// designators, filters with parts, lines, squares that are tried one by one, sort items.
#[tactic(auto, unfolding(crate::specs::Classes::form_class))]
pub fn class_of(filter: &Filter) -> u32
    ensures { result ≡ filter_class (filter_tree filter.now) }
{
    match &filter.form {
        Form::Number(_) | Form::Name(_) | Form::Tagged(..) | Form::Outcome(_) | Form::Elo(_) => 0,
        Form::Comment(_) => 0,
        Form::Squares(_) | Form::Plain(_) => 1,
        Form::Unary(..) | Form::Steps(..) | Form::Chain(..) | Form::Sum(_) | Form::Pair(..) => 2,
        Form::If(..) | Form::Played(_) | Form::Transform(..) | Form::Any(..) => 2,
        Form::Line(_) => 3,
        Form::Square(..) => 4,
        Form::Sort(..) => SORT_CLASS,
    }
}

/// Returns true if a filter is of a class.
pub fn is_of_class(filter: &Filter, class: u32) -> bool
    ensures { result ≡ is_of class (filter_tree filter.now) }
{
    class_of(filter) == class
}

/// The classes of some filters: bit k is set if one of them is of class k.
pub fn classes_of(filters: &[Filter]) -> u32
    ensures { CoverClasses result filters.now }
{
    let mut classes = 0;
    for filter in filters {
        classes |= 1 << class_of(filter);
    }
    classes
}

/// Returns false only if none of the classes is this one.
pub fn may_have(classes: u32, class: u32) -> bool
    ensures { result ≡ false → is_in classes class ≡ false }
{
    class >= 32 || classes >> class & 1 == 1
}
