//! The context of a filter in its query.
ghost use Rattle.std.specs.Prelude.{◌≡◌};
ghost use Rattle.cql_syntax.specs.Occurrences.{part_of, part_of_square};
ghost use Rattle.cql_syntax.specs.declared.leaves.Kind.TheVariants.{Position};
ghost use Rattle.cql_kinds.specs.Internal.TypingContexts.{typing_context_of, names_in, with_names, counted};

use crate::bound_names::BoundNames;
use cql_syntax::Kind;

/// The greatest number of nested `square`.
pub const SQUARES_LIMIT: u8 = 4;

/// The context of a filter in its query.
#[derive(Clone, Copy)]
pub struct TypingContext<'a> {
    /// The kind that is required of the filter.
    pub wanted: Kind,
    /// The names that are bound at the filter.
    pub names: &'a BoundNames<'a>,
    /// The number of `square` around the filter, counted up to `SQUARES_LIMIT + 1`.
    pub squares: u8,
    /// For a top item, the number of sort items before it.
    pub item: Option<usize>,
}

impl<'a> TypingContext<'a> {
    /// Returns the context of a part of the filter, with its required kind.
    pub fn part(self, wanted: Kind) -> TypingContext<'a>
        ensures { typing_context_of result ≡ part_of (typing_context_of self.entry) wanted }
    {
        TypingContext {
            wanted,
            item: None,
            ..self
        }
    }

    /// Returns the context of a part of a `square`, with its required kind.
    pub fn part_of_square(self, wanted: Kind) -> TypingContext<'a>
        ensures { typing_context_of result ≡ counted (part_of_square (typing_context_of self.entry) wanted) }
    {
        TypingContext {
            squares: self.squares.saturating_add(1).min(SQUARES_LIMIT + 1),
            ..self.part(wanted)
        }
    }

    /// Returns the context of the condition of a `square`, in which these names are bound.
    pub fn square_condition<'b>(self, names: &'b BoundNames<'b>) -> TypingContext<'b>
        ensures { typing_context_of result ≡ counted (with_names (part_of_square (typing_context_of self.entry) Position) (names_in names.now)) }
    {
        let part = self.part_of_square(Kind::Position);
        TypingContext {
            wanted: part.wanted,
            names,
            squares: part.squares,
            item: part.item,
        }
    }
}
