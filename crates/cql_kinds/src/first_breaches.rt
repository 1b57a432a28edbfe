//! The first filters of a query that a limit depends on.
ghost use Rattle.std.specs.Prelude.{◌≡◌, ◌∷◌, []};

use crate::places::{PLACES_LIMIT, places_of};
use crate::typing_context::{SQUARES_LIMIT, TypingContext};
use cql_syntax::{Filter, Form};

/// The bytes of the first filters of some kinds.
#[derive(Clone, Copy)]
pub struct FirstBreaches {
    /// The first line of more than 64 places.
    pub line: Option<u32>,
    /// The first `square` with four around it.
    pub square: Option<u32>,
    /// The first family.
    pub family: Option<u32>,
}

impl FirstBreaches {
    ghost use Rattle.cql_kinds.specs.Internal.Walks.{with_breaches};
    ghost use Rattle.cql_kinds.specs.Internal.TypingContexts.{occurrence};

    /// Returns the same with one filter more.
    pub fn with(self, filter: &Filter, standing: TypingContext) -> FirstBreaches
        ensures { result ≡ with_breaches self (occurrence standing.entry filter.now ∷ []) }
    {
        let at = Some(filter.at);
        match &filter.form {
            Form::Line(line) if places_of(line) > PLACES_LIMIT => FirstBreaches {
                line: self.line.or(at),
                ..self
            },
            Form::Square(..) if standing.squares == SQUARES_LIMIT => FirstBreaches {
                square: self.square.or(at),
                ..self
            },
            Form::Transform(..) => FirstBreaches {
                family: self.family.or(at),
                ..self
            },
            _ => self,
        }
    }
}
