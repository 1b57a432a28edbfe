//! The names that are bound at a filter.
ghost use Rattle.std.specs.Prelude.{◌≡◌};
ghost use Rattle.std.specs.List.{list_any};
ghost use Rattle.std.specs.Str.{bytes_eq};
ghost use Rattle.cql_kinds.specs.Internal.TypingContexts.{names_in};

/// The names that are bound, the innermost first.
#[derive(Drop)]
pub enum BoundNames<'a> {
    Unbound,
    Bound(&'a [u8], &'a BoundNames<'a>),
}

impl BoundNames<'_> {
    /// Returns true if the name is bound.
    pub fn binds(&self, name: &[u8]) -> bool
        ensures { result ≡ list_any (λ bound. bytes_eq bound name.now) (names_in self.now) }
    {
        match self {
            BoundNames::Unbound => false,
            BoundNames::Bound(bound, outer) => *bound == name || outer.binds(name),
        }
    }
}
