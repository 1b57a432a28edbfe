//! The kind of a filter.
ghost use Rattle.std.specs.Prelude.{◌≡◌};
ghost use Rattle.cql_syntax.specs.Kinds.{filter_kind};
ghost use Rattle.cql_syntax.specs.TreeOf.{filter_tree};

use crate::leaves::Kind;
use crate::tree::{Filter, Form};

/// Returns the kind of a filter's value. A family has the kind of its part.
pub fn kind_of(f: &Filter) -> Kind
    ensures { result ≡ filter_kind (filter_tree f.now) }
{
    match &f.form {
        Form::Squares(_) | Form::Name(_) | Form::Steps(..) => Kind::Set,
        Form::Number(_) | Form::Elo(_) | Form::Sum(_) | Form::Line(_) => Kind::Number,
        Form::Tagged(..) | Form::Outcome(_) | Form::Comment(_) => Kind::Position,
        Form::If(..) | Form::Square(..) | Form::Played(_) | Form::Sort(..) => Kind::Position,
        Form::Plain(word) => word.kind(),
        Form::Unary(unary, _) => unary.kind(),
        Form::Chain(chain, _) => chain.kind(),
        Form::Pair(pair, ..) => pair.kind(),
        Form::Transform(_, part) => kind_of(part),
        Form::Any(kind, _) => *kind,
    }
}
