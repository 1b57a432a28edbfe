//! The kinds that filters require of their parts.
ghost use Rattle.std.specs.Prelude.{◌≡◌};
ghost use Rattle.cql_syntax.specs.OperandKinds.{unary_operand_kind, pair_operand_kind};

use cql_syntax::{Kind, Pair, Unary};

/// Returns the kind required after a word or mark.
pub fn unary_operand_kind(unary: Unary) -> Kind
    ensures { result ≡ unary_operand_kind unary }
{
    match unary {
        Unary::Not | Unary::Find | Unary::FindUp | Unary::Child | Unary::Parent => Kind::Position,
        Unary::Complement | Unary::Count | Unary::Power | Unary::Light | Unary::Dark => Kind::Set,
    }
}

/// Returns the kind required of both parts of a filter of two parts.
pub fn pair_operand_kind(pair: Pair) -> Kind
    ensures { result ≡ pair_operand_kind pair }
{
    match pair {
        Pair::Attacks | Pair::AttackedBy | Pair::Between => Kind::Set,
        Pair::Less | Pair::AtMost | Pair::Equal | Pair::AtLeast | Pair::Greater => Kind::Number,
    }
}
