//! The value of a filter at a node.
ghost use Rattle.std.specs.Prelude.{◌≡◌};
ghost use Rattle.cq_symmetry.specs.Images.{is_in};
ghost use Rattle.cql_syntax.specs.Values as spec;
ghost use Rattle.cql_values.specs.ValueModel.{as_value};

/// The value of a filter at a node: a truth, a set of squares, or a number that may have no value.
#[derive(Clone, Copy, Debug, PartialEq, Eq)]
pub enum Value {
    Truth(bool),
    /// Bit k is square k.
    Set(u64),
    Number(Option<i64>),
}

impl Value {
    /// Returns the value as a truth. A set holds if it has a square, a number if it has a value.
    pub fn holds(self) -> bool
        ensures { result ≡ spec.holds (as_value self) }
    {
        match self {
            Value::Truth(holds) => holds,
            Value::Set(squares) => squares != 0,
            Value::Number(number) => number.is_some(),
        }
    }

    /// Returns the value as a set, which is empty if the value is no set.
    #[tactic(auto, using(crate::proofs::Masks::no_squares))]
    pub fn squares(self) -> u64
        ensures { spec.has (as_value self) ≡ is_in result }
    {
        match self {
            Value::Set(squares) => squares,
            Value::Truth(_) | Value::Number(_) => 0,
        }
    }

    /// Returns the value as a number. It has no value if the value is no number.
    pub fn number(self) -> Option<i64>
        ensures { result ≡ spec.amount (as_value self) }
    {
        match self {
            Value::Number(number) => number,
            Value::Truth(_) | Value::Set(_) => None,
        }
    }
}
