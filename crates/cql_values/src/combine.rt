//! The values of filters with parts, by the values of the parts.
ghost use Rattle.std.specs.Prelude.{◌≡◌, List, map, int_lt, int_le};
ghost use Rattle.std.specs.List.{list_any, list_all};
ghost use Rattle.cq_position.specs.declared.men.Man.{Man};
ghost use Rattle.cq_symmetry.specs.Images.{is_in};
ghost use Rattle.cql_syntax.specs.Values as spec;
ghost use Rattle.cql_values.specs.FilterValues.{unary_result, is_true};
ghost use Rattle.cql_values.specs.ValueModel.{as_value};

use crate::numbers::{greatest, greatest_of_all, least_of_all, power, product, size};
use crate::sets::{attacked_by, attacking, between, complement, dark, intersection, light, union};
use crate::value::Value;
use cq_position::Position;
use cql_syntax::{Chain, Kind, Pair, Unary};

fn some_holds(values: &[Value]) -> bool
    ensures { result ≡ list_any (λ v. spec.holds (as_value v)) values.now }
{
    values.iter().any(|value| value.holds())
}

fn all_hold(values: &[Value]) -> bool
    ensures { result ≡ list_all (λ v. spec.holds (as_value v)) values.now }
{
    values.iter().all(|value| value.holds())
}

/// Returns the value of a filter of any number of parts, by their values.
pub fn chain_of(chain: Chain, values: &[Value]) -> Value
    ensures { as_value result ≡ spec.chain_of chain (map as_value values.now) }
{
    match chain {
        Chain::Or => Value::Truth(some_holds(values)),
        Chain::And | Chain::All => Value::Truth(all_hold(values)),
        Chain::Union => Value::Set(union(values)),
        Chain::Intersect => Value::Set(intersection(values)),
        Chain::Product => product(values),
        Chain::Max => greatest_of_all(values),
        Chain::Min => least_of_all(values),
    }
}

/// Returns any of some values of a kind: true if one holds, their union, or the greatest of them.
pub fn any_of(kind: Kind, values: &[Value]) -> Value
    ensures { as_value result ≡ spec.any_of kind (map as_value values.now) }
{
    match kind {
        Kind::Position => Value::Truth(some_holds(values)),
        Kind::Set => Value::Set(union(values)),
        Kind::Number => Value::Number(greatest(values)),
    }
}

/// Returns the value of a filter of two parts, by their values.
#[inline(always)]
pub fn pair_of(position: &Position, pair: Pair, x: Value, y: Value) -> Value
    ensures { as_value result ≡ spec.pair_of position.now.men pair (as_value x) (as_value y) }
{
    match pair {
        Pair::Attacks | Pair::AttackedBy | Pair::Between => {
            Value::Set(related(position, pair, x, y))
        }
        Pair::Less | Pair::AtMost | Pair::Equal | Pair::AtLeast | Pair::Greater => {
            Value::Truth(compares(pair, x, y))
        }
    }
}

/// Returns the squares of a filter of two parts that relates men by attack, or that takes the squares between two sets. A comparison gives
/// no square.
#[inline(always)]
pub fn related(position: &Position, pair: Pair, x: Value, y: Value) -> u64
    ensures { is_in result ≡ spec.has (spec.pair_of position.now.men pair (as_value x) (as_value y)) }
{
    match pair {
        Pair::Attacks => attacking(position, x, y).squares(),
        Pair::AttackedBy => attacked_by(position, x, y).squares(),
        Pair::Between => between(x, y).squares(),
        Pair::Less | Pair::AtMost | Pair::Equal | Pair::AtLeast | Pair::Greater => 0,
    }
}

/// Returns true if two values compare as the filter requires. A filter of two parts that gives squares compares nothing, and the result is
/// false.
#[inline(always)]
pub fn compares(pair: Pair, x: Value, y: Value) -> bool
    ensures { (men : List Man) → result ≡ is_true (spec.pair_of men pair (as_value x) (as_value y)) }
{
    match pair {
        Pair::Less => is_less(x, y),
        Pair::AtMost => is_at_most(x, y),
        Pair::Equal => is_at_most(x, y) && is_at_most(y, x),
        Pair::AtLeast => is_at_most(y, x),
        Pair::Greater => is_less(y, x),
        Pair::Attacks | Pair::AttackedBy | Pair::Between => false,
    }
}

// True if both have a number, and the first is less.
fn is_less(x: Value, y: Value) -> bool
    ensures { result ≡ spec.compares int_lt (spec.amount (as_value x)) (spec.amount (as_value y)) }
{
    match (x.number(), y.number()) {
        (Some(a), Some(b)) => a < b,
        _ => false,
    }
}

// True if both have a number, and the first is at most the second.
fn is_at_most(x: Value, y: Value) -> bool
    ensures { result ≡ spec.compares int_le (spec.amount (as_value x)) (spec.amount (as_value y)) }
{
    match (x.number(), y.number()) {
        (Some(a), Some(b)) => a <= b,
        _ => false,
    }
}

/// Returns the truth of the second value if the first holds, else of the third.
pub fn if_of(x: Value, y: Value, z: Value) -> Value
    ensures { as_value result ≡ spec.if_of (as_value x) (as_value y) (as_value z) }
{
    Value::Truth(if x.holds() { y.holds() } else { z.holds() })
}

/// Returns the value of a word or mark before a part, by the part's value at the same node. For a word that searches other nodes the result
/// is that of `not`.
#[inline(always)]
pub fn unary_of_value(word: Unary, position: &Position, x: Value) -> Value
    ensures { as_value result ≡ unary_result position.now.men word (as_value x) }
{
    match word {
        Unary::Complement => complement(x),
        Unary::Count => size(x),
        Unary::Power => power(position, x),
        Unary::Light => light(x),
        Unary::Dark => dark(x),
        Unary::Not | Unary::Find | Unary::FindUp | Unary::Child | Unary::Parent => {
            Value::Truth(!x.holds())
        }
    }
}
