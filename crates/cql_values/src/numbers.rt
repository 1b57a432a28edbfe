//! Numbers made of values.
ghost use Rattle.std.specs.Prelude.{◌≡◌, ◌≤◌, ◌||◌, ℕ, Bool, Some, map, count_by, sum_by, if◌then◌else◌};
ghost use Rattle.std.specs.Int.{int_max, int_min};
ghost use Rattle.cq_geometry.specs.Squares.{squares};
ghost use Rattle.cq_position.specs.Bitboards.{IsBitboard};
ghost use Rattle.cq_position.specs.Board.{stands};
ghost use Rattle.cql_syntax.specs.Values as spec;
ghost use Rattle.cql_values.specs.ValueModel.{as_value, terms_as_values};
ghost use Rattle.cql_values.specs.Internal.Squares.{piece_value_in};

use crate::value::Value;
use cq_position::{Man, Men, Position};

/// Returns the product of some numbers, from left to right. It has no value once it leaves 64 bits, or if a factor has none.
pub fn product(values: &[Value]) -> Value
    ensures { as_value result ≡ spec.product_of (map as_value values.now) }
{
    let mut total = Some(1);
    for value in values {
        total = times(total, *value);
    }
    Value::Number(total)
}

// A product with one more factor.
fn times(total: Option<i64>, value: Value) -> Option<i64>
    ensures { result ≡ spec.times_one total (as_value value) }
{
    total?.checked_mul(value.number()?)
}

/// Returns the sum of some terms, from left to right. A term is subtracted if its flag is true, else added. The sum has no value once it
/// leaves 64 bits, or if a term has none.
pub fn total(terms: &[(bool, Value)]) -> Value
    ensures { as_value result ≡ spec.total_of (terms_as_values terms.now) }
{
    let mut total = Some(0);
    for term in terms {
        total = plus(total, *term);
    }
    Value::Number(total)
}

// A sum with one more term.
fn plus(total: Option<i64>, term: (bool, Value)) -> Option<i64>
    ensures { result ≡ spec.plus_one total (term.0, as_value term.1) }
{
    let (minus, value) = term;
    let total = total?;
    let number = value.number()?;
    if minus {
        total.checked_sub(number)
    } else {
        total.checked_add(number)
    }
}

/// Returns the greatest of some numbers. It has no value if one of them has none, or if there is no number.
pub fn greatest_of_all(values: &[Value]) -> Value
    ensures { as_value result ≡ spec.as_number (spec.chosen_from int_max (map as_value values.now)) }
{
    let Some((first, rest)) = values.split_first() else {
        return Value::Number(None);
    };
    let mut chosen = first.number();
    for value in rest {
        chosen = greater_of_both(chosen, *value);
    }
    Value::Number(chosen)
}

fn greater_of_both(a: Option<i64>, value: Value) -> Option<i64>
    ensures { result ≡ spec.of_both (λ x y. Some (int_max x y)) a (spec.amount (as_value value)) }
{
    Some(a?.max(value.number()?))
}

/// Returns the least of some numbers. It has no value if one of them has none, or if there is no number.
pub fn least_of_all(values: &[Value]) -> Value
    ensures { as_value result ≡ spec.as_number (spec.chosen_from int_min (map as_value values.now)) }
{
    let Some((first, rest)) = values.split_first() else {
        return Value::Number(None);
    };
    let mut chosen = first.number();
    for value in rest {
        chosen = less_of_both(chosen, *value);
    }
    Value::Number(chosen)
}

fn less_of_both(a: Option<i64>, value: Value) -> Option<i64>
    ensures { result ≡ spec.of_both (λ x y. Some (int_min x y)) a (spec.amount (as_value value)) }
{
    Some(a?.min(value.number()?))
}

/// Returns the greatest of the numbers that have a value.
pub fn greatest(values: &[Value]) -> Option<i64>
    ensures { result ≡ spec.greatest (map as_value values.now) }
{
    let mut found = None;
    for value in values {
        found = greater(found, value.number());
    }
    found
}

/// Returns the greater of two numbers, or the one that has a value.
pub fn greater(a: Option<i64>, b: Option<i64>) -> Option<i64>
    ensures { result ≡ spec.greater a b }
{
    match (a, b) {
        (Some(a), Some(b)) => Some(a.max(b)),
        (None, b) => b,
        (a, None) => a,
    }
}

/// Returns the number of squares of a set.
pub fn size(x: Value) -> Value
    ensures { as_value result ≡ spec.size_of (as_value x) }
{
    count_value(count(x.squares()))
}

/// Returns the value of a number that always has one.
pub fn count_value(n: u32) -> Value
    ensures { as_value result ≡ spec.count n }
{
    Value::Number(Some(i64::from(n)))
}

// The number of squares of a set.
fn count(set: u64) -> u32
    ensures value { (test : ℕ → Bool) → IsBitboard set test → result ≡ count_by test squares }
    ensures few { result ≤ 64 }
{
    set.count_ones()
}

/// Returns 1 if the argument is true, else 0.
pub fn one_if(there: bool) -> u32
    ensures { result ≡ (if there then 1 else 0) }
{
    if there { 1 } else { 0 }
}

/// Returns the sum of the men on a set: a pawn counts 1, a knight and a bishop 3, a rook 5 and a queen 9.
pub fn power(position: &Position, x: Value) -> Value
    ensures { as_value result ≡ spec.power_of position.now.men (as_value x) }
{
    count_value(material_of(position.men(), x.squares()))
}

fn material_of(men: &Men, set: u64) -> u32
    ensures { result ≡ sum_by (piece_value_in men.now set) squares }
{
    let minor = either_side(men, Man::N, Man::BlackN) | either_side(men, Man::B, Man::BlackB);
    count(set & either_side(men, Man::P, Man::BlackP))
        + 3 * count(set & minor)
        + 5 * count(set & either_side(men, Man::R, Man::BlackR))
        + 9 * count(set & either_side(men, Man::Q, Man::BlackQ))
}

// The squares of either man.
fn either_side(men: &Men, white: Man, black: Man) -> u64
    ensures { IsBitboard result (λ square. stands men.now square white || stands men.now square black) }
{
    men.squares_of(white) | men.squares_of(black)
}
