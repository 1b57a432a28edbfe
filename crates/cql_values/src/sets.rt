//! Sets of squares made of sets. Bit k is square k.
ghost use Rattle.std.specs.Prelude.{◌≡◌, ◌&&◌};
ghost use Rattle.std.specs.List.{list_any, list_all};
ghost use Rattle.cq_geometry.specs.Squares.{squares};
ghost use Rattle.cq_position.specs.Attacks.{attacks};
ghost use Rattle.cq_position.specs.Bitboards.{IsBitboard};
ghost use Rattle.cq_symmetry.specs.Images.{is_in};
ghost use Rattle.cql_syntax.specs.Values as spec;
ghost use Rattle.cql_values.specs.ValueModel.{as_value};
ghost use Rattle.cql_values.specs.Internal.Squares.{is_step_to};

use crate::value::Value;
use cq_bits::{attacked, attackers_among, between_all};
use cq_geometry::{Compass, Square, toward};
use cq_position::Position;

/// The light squares: b1, d1, f1, h1, a2 and so on.
const LIGHT: u64 = 0x55aa_55aa_55aa_55aa;

/// Returns the squares that are not in a set.
pub fn complement(x: Value) -> Value
    ensures { as_value result ≡ spec.complement_of (as_value x) }
{
    Value::Set(!x.squares())
}

/// Returns the light squares of a set.
pub fn light(x: Value) -> Value
    ensures { as_value result ≡ spec.light_of (as_value x) }
{
    Value::Set(x.squares() & LIGHT)
}

/// Returns the dark squares of a set.
pub fn dark(x: Value) -> Value
    ensures { as_value result ≡ spec.dark_of (as_value x) }
{
    Value::Set(x.squares() & !LIGHT)
}

/// Returns the squares that are in one of some sets.
pub fn union(values: &[Value]) -> u64
    ensures { IsBitboard result (λ s. list_any (λ v. spec.has (as_value v) s) values.now) }
{
    let mut mask = 0;
    for value in values {
        mask |= value.squares();
    }
    mask
}

/// Returns the squares that are in each of some sets.
pub fn intersection(values: &[Value]) -> u64
    ensures { IsBitboard result (λ s. list_all (λ v. spec.has (as_value v) s) values.now) }
{
    let mut mask = u64::MAX;
    for value in values {
        mask &= value.squares();
    }
    mask
}

/// Returns true if a square is in a set.
pub fn has_square(set: u64, square: Square) -> bool
    ensures { result ≡ is_in set square }
{
    set >> square.number() & 1 == 1
}

/// Returns the squares of the first set whose men attack a square of the second.
pub fn attacking(position: &Position, x: Value, y: Value) -> Value
    ensures { as_value result ≡ spec.related (attacks position.now.men) (as_value x) (as_value y) }
{
    Value::Set(attackers_among(position, x.squares(), y.squares()))
}

/// Returns the squares of the first set that a man on a square of the second attacks.
pub fn attacked_by(position: &Position, x: Value, y: Value) -> Value
    ensures { as_value result ≡ spec.related (λ s t. attacks position.now.men t s) (as_value x) (as_value y) }
{
    Value::Set(x.squares() & attacked(position, y.squares()))
}

/// Returns the squares strictly between a square of one set and a square of the other, both on one rank, file or diagonal.
pub fn between(x: Value, y: Value) -> Value
    ensures { as_value result ≡ spec.between_of (as_value x) (as_value y) }
{
    Value::Set(between_all(x.squares(), y.squares()))
}

/// Returns the squares that `k` steps in one of the directions reach from a square of the set, for some `k` from `m` to `n`.
pub fn reached(directions: &[Compass], m: u32, n: u32, x: Value) -> Value
    ensures { as_value result ≡ spec.reached_of directions.now m n (as_value x) }
{
    Value::Set(reached_from_all(directions, m, n, x.squares()))
}

fn reached_from_all(directions: &[Compass], m: u32, n: u32, from: u64) -> u64
    ensures { IsBitboard result (λ goal. list_any (λ s. is_in from s && list_any (spec.leads_to m n s goal) directions.now) squares) }
{
    let mut mask = 0;
    for number in 0..64 {
        mask |= reached_from(directions, m, n, from, Square::new(number));
    }
    mask
}

// The squares reached from one square, if it is in the set.
fn reached_from(directions: &[Compass], m: u32, n: u32, from: u64, square: Square) -> u64
    ensures { IsBitboard result (λ goal. is_in from square && list_any (spec.leads_to m n square goal) directions.now) }
{
    if has_square(from, square) {
        reached_by(directions, m, n, square)
    } else {
        0
    }
}

fn reached_by(directions: &[Compass], m: u32, n: u32, square: Square) -> u64
    ensures { IsBitboard result (λ goal. list_any (spec.leads_to m n square goal) directions.now) }
{
    let mut mask = 0;
    for direction in directions {
        mask |= reached_along(*direction, m, n, square);
    }
    mask
}

// The squares reached in one direction. More than 7 steps lead off the board.
fn reached_along(direction: Compass, m: u32, n: u32, square: Square) -> u64
    ensures { IsBitboard result (λ goal. spec.leads_to m n square goal direction) }
{
    let mut mask = 0;
    for k in 0..8 {
        mask |= reached_by_steps(direction, m, n, square, k);
    }
    mask
}

// The square `k` steps away, if `k` is from `m` to `n`.
fn reached_by_steps(direction: Compass, m: u32, n: u32, square: Square, k: u32) -> u64
    ensures { IsBitboard result (λ goal. is_step_to m n square direction k goal) }
{
    if k < m || n < k {
        return 0;
    }
    match toward(square, direction, k) {
        Some(goal) => 1 << goal.number(),
        None => 0,
    }
}
