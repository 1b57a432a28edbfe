//! Sets of squares, one a node, from which squares are removed.
ghost use Rattle.std.specs.Prelude.{◌≡◌, ◌⊎◌, ◌&&◌, ◌==◌, ◌<◌, ℕ, not, true, Some, bit_or, get_or, length, IfOk};
ghost use Rattle.std.specs.List.{list_any};
ghost use Rattle.cq_position.specs.Games.{IsTree, node_at};
ghost use Rattle.cq_position.specs.Led.{led_to as led_to_in};
ghost use Rattle.cq_symmetry.specs.Images.{is_in};
ghost use Rattle.cql_syntax.specs.Values as spec;
ghost use Rattle.cql_syntax.specs.declared.leaves.Pair.TheVariants.{Attacks, AttackedBy};
ghost use Rattle.cql_columns.specs.Columns.{IsNodeSet, AreKept, shown};
ghost use Rattle.cql_columns.specs.Scopes.{tree_in};
ghost use Rattle.cql_candidates.specs.Covers.{AreRetained, AreSetsOf, IsOfMove, HasSome, IsRelatedSquare, AreAmong, AreUniform, AreJoined};
ghost use Rattle.cql_candidates.specs.Internal.SquareCuts.{IsCut};

use cq_common::NoMemory;
use cq_geometry::Square;
use cq_square_sets::set_of;
use cql_columns::filter_column::{FilterColumn, blank_sets, set_at, squares_if};
use cql_columns::nodes::same;
use cql_columns::scope::Scope;
use cql_syntax::Pair;
use cql_values::combine::related;
use cql_values::move_filter::led_to;
use cql_values::value::Value;
use pgn_tree::Game;
use std::alloc::Global;

/// The sets of a column at the live nodes.
///
/// # Errors
///
/// `NoMemory` if out of memory.
pub fn sets_of(alloc: Global, live: &[bool], squares: &FilterColumn) -> Result<Vec<u64>, NoMemory>
    ensures { IfOk result (λ sets. AreSetsOf (shown squares.now) live.now sets.items) }
{
    let mut sets = blank_sets(alloc, live.len())?;
    for n in 0..live.len() {
        sets[n] = squares_if(live[n], squares, n);
    }
    Ok(sets)
}

/// Returns true if some set has a square.
pub fn any_nonempty(sets: &[u64]) -> bool
    ensures { result ≡ list_any (λ set. not (set == 0)) sets.now }
{
    sets.iter().any(|set| *set != 0)
}

/// A copy of sets.
///
/// # Errors
///
/// `NoMemory` if out of memory.
pub fn copy_sets(alloc: Global, sets: &[u64]) -> Result<Vec<u64>, NoMemory>
    ensures { IfOk result (λ copy. copy.items ≡ sets.now) }
{
    let mut copied = Vec::new(alloc);
    copied.extend_from_slice(sets)?;
    Ok(copied)
}

/// Adds the squares of other sets.
pub fn add_sets(sets: &mut [u64], more: &[u64])
    ensures { AreJoined more.now sets.old sets.new }
{
    for n in 0..sets.len() {
        sets[n] = joined(sets[n], more, n);
    }
}

fn joined(set: u64, more: &[u64], n: usize) -> u64
    ensures { result ≡ bit_or set (get_or more.now n 0) }
{
    set | set_at(more, n)
}

/// A set that has all squares of the sets at the live nodes.
pub fn union_at_live(live: &[bool], sets: &[u64]) -> u64
    ensures { AreAmong live.now sets.now result }
{
    let mut among = 0;
    for n in 0..live.len() {
        among |= set_where(live[n], sets, n);
    }
    among
}

fn set_where(asked: bool, sets: &[u64], n: usize) -> u64
    ensures { asked ≡ true → result ≡ get_or sets.now n 0 }
{
    if asked { set_at(sets, n) } else { 0 }
}

/// The same squares at each live node.
///
/// # Errors
///
/// `NoMemory` if out of memory.
pub fn uniform_sets(alloc: Global, live: &[bool], set: u64) -> Result<Vec<u64>, NoMemory>
    ensures { IfOk result (λ sets. AreUniform live.now set sets.items) }
{
    let mut sets = blank_sets(alloc, live.len())?;
    for n in 0..live.len() {
        sets[n] = given_if(live[n], set);
    }
    Ok(sets)
}

fn given_if(asked: bool, set: u64) -> u64
    ensures { asked ≡ true → result ≡ set }
{
    if asked { set } else { 0 }
}

/// The live nodes at which there are squares.
///
/// # Errors
///
/// `NoMemory` if out of memory.
pub fn with_squares(
    alloc: Global,
    scope: &Scope,
    live: &[bool],
    sets: &[u64],
) -> Result<Vec<bool>, NoMemory>
    requires asked { IsNodeSet (tree_in scope.now) live.now }
    ensures { IfOk result (λ some. HasSome (tree_in scope.now) live.now sets.now some.items) }
{
    let mut some = same(alloc, live)?;
    keep_some(&mut some, sets);
    Ok(some)
}

fn keep_some(left: &mut [bool], sets: &[u64])
    ensures { AreKept (λ n. not (get_or sets.now n 0 == 0)) left.old left.new }
{
    for n in 0..left.len() {
        left[n] = left[n] && set_at(sets, n) != 0;
    }
}

/// Keeps the squares that a column has.
pub fn cut(sets: &mut [u64], live: &[bool], column: &FilterColumn)
    requires { length sets.old ≡ length live.now }
    ensures { AreRetained live.now (λ n s. spec.has (shown column.now n) s ≡ true) sets.old sets.new }
{
    for n in 0..live.len() {
        sets[n] = cut_one(sets[n], live[n], column, n);
    }
}

fn cut_one(set: u64, asked: bool, column: &FilterColumn, n: usize) -> u64
    ensures { IsCut asked (λ s. spec.has (shown column.now n) s ≡ true) set result }
{
    if asked {
        set & column.at(n).squares()
    } else {
        set
    }
}

/// Removes all squares at the nodes at which a column doesn't hold.
pub fn retain_where_holds(sets: &mut [u64], live: &[bool], column: &FilterColumn)
    requires { length sets.old ≡ length live.now }
    ensures { AreRetained live.now (λ n s. spec.holds (shown column.now n) ≡ true) sets.old sets.new }
{
    for n in 0..live.len() {
        sets[n] = kept_where_holds(sets[n], live[n], column, n);
    }
}

fn kept_where_holds(set: u64, asked: bool, column: &FilterColumn, n: usize) -> u64
    ensures { IsCut asked (λ s. spec.holds (shown column.now n) ≡ true) set result }
{
    if asked && !column.at(n).holds() {
        0
    } else {
        set
    }
}

/// Keeps the squares that are in a relation of attack to a column.
pub fn retain_attackers(
    sets: &mut [u64],
    live: &[bool],
    scope: &Scope,
    pair: Pair,
    column: &FilterColumn,
)
    requires asked { IsNodeSet (tree_in scope.now) live.now }
    requires count { length sets.old ≡ length live.now }
    requires attack { (pair ≡ Attacks) ⊎ (pair ≡ AttackedBy) }
    ensures { AreRetained live.now
        (λ n. IsRelatedSquare (node_at scope.now.game.now.nodes n).position.men pair (shown column.now n)) sets.old sets.new }
{
    for n in 0..scope.game.len() {
        sets[n as usize] = related_one(
            sets[n as usize],
            live[n as usize],
            scope.game,
            pair,
            column,
            n,
        );
    }
}

fn related_one(set: u64, asked: bool, game: &Game, pair: Pair, column: &FilterColumn, n: u32) -> u64
    requires node { n < length game.now.nodes }
    requires attack { (pair ≡ Attacks) ⊎ (pair ≡ AttackedBy) }
    ensures { IsCut asked (IsRelatedSquare (node_at game.now.nodes n).position.men pair (shown column.now n)) set result }
{
    if asked {
        related(
            game.position(n),
            pair,
            Value::Set(set),
            column.at(n as usize),
        )
    } else {
        set
    }
}

/// Keeps the squares of the moves to the nodes.
pub fn retain_move_squares(
    sets: &mut [u64],
    live: &[bool],
    scope: &Scope,
    origin: bool,
    goal: bool,
    taken: bool,
)
    requires tree { IsTree scope.now.game.now.nodes }
    requires asked { IsNodeSet (tree_in scope.now) live.now }
    requires count { length sets.old ≡ length live.now }
    ensures { AreRetained live.now (λ n. IsOfMove (led_to_in scope.now.game.now.nodes n) origin goal taken) sets.old sets.new }
{
    for n in 0..scope.game.len() {
        sets[n as usize] = move_one(
            sets[n as usize],
            live[n as usize],
            scope.game,
            origin,
            goal,
            taken,
            n,
        );
    }
}

fn move_one(
    set: u64,
    asked: bool,
    game: &Game,
    origin: bool,
    goal: bool,
    taken: bool,
    n: u32,
) -> u64
    requires tree { IsTree game.now.nodes }
    requires node { n < length game.now.nodes }
    ensures { IsCut asked (IsOfMove (led_to_in game.now.nodes n) origin goal taken) set result }
{
    if !asked {
        return set;
    }
    match led_to(game, n) {
        Some(led) => {
            let first = cut_to(set, origin, Some(led.origin));
            let second = cut_to(first, goal, Some(led.goal));
            cut_to(second, taken, led.taken)
        }
        None => 0,
    }
}

fn cut_to(set: u64, wanted: bool, square: Option<Square>) -> u64
    ensures within { (s : ℕ) → is_in result s ≡ true → is_in set s ≡ true }
    ensures keeps { (s : ℕ) → (wanted ≡ true → square ≡ Some s) → is_in set s ≡ true → is_in result s ≡ true }
{
    if wanted { set & set_of(square) } else { set }
}
