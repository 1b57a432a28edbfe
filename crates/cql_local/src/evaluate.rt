//! The value of a filter at a node, by recursion on the filter.
ghost use Rattle.std.specs.Prelude.{◌≡◌, ◌<◌, ◌&&◌, [], length, ℕ, Some, IfOk, option_to_list};
ghost use Rattle.std.specs.List.{list_any};
ghost use Rattle.cq_geometry.specs.Squares.{squares};
ghost use Rattle.cq_position.specs.Bitboards.{IsBitboard};
ghost use Rattle.cq_position.specs.Games as games;
ghost use Rattle.cq_position.specs.Games.{IsTree};
ghost use Rattle.cq_position.specs.Search.{children_in};
ghost use Rattle.cq_symmetry.specs.Images.{is_in};
ghost use Rattle.cql_local.specs.Internal.MovesSought.{HoldsAfterMoves};
ghost use Rattle.cql_local.specs.NodeScopes.{tree_of};
ghost use Rattle.cql_local.specs.Internal.NodeValues.{value_at, values_at, holds_at, IsAt};
ghost use Rattle.cql_syntax.specs.Meaning as meaning;
ghost use Rattle.cql_syntax.specs.TreeOf.{filter_tree, filters_tree, played_tree, written_tree};
ghost use Rattle.cql_syntax.specs.Values as spec;
ghost use Rattle.cql_values.specs.FilterValues.{settles};
ghost use Rattle.cql_values.specs.Bindings.{rebound};
ghost use Rattle.cql_values.specs.ValueModel.{as_value};

use crate::candidates::squares_to_try;
use crate::leaves::local_leaf;
use crate::move_ends::ends_of;
use crate::moves_sought::{MoveConstraint, may_hold, moves_sought};
use crate::node_scope::GameNode;
use crate::not_local::NotLocal;
use cq_common::Refusal;
use cq_geometry::Square;
use cq_square_sets::lowest_square;
use cql_syntax::{Chain, Filter, Filters, Form, Kind, Played, Unary};
use cql_values::combine::{if_of, pair_of, unary_of_value};
use cql_values::move_filter::{led_to, promotion_goal};
use cql_values::names::Names;
use cql_values::sets::{has_square, reached};
use cql_values::value::Value;
use cql_values::walks::is_searched;
use cql_values::words::directions;

/// Returns the value of a filter at a node.
///
/// # Errors
///
/// - `NotLocal` if the value depends on a filter that can't be evaluated at one node.
/// - `NoMemory` if out of memory.
#[cycle(evaluate)]
pub(crate) fn evaluate(
    f: &Filter,
    place: &GameNode,
    names: &mut Names,
) -> Result<Value, Refusal<NotLocal>>
    requires { IsAt place.now }
    ensures value { IfOk result (λ v. as_value v ≡ value_at place.now names.old (filter_tree f.now) place.now.node) }
    ensures names { names.new ≡ names.old }
{
    match &f.form {
        Form::Unary(word, part) => unary_at(*word, part, place, names),
        Form::Steps(way, m, n, part) => {
            let value = evaluate(part, place, names)?;
            Ok(reached(directions(*way), *m, *n, value))
        }
        Form::Chain(chain, parts) => chain_at(*chain, parts, place, names),
        Form::Pair(pair, first, second) => {
            let first = evaluate(first, place, names)?;
            let second = evaluate(second, place, names)?;
            Ok(pair_of(place.game.position(place.node), *pair, first, second))
        }
        Form::If(condition, then, otherwise) => {
            let condition = evaluate(condition, place, names)?;
            let then = evaluate(then, place, names)?;
            let otherwise = evaluate(otherwise, place, names)?;
            Ok(if_of(condition, then, otherwise))
        }
        Form::Square(every, name, squares, asked) => {
            let squares = evaluate(squares, place, names)?;
            let holds = square_at(
                *every,
                name.as_slice(),
                squares.squares(),
                asked,
                place,
                names,
            )?;
            Ok(Value::Truth(holds))
        }
        Form::Played(played) => {
            let met = played_at(played, place, names)?;
            Ok(Value::Truth(met))
        }
        Form::Sort(.., part) => {
            let value = evaluate(part, place, names)?;
            Ok(Value::Truth(value.number().is_some()))
        }
        Form::Any(kind, parts) => any_at(*kind, parts, place, names),
        _ => local_leaf(f, place, &*names),
    }
}

// The value of a word or mark before a part.
#[cycle(evaluate)]
fn unary_at(
    word: Unary,
    part: &Filter,
    place: &GameNode,
    names: &mut Names,
) -> Result<Value, Refusal<NotLocal>>
    requires { IsAt place.now }
    ensures value { IfOk result (λ v. as_value v ≡ meaning.unary_of (tree_of place.now) word
        (value_at place.now names.old (filter_tree part.now)) place.now.node) }
    ensures names { names.new ≡ names.old }
{
    match word {
        Unary::Find => Err(Refusal::Fault(NotLocal)),
        Unary::Child => some_child(part, place, names),
        Unary::FindUp => some_above(part, place, names),
        Unary::Parent => at_parent(part, place, names),
        _ => {
            let value = evaluate(part, place, names)?;
            Ok(unary_of_value(word, place.game.position(place.node), value))
        }
    }
}

// True if a filter holds at the parent of a node. It is false at the root.
#[cycle(evaluate)]
fn at_parent(part: &Filter, place: &GameNode, names: &mut Names) -> Result<Value, Refusal<NotLocal>>
    requires { IsAt place.now }
    ensures value { IfOk result (λ v. as_value v ≡ meaning.some_node (value_at place.now names.old (filter_tree part.now))
        (option_to_list (games.node_at place.now.game.now.nodes place.now.node).parent)) }
    ensures names { names.new ≡ names.old }
{
    let Some(parent) = place.game.parent(place.node) else {
        return Ok(Value::Truth(false));
    };
    let above = GameNode {
        node: parent,
        ..*place
    };
    let value = evaluate(part, &above, names)?;
    Ok(Value::Truth(value.holds()))
}

// True if a filter holds at a child of a node that is searched.
#[cycle(evaluate)]
fn some_child(
    part: &Filter,
    place: &GameNode,
    names: &mut Names,
) -> Result<Value, Refusal<NotLocal>>
    requires { IsAt place.now }
    ensures value { IfOk result (λ v. as_value v ≡ meaning.some_node (value_at place.now names.old (filter_tree part.now))
        (children_in (tree_of place.now) place.now.node)) }
    ensures names { names.new ≡ names.old }
{
    let mut at = place.game.first_child(place.node);
    while let Some(child) = at {
        let below = GameNode {
            node: child,
            ..*place
        };
        let there = holds_searched(part, &below, names)?;
        if there {
            return Ok(Value::Truth(true));
        }
        at = place.game.next_sibling(child);
    }
    Ok(Value::Truth(false))
}

// True if a node is searched and a filter holds there.
#[cycle(evaluate)]
fn holds_searched(
    part: &Filter,
    place: &GameNode,
    names: &mut Names,
) -> Result<bool, Refusal<NotLocal>>
    requires { IsAt place.now }
    ensures value { IfOk result (λ b. b ≡ (games.is_searched place.now.variations place.now.game.now.nodes place.now.node
        && spec.holds (value_at place.now names.old (filter_tree part.now) place.now.node))) }
    ensures names { names.new ≡ names.old }
{
    if !is_searched(place.game, place.variations, place.node) {
        return Ok(false);
    }
    let value = evaluate(part, place, names)?;
    Ok(value.holds())
}

// True if a filter holds at a node or at one above it.
#[cycle(evaluate)]
fn some_above(
    part: &Filter,
    place: &GameNode,
    names: &mut Names,
) -> Result<Value, Refusal<NotLocal>>
    requires { IsAt place.now }
    ensures value { IfOk result (λ v. as_value v ≡ meaning.some_node (value_at place.now names.old (filter_tree part.now))
        (games.way_up place.now.game.now.nodes place.now.node)) }
    ensures names { names.new ≡ names.old }
{
    let moves = moves_sought(part, &*names);
    let mut at = Some(place.node);
    while let Some(node) = at {
        let above = GameNode { node, ..*place };
        let there = holds_after(&moves, part, &above, names)?;
        if there {
            return Ok(Value::Truth(true));
        }
        at = place.game.parent(node);
    }
    Ok(Value::Truth(false))
}

// True if a filter holds at a node. It isn't evaluated after a move that excludes it.
#[cycle(evaluate)]
fn holds_after(
    moves: &MoveConstraint,
    part: &Filter,
    place: &GameNode,
    names: &mut Names,
) -> Result<bool, Refusal<NotLocal>>
    requires at { IsAt place.now }
    requires sought { HoldsAfterMoves names.old (filter_tree part.now) moves.now }
    ensures value { IfOk result (λ b. b ≡ spec.holds (value_at place.now names.old (filter_tree part.now) place.now.node)) }
    ensures names { names.new ≡ names.old }
{
    if !may_hold(moves, place.game, place.node) {
        return Ok(false);
    }
    let value = evaluate(part, place, names)?;
    Ok(value.holds())
}

// The value of a chain.
#[cycle(evaluate)]
fn chain_at(
    chain: Chain,
    parts: &Filters,
    place: &GameNode,
    names: &mut Names,
) -> Result<Value, Refusal<NotLocal>>
    requires { IsAt place.now }
    ensures value { IfOk result (λ v. as_value v
        ≡ spec.chain_of chain (values_at place.now names.old (filters_tree parts.now) place.now.node)) }
    ensures names { names.new ≡ names.old }
{
    match chain {
        Chain::Or => some_of(parts, place, names),
        Chain::And | Chain::All => all_of(parts, place, names),
        Chain::Union => union_of(parts, place, names),
        Chain::Intersect => common_of(parts, place, names),
        Chain::Product | Chain::Max | Chain::Min => Err(Refusal::Fault(NotLocal)),
    }
}

// The value of any of some filters of a kind.
#[cycle(evaluate)]
fn any_at(
    kind: Kind,
    parts: &Filters,
    place: &GameNode,
    names: &mut Names,
) -> Result<Value, Refusal<NotLocal>>
    requires { IsAt place.now }
    ensures value { IfOk result (λ v. as_value v ≡ spec.any_of kind (values_at place.now names.old (filters_tree parts.now) place.now.node)) }
    ensures names { names.new ≡ names.old }
{
    match kind {
        Kind::Position => some_of(parts, place, names),
        Kind::Set => union_of(parts, place, names),
        Kind::Number => Err(Refusal::Fault(NotLocal)),
    }
}

// True if all of some filters hold.
#[cycle(evaluate)]
fn all_of(parts: &Filters, place: &GameNode, names: &mut Names) -> Result<Value, Refusal<NotLocal>>
    requires { IsAt place.now }
    ensures value { IfOk result (λ v. as_value v ≡ spec.all_hold (values_at place.now names.old (filters_tree parts.now) place.now.node)) }
    ensures names { names.new ≡ names.old }
{
    for part in parts.as_slice() {
        let value = evaluate(part, place, names)?;
        if !value.holds() {
            return Ok(Value::Truth(false));
        }
    }
    Ok(Value::Truth(true))
}

// True if one of some filters holds.
#[cycle(evaluate)]
fn some_of(parts: &Filters, place: &GameNode, names: &mut Names) -> Result<Value, Refusal<NotLocal>>
    requires { IsAt place.now }
    ensures value { IfOk result (λ v. as_value v ≡ spec.some_holds (values_at place.now names.old (filters_tree parts.now) place.now.node)) }
    ensures names { names.new ≡ names.old }
{
    for part in parts.as_slice() {
        let value = evaluate(part, place, names)?;
        if value.holds() {
            return Ok(Value::Truth(true));
        }
    }
    Ok(Value::Truth(false))
}

// The squares that are in one of some sets.
#[cycle(evaluate)]
fn union_of(
    parts: &Filters,
    place: &GameNode,
    names: &mut Names,
) -> Result<Value, Refusal<NotLocal>>
    requires { IsAt place.now }
    ensures value { IfOk result (λ v. as_value v ≡ spec.union_of (values_at place.now names.old (filters_tree parts.now) place.now.node)) }
    ensures names { names.new ≡ names.old }
{
    let mut mask = 0;
    for part in parts.as_slice() {
        let value = evaluate(part, place, names)?;
        mask |= value.squares();
    }
    Ok(Value::Set(mask))
}

// The squares that are in each of some sets.
#[cycle(evaluate)]
fn common_of(
    parts: &Filters,
    place: &GameNode,
    names: &mut Names,
) -> Result<Value, Refusal<NotLocal>>
    requires { IsAt place.now }
    ensures value { IfOk result (λ v. as_value v
        ≡ spec.intersection_of (values_at place.now names.old (filters_tree parts.now) place.now.node)) }
    ensures names { names.new ≡ names.old }
{
    let mut mask = u64::MAX;
    for part in parts.as_slice() {
        let value = evaluate(part, place, names)?;
        mask &= value.squares();
    }
    Ok(Value::Set(mask))
}

/// Returns true if a condition holds for every square of a set, or for some.
///
/// # Errors
///
/// - `NotLocal` if the value depends on a filter that can't be evaluated at one node.
/// - `NoMemory` if out of memory.
#[cycle(evaluate)]
pub(crate) fn square_at(
    every: bool,
    name: &[u8],
    set: u64,
    asked: &Filter,
    place: &GameNode,
    names: &mut Names,
) -> Result<bool, Refusal<NotLocal>>
    requires { IsAt place.now }
    ensures value { IfOk result (λ b. spec.as_truth b ≡ spec.square_of every (spec.as_squares (is_in set))
        (holds_at place.now name.now names.old (filter_tree asked.now))) }
    ensures names { names.new ≡ names.old }
{
    let left = squares_to_try(every, &*name, set, asked, &*place, &*names);
    if left == 0 {
        return Ok(every);
    }
    names.bind(name, lowest_square(left))?;
    let found = some_settles(every, left, asked, place, names);
    names.unbind();
    match found {
        Ok(found) => Ok(found != every),
        Err(halt) => Err(halt),
    }
}

// True if a square of a set settles a condition on every square of it, or on some. The innermost name is bound to the square.
#[cycle(evaluate)]
fn some_settles(
    every: bool,
    set: u64,
    asked: &Filter,
    place: &GameNode,
    names: &mut Names,
) -> Result<bool, Refusal<NotLocal>>
    requires at { IsAt place.now }
    requires bound { 0 < length names.old }
    ensures value { IfOk result (λ b. b ≡ list_any (settles every (is_in set)
        (λ s. spec.holds (value_at place.now (rebound names.old s) (filter_tree asked.now) place.now.node))) squares) }
    ensures names { (s : ℕ) → rebound names.new s ≡ rebound names.old s }
{
    let mut left = set;
    while left != 0 {
        let square = lowest_square(left);
        left &= !(1 << square.number());
        names.rebind(square);
        let value = evaluate(asked, place, names)?;
        if value.holds() != every {
            return Ok(true);
        }
    }
    Ok(false)
}

// True if the move to a node agrees with the filter. Its origin and its capture are evaluated at the node before, its goal and its
// promotion at the node itself.
#[cycle(evaluate)]
fn played_at(
    played: &Played,
    place: &GameNode,
    names: &mut Names,
) -> Result<bool, Refusal<NotLocal>>
    requires { IsAt place.now }
    ensures value { IfOk result (λ b. b ≡ meaning.played_value (tree_of place.now) [] names.old (played_tree played.now) place.now.node) }
    ensures names { names.new ≡ names.old }
{
    let Some(ends) = ends_of(place.game, place.node) else {
        return Ok(false);
    };
    let above = GameNode {
        node: ends.before,
        ..*place
    };
    if !is_met(&played.origin, Some(ends.origin), &above, names)? {
        return Ok(false);
    }
    if !is_met(&played.goal, Some(ends.goal), place, names)? {
        return Ok(false);
    }
    if played.taken.is_none() && played.promoted.is_none() {
        return Ok(true);
    }
    let Some(led) = led_to(place.game, place.node) else {
        return Ok(false);
    };
    if !is_met(&played.taken, led.taken, &above, names)? {
        return Ok(false);
    }
    is_met(&played.promoted, promotion_goal(&led), place, names)
}

// True if the square exists and is in the set of the part. A part that is left out always agrees.
#[cycle(evaluate)]
fn is_met(
    part: &Option<Box<Filter>>,
    square: Option<Square>,
    place: &GameNode,
    names: &mut Names,
) -> Result<bool, Refusal<NotLocal>>
    requires { IsAt place.now }
    ensures value { IfOk result (λ b. b ≡ meaning.meets
        (meaning.written_value (tree_of place.now) [] names.old (written_tree part.now) place.now.node) square) }
    ensures names { names.new ≡ names.old }
{
    let Some(part) = part else {
        return Ok(true);
    };
    let Some(square) = square else {
        return Ok(false);
    };
    let value = evaluate(part, place, names)?;
    Ok(has_square(value.squares(), square))
}
