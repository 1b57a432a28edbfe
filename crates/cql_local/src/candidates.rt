//! Candidates for a name: those squares of a set for which a condition may hold.
ghost use Rattle.std.specs.Prelude.{◌≡◌, ℕ, ◌<◌, ◌&&◌, [], ◌∷◌, true, IfSome};
ghost use Rattle.std.specs.List.{list_any, list_all};
ghost use Rattle.cq_geometry.specs.Squares.{squares};
ghost use Rattle.cq_position.specs.Attacks.{attacks};
ghost use Rattle.cq_symmetry.specs.Images.{is_in};
ghost use Rattle.cql_local.specs.Internal.Candidates.{KeepsCandidates, IsFixed, Allows, value_with, values_with, position_of};
ghost use Rattle.cql_local.specs.NodeScopes.{tree_of};
ghost use Rattle.cql_local.specs.Internal.NodeValues.{IsAt, holds_at};
ghost use Rattle.cql_syntax.specs.Meaning as meaning;
ghost use Rattle.cql_syntax.specs.TreeOf.{filter_tree, filters_tree, written_tree, played_tree};
ghost use Rattle.cql_syntax.specs.Values as spec;

use crate::node_scope::GameNode;
use cq_geometry::Square;
use cq_square_sets::set_of;
use cql_syntax::{Chain, Filter, Filters, Form, Pair, Played};
use cql_values::filter_forms::{is_name, some_gives_only_name};
use cql_values::move_filter::led_to;
use cql_values::names::Names;
use cql_values::sets::{attacked_by, attacking};
use cql_values::value::Value;
use cql_values::words::standing_on;

/// A name that is bound to candidate squares at a node.
#[derive(Clone, Copy)]
struct LocalBinding<'a, 'b> {
    name: &'a [u8],
    place: &'a GameNode<'b>,
    /// The bindings outside. One of them may have the same name, which is hidden here.
    names: &'a Names,
}

/// Returns squares of a set that suffice to tell if a condition holds for every square of the set, or for some.
pub(crate) fn squares_to_try<'x, 'y>(
    every: bool,
    name: &'x [u8],
    set: u64,
    asked: &Filter,
    place: &'x GameNode<'y>,
    names: &'x Names,
) -> u64
    requires { IsAt place.now }
    ensures { spec.square_of every (spec.as_squares (is_in result)) (holds_at place.now name.now names.now (filter_tree asked.now))
        ≡ spec.square_of every (spec.as_squares (is_in set)) (holds_at place.now name.now names.now (filter_tree asked.now)) }
{
    if every {
        return set;
    }
    let trial = LocalBinding { name, place, names };
    candidates(&trial, asked, set)
}

// The squares of a set for which a filter may hold.
#[cycle(candidates)]
#[tactic(auto, unfolding(cql_syntax::specs::Meaning::value))]
fn candidates(trial: &LocalBinding, asked: &Filter, set: u64) -> u64
    requires { IsAt trial.now.place.now }
    ensures { KeepsCandidates (λ s. spec.holds (value_with trial.now (filter_tree asked.now) s)) set result }
{
    if set == 0 {
        return 0;
    }
    match &asked.form {
        Form::Chain(chain, parts) => candidates_in_chain(trial, *chain, parts, set),
        Form::Pair(pair, first, second) => candidates_in_pair(trial, *pair, first, second, set),
        Form::Played(played) => candidates_in_move(trial, played, set),
        _ => set,
    }
}

// The candidates of a chain of filters.
#[cycle(candidates)]
fn candidates_in_chain(trial: &LocalBinding, chain: Chain, parts: &Filters, set: u64) -> u64
    requires { IsAt trial.now.place.now }
    ensures { KeepsCandidates (λ s. spec.holds (spec.chain_of chain (values_with trial.now (filters_tree parts.now) s))) set result }
{
    match chain {
        Chain::And | Chain::All => candidates_in_all(trial, parts, set),
        Chain::Intersect => candidates_in_common(trial, parts, set),
        _ => set,
    }
}

// The candidates of filters that must all hold.
#[cycle(candidates)]
fn candidates_in_all(trial: &LocalBinding, parts: &Filters, set: u64) -> u64
    requires { IsAt trial.now.place.now }
    ensures { KeepsCandidates (λ s. list_all spec.holds (values_with trial.now (filters_tree parts.now) s)) set result }
{
    let mut left = set;
    for part in parts.as_slice() {
        left = candidates(trial, part, left);
    }
    left
}

// The candidates of sets that must have a square in common.
fn candidates_in_common(trial: &LocalBinding, parts: &Filters, set: u64) -> u64
    requires { IsAt trial.now.place.now }
    ensures { KeepsCandidates (λ s. spec.holds (spec.intersection_of (values_with trial.now (filters_tree parts.now) s))) set result }
{
    if !some_gives_only_name(trial.name, parts) {
        return set;
    }
    let mut left = set;
    for part in parts.as_slice() {
        left = candidates_if_pair(trial, part, left) & fixed_or_all(trial, part);
    }
    left
}

// The candidates of a filter of two parts. For another filter all squares are candidates.
#[tactic(auto, unfolding(cql_syntax::specs::Meaning::value))]
fn candidates_if_pair(trial: &LocalBinding, asked: &Filter, set: u64) -> u64
    requires { IsAt trial.now.place.now }
    ensures { KeepsCandidates (λ s. spec.holds (value_with trial.now (filter_tree asked.now) s)) set result }
{
    match &asked.form {
        Form::Pair(pair, first, second) => candidates_in_pair(trial, *pair, first, second, set),
        _ => set,
    }
}

// The squares of a filter if they don't depend on the name, else all squares.
fn fixed_or_all(trial: &LocalBinding, part: &Filter) -> u64
    requires { IsAt trial.now.place.now }
    ensures { (s t : ℕ) → t < 64 → spec.has (value_with trial.now (filter_tree part.now) s) t ≡ true → is_in result t ≡ true }
{
    match fixed(trial, part) {
        Some(set) => set,
        None => u64::MAX,
    }
}

// The candidates of a filter on men that attack a square, or that are attacked from it.
fn candidates_in_pair(
    trial: &LocalBinding,
    pair: Pair,
    first: &Filter,
    second: &Filter,
    set: u64,
) -> u64
    requires { IsAt trial.now.place.now }
    ensures { KeepsCandidates (λ s. spec.holds (spec.pair_of (position_of trial.now).men pair
        (value_with trial.now (filter_tree first.now) s) (value_with trial.now (filter_tree second.now) s))) set result }
{
    match pair {
        Pair::Attacks => {
            if is_name(trial.name, first) {
                attacking_some(trial, second, set)
            } else if is_name(trial.name, second) {
                attacked_by_some(trial, first, set)
            } else {
                set
            }
        }
        Pair::AttackedBy => {
            if is_name(trial.name, first) {
                attacked_by_some(trial, second, set)
            } else if is_name(trial.name, second) {
                attacking_some(trial, first, set)
            } else {
                set
            }
        }
        _ => set,
    }
}

// The squares of a set whose men attack a square of a filter. All are candidates if the filter may depend on the name.
fn attacking_some(trial: &LocalBinding, goal: &Filter, set: u64) -> u64
    requires { IsAt trial.now.place.now }
    ensures { KeepsCandidates (λ s. list_any (λ t. spec.has (value_with trial.now (filter_tree goal.now) s) t
        && attacks (position_of trial.now).men s t) squares) set result }
{
    match fixed(trial, goal) {
        Some(goal) => {
            let position = trial.place.game.position(trial.place.node);
            attacking(position, Value::Set(set), Value::Set(goal)).squares()
        }
        None => set,
    }
}

// The squares of a set that a man on a square of a filter attacks. All are candidates if the filter may depend on the name.
fn attacked_by_some(trial: &LocalBinding, origin: &Filter, set: u64) -> u64
    requires { IsAt trial.now.place.now }
    ensures { KeepsCandidates (λ s. list_any (λ t. spec.has (value_with trial.now (filter_tree origin.now) s) t
        && attacks (position_of trial.now).men t s) squares) set result }
{
    match fixed(trial, origin) {
        Some(origin) => {
            let position = trial.place.game.position(trial.place.node);
            attacked_by(position, Value::Set(set), Value::Set(origin)).squares()
        }
        None => set,
    }
}

// The candidates of a filter on the move to the node: a part that is the name allows one square of the move.
#[tactic(auto, unfolding(cql_syntax::specs::Meaning::value))]
fn candidates_in_move(trial: &LocalBinding, played: &Played, set: u64) -> u64
    requires { IsAt trial.now.place.now }
    ensures { KeepsCandidates (λ s. meaning.played_value (tree_of trial.now.place.now) [] ((trial.now.name.now, s) ∷ trial.now.names.now)
        (played_tree played.now) trial.now.place.now.node) set result }
{
    let Some(led) = led_to(trial.place.game, trial.place.node) else {
        return 0;
    };
    set & allowed(trial.name, &played.origin, Some(led.origin))
        & allowed(trial.name, &played.goal, Some(led.goal))
        & allowed(trial.name, &played.taken, led.taken)
}

// The squares that a part of a move allows for a name.
#[tactic(auto, unfolding(cql_syntax::specs::Meaning::value))]
fn allowed(name: &[u8], part: &Option<Box<Filter>>, square: Option<Square>) -> u64
    ensures { Allows name.now (written_tree part.now) square result }
{
    match part {
        Some(part) => {
            if is_name(name, part) {
                set_of(square)
            } else {
                u64::MAX
            }
        }
        None => u64::MAX,
    }
}

// The squares of a filter that plainly doesn't depend on the name.
#[tactic(auto, unfolding(cql_syntax::specs::Meaning::value, cql_syntax::specs::Contexts::designator_image))]
fn fixed(trial: &LocalBinding, f: &Filter) -> Option<u64>
    requires { IsAt trial.now.place.now }
    ensures { IfSome result (IsFixed trial.now (filter_tree f.now)) }
{
    match &f.form {
        Form::Squares(d) => Some(standing_on(trial.place.game.position(trial.place.node), d)),
        Form::Name(name) => {
            if trial.name == name.as_slice() {
                None
            } else {
                Some(trial.names.squares_of(name.as_slice()).squares())
            }
        }
        _ => None,
    }
}
