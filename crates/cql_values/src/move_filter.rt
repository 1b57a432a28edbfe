//! Filters on the move to a node.
ghost use Rattle.std.specs.Prelude.{◌≡◌, ◌<◌, length, option_map, Option};
ghost use Rattle.cq_position.specs.Games.{IsTree};
ghost use Rattle.cq_position.specs.Led as played;
ghost use Rattle.cq_position.specs.Led.{PlainLed};
ghost use Rattle.cql_played.specs.Led.{as_led};
ghost use Rattle.cql_syntax.specs.Meaning as meaning;
ghost use Rattle.cql_values.specs.ValueModel.{as_value};
ghost use Rattle.cql_values.specs.Trees.{searched_tree};

use crate::sets::has_square;
use crate::value::Value;
use cq_geometry::Square;
use cql_played::{Led, led_by};
use pgn_tree::Game;

/// Returns the parent of a node; of the root, the root itself.
pub fn before(game: &Game, variations: bool, n: u32) -> u32
    requires { n < length game.now.nodes }
    ensures value { result ≡ meaning.before (searched_tree game.now variations) n }
    ensures node { result < length game.now.nodes }
{
    match game.parent(n) {
        Some(parent) => parent,
        None => n,
    }
}

/// Returns the squares of the move to a node. The root has none, and neither has a node after a null move.
#[inline(always)]
pub fn led_to(game: &Game, n: u32) -> Option<Led>
    requires tree { IsTree game.now.nodes }
    requires node { n < length game.now.nodes }
    ensures { result ≡ option_map as_led (played.led_to game.now.nodes n) }
{
    let parent = game.parent(n)?;
    let m = game.move_to(n)?;
    led_by(game.position(parent), m)
}

/// Returns true if a move agrees with each part that the filter has. A part that is left out agrees with every move.
#[inline(always)]
pub fn meets_all(
    led: Option<Led>,
    origin: Option<Value>,
    goal: Option<Value>,
    taken: Option<Value>,
    promoted: Option<Value>,
) -> bool
    ensures { (l : Option PlainLed) → led ≡ option_map as_led l →
        result ≡ meaning.meets_all l (option_map as_value origin) (option_map as_value goal)
        (option_map as_value taken) (option_map as_value promoted) }
{
    match &led {
        Some(led) => {
            meets(origin, Some(led.origin))
                && meets(goal, Some(led.goal))
                && meets(taken, led.taken)
                && meets(promoted, promotion_goal(led))
        }
        None => false,
    }
}

/// Returns the goal of a promotion, or `None` if the move is no promotion.
pub fn promotion_goal(led: &Led) -> Option<Square>
    ensures { result ≡ meaning.goal_if led.now.promoted led.now.goal }
{
    if led.promoted { Some(led.goal) } else { None }
}

// True if the square exists and is in the set of the part. A part that is left out always agrees.
fn meets(asked: Option<Value>, square: Option<Square>) -> bool
    ensures { result ≡ meaning.meets (option_map as_value asked) square }
{
    match (asked, square) {
        (None, _) => true,
        (Some(_), None) => false,
        (Some(value), Some(square)) => has_square(value.squares(), square),
    }
}
