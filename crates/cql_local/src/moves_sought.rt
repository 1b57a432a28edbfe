//! The moves after which a filter may hold, as far as its form tells them.
ghost use Rattle.std.specs.Prelude.{◌≡◌, ◌<◌, ◌&&◌, true, length, IfSome};
ghost use Rattle.cql_local.specs.Internal.MovesSought.{allows, IsBound, LedByAllowedMove, HoldsAfterMoves, MayMeet};
ghost use Rattle.cql_syntax.specs.TreeOf.{filter_tree, written_tree};

use crate::move_ends::{MoveEnds, ends_of};
use cq_geometry::Square;
use cql_syntax::{Filter, Form};
use cql_values::names::Names;
use cql_values::sets::has_square;
use pgn_tree::Game;

/// The only moves after which a filter may hold.
#[derive(Clone, Copy)]
pub(crate) struct MoveConstraint {
    /// True if the filter holds only after a move. If false, it may hold at any node.
    pub(crate) moved: bool,
    /// The squares that the move may come from; all if it is `None`.
    pub(crate) origins: Option<u64>,
    /// The squares that the move may go to; all if it is `None`.
    pub(crate) goals: Option<u64>,
}

/// Returns the moves after which a filter may hold. Only parts of a move that are names restrict them.
pub(crate) fn moves_sought(f: &Filter, names: &Names) -> MoveConstraint
    ensures { HoldsAfterMoves names.now (filter_tree f.now) result }
{
    match &f.form {
        Form::Played(played) => MoveConstraint {
            moved: true,
            origins: squares_met(&played.origin, names),
            goals: squares_met(&played.goal, names),
        },
        _ => MoveConstraint {
            moved: false,
            origins: None,
            goals: None,
        },
    }
}

// The squares that agree with a part of a move, if the part is a name.
fn squares_met(part: &Option<Box<Filter>>, names: &Names) -> Option<u64>
    ensures { MayMeet names.now (written_tree part.now) result }
{
    match part {
        Some(part) => bound(part, names),
        None => None,
    }
}

// The squares of a filter that is a name.
#[tactic(auto, unfolding(cql_syntax::specs::Meaning::value))]
fn bound(f: &Filter, names: &Names) -> Option<u64>
    ensures { IfSome result (IsBound names.now (filter_tree f.now)) }
{
    match &f.form {
        Form::Name(name) => Some(names.squares_of(name.as_slice()).squares()),
        _ => None,
    }
}

/// Returns true if a filter may hold at a node.
pub(crate) fn may_hold(moves: &MoveConstraint, game: &Game, n: u32) -> bool
    requires { n < length game.now.nodes }
    ensures { (moves.now.moved ≡ true → LedByAllowedMove moves.now game.now.nodes n) → result ≡ true }
{
    if !moves.moved {
        return true;
    }
    match ends_of(game, n) {
        Some(ends) => allows_move(moves, &ends),
        None => false,
    }
}

// True if a move satisfies the constraint.
fn allows_move(moves: &MoveConstraint, ends: &MoveEnds) -> bool
    ensures { result ≡ (allows moves.now.origins ends.now.origin && allows moves.now.goals ends.now.goal) }
{
    is_allowed(moves.origins, ends.origin) && is_allowed(moves.goals, ends.goal)
}

// True if a square is in the set. Without a set, every square is allowed.
fn is_allowed(set: Option<u64>, square: Square) -> bool
    ensures { result ≡ allows set square }
{
    match set {
        Some(set) => has_square(set, square),
        None => true,
    }
}
