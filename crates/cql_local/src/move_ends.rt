//! The squares at which the move to a node began and ended.
ghost use Rattle.std.specs.Prelude.{◌≡◌, ◌<◌, length, None, IsNone, IfSome};
ghost use Rattle.cq_position.specs.Led.{led_to};
ghost use Rattle.cql_local.specs.Internal.MovesSought.{AreMoveEnds};

use cq_geometry::Square;
use pgn_tree::Game;

/// The squares at which the move to a node began and ended.
#[derive(Clone, Copy)]
pub(crate) struct MoveEnds {
    /// The node before the move.
    pub(crate) before: u32,
    pub(crate) origin: Square,
    pub(crate) goal: Square,
}

/// Returns the squares at which the move to a node began and ended. The root has none, and neither has a node after a null move.
pub(crate) fn ends_of(game: &Game, n: u32) -> Option<MoveEnds>
    requires { n < length game.now.nodes }
    ensures none { IsNone result → led_to game.now.nodes n ≡ None }
    ensures some { IfSome result (AreMoveEnds game.now.nodes n) }
    ensures before { IfSome result (λ e. e.before < length game.now.nodes) }
{
    let before = game.parent(n)?;
    let m = game.move_to(n)?;
    let played = &m;
    if played.null {
        return None;
    }
    Some(MoveEnds {
        before,
        origin: played.from,
        goal: played.to,
    })
}
