//! The null move, by which a side passes.
ghost use Rattle.std.specs.Prelude.{◌≡◌, ◌↔◌, IsNone, IfSome, true, false};
ghost use Rattle.cq_position.specs.Attacks as attack;
ghost use Rattle.cq_position.specs.Legal.{Passes, after_pass};
ghost use Rattle.cq_position.specs.Moves.{null_move};
ghost use Rattle.cq_position.specs.Position.{IsPosition};

use crate::next_position::number_after;
use cq_position::{Position, in_check, opponent};

/// The position after a null move, or None exactly if the side to move is in check.
///
/// The men and the rights to castle are the same, the other side is to move, and there is no en passant square. The number rises after
/// Black's move, up to 4,294,967,295.
pub fn pass(position: &Position) -> Option<Position>
    ensures none { IsNone result ↔ (attack.in_check position.now.men position.now.side ≡ true) }
    ensures passes { IfSome result (λ q. Passes position.now null_move q) }
    ensures kept { IfSome result IsPosition }
{
    if in_check(position, position.side()) {
        None
    } else {
        Some(after_pass_of(position))
    }
}

// The position after the null move of a side that is not in check.
#[tactic(auto, using(crate::proofs::Kept::after_pass_is_position), unfolding(cq_position::specs::Legal::after_pass))]
fn after_pass_of(position: &Position) -> Position
    requires { attack.in_check position.now.men position.now.side ≡ false }
    ensures pass { result ≡ after_pass position.now }
    ensures kept { IsPosition result }
{
    Position::from_parts(
        number_after(position),
        *position.men(),
        opponent(position.side()),
        position.rights(),
        None,
    )
}
