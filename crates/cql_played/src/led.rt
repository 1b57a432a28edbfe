//! The squares that a played move left and reached, and its capture.
ghost use Rattle.std.specs.Prelude.{◌≡◌, ◌↔◌, ℕ, Some};
ghost use Rattle.cq_position.specs.Led.{taken_square};
ghost use Rattle.cq_position.specs.declared.moves.Move.{Move as MoveValue};
ghost use Rattle.cq_position.specs.Board.{Board};
ghost use Rattle.cq_position.specs.Position.{IsPosition};
ghost use Rattle.cq_position.specs.Legal.{Leads};
ghost use Rattle.cq_position.specs.Led.{led};
ghost use Rattle.cql_played.specs.Led.{led_as};
ghost use Rattle.cql_played.specs.Captures.{taken_by, IsCapturedOn};

use cq_geometry::{Square, file, rank, square_at};
use cq_position::position::is_pawn;
use cq_position::{Man, Move, Position, Promotion};

/// The squares of a played move. Of castling these are the king's squares.
#[derive(Clone, Copy, Debug, PartialEq, Eq)]
pub struct Led {
    /// The square that the man left.
    pub origin: Square,
    /// The square to which it went.
    pub goal: Square,
    /// The square of the man that it took. It is beside the origin if a pawn took in passing (FIDE Laws of Chess, article 3.7).
    pub taken: Option<Square>,
    /// True if the move is a promotion.
    pub promoted: bool,
}

/// Returns the squares of a move, given the position before it. The result is `None` exactly if the move is null.
#[tactic(auto, unfolding(cq_position::specs::Led::led))]
pub fn led_by(before: &Position, m: Move) -> Option<Led>
    ensures { result ≡ led_as before.now m }
{
    if m.null {
        return None;
    }
    let played = &m;
    Some(Led {
        origin: played.from,
        goal: played.to,
        taken: taken_by(before, played),
        promoted: played.promotion != Promotion::None,
    })
}

// The square on which a move takes a man.
fn taken_by(before: &Position, m: &Move) -> Option<Square>
    ensures { result ≡ taken_square before.now m.now }
{
    if before.at(m.to) != Man::Empty {
        Some(m.to)
    } else if is_pawn(before.at(m.from)) && file(m.from) != file(m.to) {
        Some(square_at(file(m.to), rank(m.from)))
    } else {
        None
    }
}

/// A legal move takes a man on a square exactly if a man of the other side is there before the move, and no man of that side after it. If
/// there is no such square, the move takes none. A null move never takes.
#[tactic(auto, using(crate::proofs::Taken::taken_law))]
pub fn taken_men_are_gone()
    ensures { (p : Board) (m : MoveValue) (q : Board) → IsPosition p → Leads p m q → (s : ℕ) →
        (taken_by (led p m) ≡ Some s) ↔ IsCapturedOn p q s }
{}
