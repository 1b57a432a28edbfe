//! Mate and stalemate (FIDE Laws of Chess, articles 5.1.1 and 5.2.1).
ghost use Rattle.std.specs.Prelude.{◌≡◌, ◌<◌, ◌↔◌, IsTrue, true};
ghost use Rattle.std.specs.List.{list_any};
ghost use Rattle.cq_position.specs.Legal as legal;
ghost use Rattle.cq_position.specs.Legality.{legal_test};
ghost use Rattle.cq_moves.specs.LegalMoves.{all_moves, moves_from, moves_between, move_of};
ghost use Rattle.cq_moves.specs.Internal.Mover.{IsMover, IsOrigin};
ghost use Rattle.cq_moves.specs.Mate.{IsMate, IsStalemate};

use crate::goals::goals_from;
use crate::mover::{Mover, Origin, is_legal_to, mover_of, origin_of};
use cq_geometry::Square;
use cq_position::{Move, Position, Promotion, in_check};
use cq_square_sets::lowest_square;

/// Returns true if the side to move is checkmated: it is in check and has no legal move.
pub fn is_mate(position: &Position) -> bool
    ensures { IsTrue result ↔ IsMate position.now }
{
    in_check(position, position.side()) && !has_legal_move(position)
}

/// Returns true if the side to move is stalemated: it is not in check and has no legal move.
pub fn is_stalemate(position: &Position) -> bool
    ensures { IsTrue result ↔ IsStalemate position.now }
{
    !has_legal_move(position) && !in_check(position, position.side())
}

// Returns true if the side to move has a legal move.
fn has_legal_move(position: &Position) -> bool
    ensures { result ≡ list_any (legal_test position.now) all_moves }
{
    let mover = mover_of(position);
    let mut left = position.men().squares_of_side(position.side());
    while left != 0 {
        let from = lowest_square(left);
        left &= !(1 << from.number());
        if has_legal_move_from(position, &mover, from) {
            return true;
        }
    }
    false
}

fn has_legal_move_from(position: &Position, mover: &Mover, from: Square) -> bool
    requires { IsMover position.now mover.now }
    ensures { result ≡ list_any (legal_test position.now) (moves_from from) }
{
    let origin = origin_of(position, mover, from);
    let mut left = goals_from(position, mover, &origin);
    while left != 0 {
        let to = lowest_square(left);
        left &= !(1 << to.number());
        if has_legal_choice(position, mover, &origin, to) {
            return true;
        }
    }
    false
}

// Returns true if a move to one of the man's goals is legal for some promotion or none.
fn has_legal_choice(position: &Position, mover: &Mover, origin: &Origin, to: Square) -> bool
    requires mover { IsMover position.now mover.now }
    requires origin { IsOrigin position.now origin.now }
    requires reaches { legal.reaches position.now origin.now.from to ≡ true }
    requires board { to < 64 }
    ensures { result ≡ list_any (legal_test position.now) (moves_between origin.now.from to) }
{
    is_legal_choice(position, mover, origin, to, Promotion::None)
        || is_legal_choice(position, mover, origin, to, Promotion::Q)
        || is_legal_choice(position, mover, origin, to, Promotion::R)
        || is_legal_choice(position, mover, origin, to, Promotion::B)
        || is_legal_choice(position, mover, origin, to, Promotion::N)
}

fn is_legal_choice(
    position: &Position,
    mover: &Mover,
    origin: &Origin,
    to: Square,
    promotion: Promotion,
) -> bool
    requires mover { IsMover position.now mover.now }
    requires origin { IsOrigin position.now origin.now }
    requires reaches { legal.reaches position.now origin.now.from to ≡ true }
    requires board { to < 64 }
    ensures { result ≡ legal_test position.now (move_of origin.now.from to promotion) }
{
    is_legal_to(
        position,
        mover,
        origin,
        &Move {
            from: origin.from,
            to,
            promotion,
            null: false,
        },
    )
}
