//! The legality of a move.
ghost use Rattle.std.specs.Prelude.{◌≡◌, ◌↔◌, ◌<◌, ◌||◌, IsTrue, true, false};
ghost use Rattle.cq_position.specs.Attacks as attack;
ghost use Rattle.cq_position.specs.Bitboards.{IsBitboard};
ghost use Rattle.cq_position.specs.Board.{Board, man_at, stands};
ghost use Rattle.cq_position.specs.Men.{man_of};
ghost use Rattle.cq_position.specs.declared.men.Piece.TheVariants.{King};
ghost use Rattle.cq_position.specs.Legal.{Legal};
ghost use Rattle.cq_position.specs.King.{IsKingSquare};
ghost use Rattle.cq_position.specs.Legal as legal;
ghost use Rattle.cq_position.specs.Legality as legality;
ghost use Rattle.cq_moves.specs.Candidates.{may_come};
ghost use Rattle.cq_moves.specs.Internal.Mover as mover;

use crate::castling::castles;
use crate::goals::free_squares;
use crate::men_after::men_after;
use crate::reach::{attacks, pawn_moves, promotion_is_right, reaches};
use cq_geometry::Square;
use cq_position::attacks::is_attacked;
use cq_position::king::king_square;
use cq_position::{Move, Piece, Position, attacks_from, opponent};

/// Returns true if a move is legal in a position (FIDE Laws of Chess, articles 3.1 to 3.10.1). The man can make the move, and the king of
/// its side isn't attacked afterwards. A null move is not legal in this sense.
#[tactic(auto, using(cq_position::proofs::Legality::legal_law))]
pub fn is_legal(position: &Position, m: Move) -> bool
    ensures { IsTrue result ↔ ((q : Board) × Legal position.now m q) }
{
    passes(position, &m)
}

/// Returns true if a move of such a piece is legal. `seen` is the result of [`origins_to`](crate::origins_to) for the goal, so that no line
/// is searched again.
#[tactic(auto, using(crate::proofs::Law::passes_in_parts))]
pub fn is_legal_seen(position: &Position, piece: Piece, seen: u64, m: &Move) -> bool
    requires seen { IsBitboard seen (may_come position.now.side piece (attack.is_occupied position.now.men) m.now.to) }
    requires piece { stands position.now.men m.now.from (man_of position.now.side piece) ≡ true }
    requires null { m.now.null ≡ false }
    ensures { result ≡ legality.legal_test position.now m.now }
{
    reaches_seen(position, piece, seen, m) && is_legal_reach(position, m)
}

// Returns true if the move of a man to a square that it reaches is legal.
#[inline]
fn is_legal_reach(position: &Position, m: &Move) -> bool
    requires null { m.now.null ≡ false }
    requires board { m.now.to < 64 }
    requires reaches { legal.reaches position.now m.now.from m.now.to ≡ true }
    ensures { result ≡ legality.legal_test position.now m.now }
{
    promotion_is_right(position, m) && is_safe(position, king_square(position, position.side()), m)
}

// Returns true if the man goes to the goal, and the goal has none of its own men and no king.
#[inline]
fn reaches_seen(position: &Position, piece: Piece, seen: u64, m: &Move) -> bool
    requires seen { IsBitboard seen (may_come position.now.side piece (attack.is_occupied position.now.men) m.now.to) }
    requires piece { stands position.now.men m.now.from (man_of position.now.side piece) ≡ true }
    ensures reaches { result ≡ legal.reaches position.now m.now.from m.now.to }
    ensures board { m.now.to < 64 }
{
    prove!(m.to.number() < 64);
    goes_seen(position, piece, seen, m) && is_free(position, m.to)
}

// Returns true if the man goes to the goal. The test that the goal is free is separate. Every man but pawns and kings is seen from the
// goal exactly if it attacks the goal.
#[inline]
fn goes_seen(position: &Position, piece: Piece, seen: u64, m: &Move) -> bool
    requires seen { IsBitboard seen (may_come position.now.side piece (attack.is_occupied position.now.men) m.now.to) }
    requires piece { stands position.now.men m.now.from (man_of position.now.side piece) ≡ true }
    ensures { result ≡ legal.goes_as (man_at position.now.men m.now.from) position.now m.now.from m.now.to }
{
    match piece {
        Piece::King => king_goes(position, m),
        Piece::Pawn => pawn_moves(position, m.from, m.to),
        _ => comes(position, piece, seen, m),
    }
}

// Returns true if the king makes this move, by a step or by castling.
fn king_goes(position: &Position, m: &Move) -> bool
    requires { stands position.now.men m.now.from (man_of position.now.side King) ≡ true }
    ensures { result ≡ (attack.attacks position.now.men m.now.from m.now.to
        || legal.castles position.now m.now.from m.now.to true || legal.castles position.now m.now.from m.now.to false) }
{
    attacks(position, attacks_from(position, m.from), m.from, m.to)
        || castles(position, m.from, m.to, true)
        || castles(position, m.from, m.to, false)
}

// Returns true if the square has no man of the side to move and no king.
#[inline]
fn is_free(position: &Position, square: Square) -> bool
    ensures { result ≡ mover.is_free position.now square }
{
    free_squares(position) >> square.number() & 1 == 1
}

// Returns true if the move goes from a square of the set.
#[inline]
fn comes(position: &Position, piece: Piece, seen: u64, m: &Move) -> bool
    requires { IsBitboard seen (may_come position.now.side piece (attack.is_occupied position.now.men) m.now.to) }
    ensures value { result ≡ may_come position.now.side piece (attack.is_occupied position.now.men) m.now.to m.now.from }
    ensures board { m.now.from < 64 }
    ensures goal { m.now.to < 64 }
{
    prove!(m.to.number() < 64);
    seen >> m.from.number() & 1 == 1
}

// The test of legality, with the cheap parts first.
#[tactic(auto, using(crate::proofs::Law::null_fails, crate::proofs::Law::passes_in_parts))]
fn passes(position: &Position, m: &Move) -> bool
    ensures { result ≡ legality.legal_test position.now m.now }
{
    !m.null
        && reaches(
            position,
            attacks(position, attacks_from(position, m.from), m.from, m.to),
            m.from,
            m.to,
        )
        && is_legal_reach(position, m)
}

/// Returns true if the king of the side that moved isn't attacked after the move (FIDE Laws of Chess, article 3.9.2). `king` is its square
/// before the move.
#[tactic(auto, using(crate::proofs::Safety::safe_at_king))]
pub(crate) fn is_safe(position: &Position, king: Square, m: &Move) -> bool
    requires king { IsKingSquare position.now.men position.now.side king }
    requires moves { legal.is_pseudo_legal position.now m.now ≡ true }
    ensures { result ≡ legality.is_safe position.now m.now }
{
    let men = men_after(position, m);
    !is_attacked(&men, opponent(position.side()), king_after(king, m))
}

// The king's square after the move.
fn king_after(king: Square, m: &Move) -> Square
    ensures { result ≡ mover.king_after king m.now }
{
    if m.from == king { m.to } else { king }
}
