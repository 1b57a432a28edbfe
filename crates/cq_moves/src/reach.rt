//! The moves of men of the side to move, square by square (FIDE Laws of Chess, article 3).
ghost use Rattle.std.specs.Prelude.{◌≡◌, ◌<◌};
ghost use Rattle.cq_position.specs.Attacks as attack;
ghost use Rattle.cq_position.specs.Legal as legal;
ghost use Rattle.cq_position.specs.Bitboards.{IsBitboard};
ghost use Rattle.cq_moves.specs.Candidates.{is_ahead, may_come};
ghost use Rattle.cq_position.specs.Position.{IsPosition};
ghost use Rattle.cq_moves.specs.LegalMoves as list;

use crate::castling::castles;
use crate::men_after::middle;
use cq_geometry::{Square, Step, rank};
use cq_position::attacks::{is_occupied, is_pawn_attack, squares_attacked};
use cq_position::home_squares::king_home;
use cq_position::position::is_pawn;
use cq_position::{
    Man, Move, Piece, Position, Promotion, Side, is_of_side, king_of, man_of, opponent,
};
use cq_square_sets::set_of;

/// Returns true if a man of the side to move goes from one square to another that has none of its own men and no king. `attacked` is true
/// if the man attacks the other square.
#[tactic(auto, unfolding(cq_position::specs::Legal::reaches))]
#[inline]
pub(crate) fn reaches(position: &Position, attacked: bool, from: Square, to: Square) -> bool
    requires { attacked ≡ attack.attacks position.now.men from to }
    ensures reaches { result ≡ legal.reaches position.now from to }
    ensures board { to < 64 }
{
    let man = position.at(from);
    let other = position.at(to);
    is_of_side(man, position.side())
        && !is_of_side(other, position.side())
        && other != king_of(opponent(position.side()))
        && goes(man, position, attacked, from, to)
}

/// Returns true if a man attacks a square, by the set of the squares that it attacks.
#[inline]
pub(crate) fn attacks(position: &Position, attacked: u64, from: Square, to: Square) -> bool
    requires { IsBitboard attacked (attack.attacks position.now.men from) }
    ensures { result ≡ attack.attacks position.now.men from to }
{
    attacked >> to.number() & 1 == 1
}

/// The candidates for the origin of a move to the goal by such a piece of the side to move. Every origin of such a move is in the set. Bit
/// k of the result is the square k.
#[tactic(auto, using(cq_square_sets::proofs::Marked::marks_or))]
#[inline]
pub fn origins_to(position: &Position, piece: Piece, goal: Square) -> u64
    ensures mask { IsBitboard result (may_come position.now.side piece (attack.is_occupied position.now.men) goal) }
    ensures kept { IsPosition position.now }
    ensures goal { goal < 64 }
{
    prove!(goal.number() < 64);
    let side = position.side();
    match piece {
        Piece::King => squares_attacked(king_of(side), position.men(), goal)
            | set_of(Some(king_home(side))),
        Piece::Pawn => {
            squares_attacked(man_of(opponent(side), Piece::Pawn), position.men(), goal)
                | squares_ahead(opponent(side), goal)
        }
        _ => squares_attacked(man_of(side, piece), position.men(), goal),
    }
}

// The squares one and two ranks forward.
fn squares_ahead(side: Side, from: Square) -> u64
    ensures { IsBitboard result (is_ahead side from) }
{
    match side {
        Side::White => set_of(Step::<0, 1>::step(from)) | set_of(Step::<0, 2>::step(from)),
        Side::Black => set_of(Step::<0, -1>::step(from)) | set_of(Step::<0, -2>::step(from)),
    }
}

// Returns true if the man goes from one square to the other.
#[inline]
fn goes(man: Man, position: &Position, attacked: bool, from: Square, to: Square) -> bool
    requires { attacked ≡ attack.attacks position.now.men from to }
    ensures { result ≡ legal.goes_as man position.now from to }
{
    match man {
        Man::K | Man::BlackK => {
            attacked || castles(position, from, to, true) || castles(position, from, to, false)
        }
        Man::P | Man::BlackP => pawn_moves(position, from, to),
        Man::Empty => false,
        _ => attacked,
    }
}

// Returns true if a pawn steps or captures from one square to the other.
#[inline]
pub(crate) fn pawn_moves(position: &Position, from: Square, to: Square) -> bool
    ensures { result ≡ legal.pawn_moves position.now from to }
{
    let side = position.side();
    let men = position.men();
    is_single_step(side, from, to) && !is_occupied(men, to)
        || is_double_step(side, from, to)
            && !is_occupied(men, middle(from, to))
            && !is_occupied(men, to)
        || is_pawn_attack(side, from, to)
            && (is_of_side(position.at(to), opponent(side)) || position.passant() == Some(to))
}

#[inline]
fn is_single_step(side: Side, from: Square, to: Square) -> bool
    ensures { result ≡ legal.is_single_step side from to }
{
    match side {
        Side::White => to.number() == from.number() + 8,
        Side::Black => from.number() == to.number() + 8,
    }
}

#[inline]
fn is_double_step(side: Side, from: Square, to: Square) -> bool
    ensures { result ≡ legal.is_double_step side from to }
{
    match side {
        Side::White => rank(from) == 1 && to.number() == from.number() + 16,
        Side::Black => rank(from) == 6 && from.number() == to.number() + 16,
    }
}

/// Returns true if a pawn promotes exactly on the last rank, and no other man promotes (FIDE Laws of Chess, article 3.7).
#[inline]
pub(crate) fn promotion_is_right(position: &Position, m: &Move) -> bool
    ensures { result ≡ legal.promotion_is_right position.now m.now }
{
    if promotes(position, m.from, m.to) {
        m.promotion != Promotion::None
    } else {
        m.promotion == Promotion::None
    }
}

/// Returns true if a pawn goes to the last rank, where it promotes (FIDE Laws of Chess, article 3.7.3.3).
#[inline]
pub(crate) fn promotes(position: &Position, from: Square, to: Square) -> bool
    ensures { result ≡ list.promotes position.now from to }
{
    rank(to) == last_rank(position.side()) && is_pawn(position.at(from))
}

/// The rank farthest from a side's pawns at the start, 7 or 0.
#[inline]
pub(crate) fn last_rank(side: Side) -> u8
    ensures { result ≡ legal.last_rank side }
{
    match side {
        Side::White => 7,
        Side::Black => 0,
    }
}
