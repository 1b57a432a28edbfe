//! The men on the board after a move.
ghost use Rattle.std.specs.Prelude.{◌≡◌, slice_set};
ghost use Rattle.cq_position.specs.declared.men.Man.TheVariants.{Empty};
ghost use Rattle.cq_position.specs.Board.{man_at};
ghost use Rattle.cq_position.specs.Legal as legal;

use crate::castling::{is_castling, move_rook};
use cq_geometry::{Square, file, files_apart, rank, square_at};
use cq_position::position::is_pawn;
use cq_position::{Man, Men, Move, Piece, Position, Promotion, Side, man_of};

/// The men on the squares a1, b1, .. h8 after a move of the side to move.
///
/// Castling also moves the rook. A capture on the en passant square removes the pawn that has passed it. A promotion puts the new man on
/// the goal. The move is not judged, and can leave the mover's king in check.
#[inline(always)]
pub fn men_after(position: &Position, m: &Move) -> Men
    ensures { result ≡ legal.men_after position.now m.now }
{
    let mut men = men_moved(position, m);
    if is_castling(position, m) {
        move_rook(&mut men, position.side(), m.from.number() < m.to.number());
    } else if is_en_passant_capture(position, m) {
        men.set(square_at(file(m.to), rank(m.from)), Man::Empty);
    }
    men
}

// The men after the man went to its goal. Promotions are rare, so they are a separate case.
#[inline]
fn men_moved(position: &Position, m: &Move) -> Men
    ensures { result ≡ legal.men_moved position.now m.now }
{
    match m.promotion {
        Promotion::None => men_carried(position, m),
        _ => men_promoted(position, m),
    }
}

// The men after the man went to its goal unchanged.
#[inline]
fn men_carried(position: &Position, m: &Move) -> Men
    ensures { result ≡ slice_set (slice_set position.now.men m.now.from Empty) m.now.to (man_at position.now.men m.now.from) }
{
    let mut men = *position.men();
    men.carry(m.from, m.to);
    men
}

// The men after the man went to its goal and was promoted.
fn men_promoted(position: &Position, m: &Move) -> Men
    ensures { result ≡ legal.men_moved position.now m.now }
{
    let man = promoted(position.side(), m.promotion, position.at(m.from));
    let mut men = *position.men();
    men.set(m.from, Man::Empty);
    men.set(m.to, man);
    men
}

// The man on the goal after the move.
#[inline]
fn promoted(side: Side, promotion: Promotion, man: Man) -> Man
    ensures { result ≡ legal.promoted side promotion man }
{
    match promotion {
        Promotion::None => man,
        Promotion::Q => man_of(side, Piece::Queen),
        Promotion::R => man_of(side, Piece::Rook),
        Promotion::B => man_of(side, Piece::Bishop),
        Promotion::N => man_of(side, Piece::Knight),
    }
}

/// Returns true if the move captures en passant: a pawn goes to the en passant square (FIDE Laws of Chess, article 3.7.3.2).
#[inline]
pub fn is_en_passant_capture(position: &Position, m: &Move) -> bool
    ensures { result ≡ legal.is_en_passant_capture position.now m.now }
{
    position.passant() == Some(m.to)
        && files_apart(m.from, m.to) == 1
        && is_pawn(position.at(m.from))
}

/// The square halfway between two, half the sum of their numbers. It is for instance the square that a pawn's double step passes.
#[inline]
pub fn middle(a: Square, b: Square) -> Square
    ensures { result ≡ legal.middle a b }
{
    Square::new((a.number() + b.number()) / 2)
}
