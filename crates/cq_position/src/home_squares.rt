//! The home squares of kings and rooks at the start of a game, and the squares to which they castle (FIDE Laws of Chess, articles 2.3 and
//! 3.8.2).
ghost use Rattle.std.specs.Prelude.{◌≡◌};
ghost use Rattle.cq_position.specs.Board as board;
ghost use Rattle.cq_position.specs.Legal as legal;

use crate::men::Side;
use cq_geometry::Square;

const A1: u8 = 0;

const C1: u8 = 2;

const D1: u8 = 3;

const E1: u8 = 4;

const F1: u8 = 5;

const G1: u8 = 6;

const H1: u8 = 7;

const A8: u8 = 56;

const C8: u8 = 58;

const D8: u8 = 59;

const E8: u8 = 60;

const F8: u8 = 61;

const G8: u8 = 62;

const H8: u8 = 63;

/// The home square of a side's king.
#[inline]
pub fn king_home(side: Side) -> Square
    ensures { result ≡ board.king_home side }
{
    match side {
        Side::White => Square::new(E1),
        Side::Black => Square::new(E8),
    }
}

/// The home square of a side's rook on the king's side, or on the queen's side.
#[inline]
pub fn rook_home(side: Side, kingside: bool) -> Square
    ensures { result ≡ board.rook_home side kingside }
{
    match (side, kingside) {
        (Side::White, true) => Square::new(H1),
        (Side::White, false) => Square::new(A1),
        (Side::Black, true) => Square::new(H8),
        (Side::Black, false) => Square::new(A8),
    }
}

/// The square to which the king castles.
#[inline]
pub fn castling_goal(side: Side, kingside: bool) -> Square
    ensures { result ≡ legal.castling_goal side kingside }
{
    match (side, kingside) {
        (Side::White, true) => Square::new(G1),
        (Side::White, false) => Square::new(C1),
        (Side::Black, true) => Square::new(G8),
        (Side::Black, false) => Square::new(C8),
    }
}

/// The square that the king crosses, to which the rook goes.
#[inline]
pub fn castling_crossed(side: Side, kingside: bool) -> Square
    ensures { result ≡ legal.castling_crossed side kingside }
{
    match (side, kingside) {
        (Side::White, true) => Square::new(F1),
        (Side::White, false) => Square::new(D1),
        (Side::Black, true) => Square::new(F8),
        (Side::Black, false) => Square::new(D8),
    }
}
