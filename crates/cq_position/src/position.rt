//! Positions.
ghost use Rattle.std.specs.Prelude.{◌≡◌, ◌<◌, true};
ghost use Rattle.std.specs.List.{list_any};
ghost use Rattle.cq_position.specs.Board.{man_at, castling_right, start_board, count_of};
ghost use Rattle.cq_position.specs.Board as board;
ghost use Rattle.cq_position.specs.Position.{IsPosition};

use crate::men::{Man, Side, is_of_side};
use crate::planes::Men;
use cq_geometry::Square;
use std::marker::Model;

/// The rights to castle that are left (FIDE Laws of Chess, article 3.8.2).
#[derive(Clone, Copy, Debug, PartialEq, Eq)]
pub struct Rights {
    /// White can still castle with the rook of h1.
    pub white_kingside: bool,
    /// White can still castle with the rook of a1.
    pub white_queenside: bool,
    /// Black can still castle with the rook of h8.
    pub black_kingside: bool,
    /// Black can still castle with the rook of a8.
    pub black_queenside: bool,
}

/// A position. Contracts see its board.
///
/// It has one king of each side, no pawn on the first or the last rank, and at most sixteen men of a side. Each right to castle has its
/// king and rook at home. An en passant square is one that the opponent's pawn can just have passed. The side that is not to move is not in
/// check. The number of the move is at least 1.
#[derive(Clone, Copy, Debug, PartialEq, Eq)]
pub struct Position {
    number: u32,
    men: Men,
    side: Side,
    rights: Rights,
    passant: Option<Square>,
}

impl Model for Position {
    ghost use Rattle.cq_position.specs.Board.{Board};

    ghost Value = { Board };

    ghost use Rattle.cq_position.specs.BoardInside.{board_inside, inside_of};
    ghost use Rattle.cq_position.specs.Position.{IsPosition};

    ghost view = { board_inside };

    ghost invariant = { λ p. IsPosition (board_inside p) };

    ghost inverse = { inside_of };
}

impl Position {
    /// The position at the start of a game.
    pub fn start() -> Position
        ensures { result ≡ start_board }
    {
        use Man::{B, BlackB, BlackK, BlackN, BlackP, BlackQ, BlackR, Empty, K, N, P, Q, R};
        Position {
            number: 1,
            men: Men::of(&[
                R, N, B, Q, K, B, N, R, //
                P, P, P, P, P, P, P, P, //
                Empty, Empty, Empty, Empty, Empty, Empty, Empty, Empty, //
                Empty, Empty, Empty, Empty, Empty, Empty, Empty, Empty, //
                Empty, Empty, Empty, Empty, Empty, Empty, Empty, Empty, //
                Empty, Empty, Empty, Empty, Empty, Empty, Empty, Empty, //
                BlackP, BlackP, BlackP, BlackP, BlackP, BlackP, BlackP, BlackP, //
                BlackR, BlackN, BlackB, BlackQ, BlackK, BlackB, BlackN, BlackR,
            ]),
            side: Side::White,
            rights: Rights {
                white_kingside: true,
                white_queenside: true,
                black_kingside: true,
                black_queenside: true,
            },
            passant: None,
        }
    }

    /// The position of these parts, which satisfy the invariant of positions.
    #[inline(always)]
    pub fn from_parts(
        number: u32,
        men: Men,
        side: Side,
        rights: Rights,
        passant: Option<Square>,
    ) -> Position
        requires { IsPosition (record { men = men; side = side; rights = rights; passant = passant; number = number }) }
        ensures { result ≡ record { men = men; side = side; rights = rights; passant = passant; number = number } }
    {
        Position {
            number,
            men,
            side,
            rights,
            passant,
        }
    }

    /// The man on a square, or `Empty`.
    #[inline]
    pub fn at(&self, square: Square) -> Man
        ensures man { result ≡ man_at self.now.men square }
        ensures board { square < 64 }
        ensures kept { IsPosition self.now }
    {
        prove!(square.number() < 64);
        self.men.at(square)
    }

    /// The men on the squares a1, b1, .. h8.
    #[inline]
    pub fn men(&self) -> &Men
        ensures men { result.now ≡ self.now.men }
        ensures kept { IsPosition self.now }
    {
        &self.men
    }

    /// Returns true, since the number of the move is never 0. Proofs call it for its clauses, the invariant of positions.
    #[inline]
    pub fn is_position(&self) -> bool
        ensures value { result ≡ true }
        ensures kept { IsPosition self.now }
    {
        self.number > 0
    }

    /// The side to move.
    #[inline]
    pub fn side(&self) -> Side
        ensures side { result ≡ self.now.side }
        ensures kept { IsPosition self.now }
    {
        self.side
    }

    /// The en passant square: one that the opponent's pawn can just have passed by a double step.
    #[inline]
    pub fn passant(&self) -> Option<Square>
        ensures square { result ≡ self.now.passant }
        ensures kept { IsPosition self.now }
    {
        self.passant
    }

    /// Returns true if a side has the right to castle on the king's side, or on the queen's side.
    #[inline]
    pub fn may_castle(&self, side: Side, kingside: bool) -> bool
        ensures right { result ≡ castling_right self.now.rights side kingside }
        ensures kept { IsPosition self.now }
    {
        right_of(self.rights, side, kingside)
    }

    /// The rights to castle.
    pub fn rights(&self) -> Rights
        ensures rights { result ≡ self.now.rights }
        ensures kept { IsPosition self.now }
    {
        self.rights
    }

    /// The number of the move, from 1 to 4,294,967,295. It rises after Black's moves.
    pub fn number(&self) -> u32
        ensures number { result ≡ self.now.number }
        ensures kept { IsPosition self.now }
    {
        self.number
    }
}

// Returns true if a side has the right to castle on the king's side, or on the queen's side.
#[inline]
fn right_of(rights: Rights, side: Side, kingside: bool) -> bool
    ensures { result ≡ castling_right rights side kingside }
{
    match (side, kingside) {
        (Side::White, true) => rights.white_kingside,
        (Side::White, false) => rights.white_queenside,
        (Side::Black, true) => rights.black_kingside,
        (Side::Black, false) => rights.black_queenside,
    }
}

/// Returns true if a square of the board has this man, or is empty for `Empty`.
#[inline]
pub fn stands(men: &Men, square: Square, man: Man) -> bool
    ensures { result ≡ board.stands men.now square man }
{
    men.at(square) == man
}

/// The number of squares with this man, or of empty squares for `Empty`, from 0 to 64.
#[tactic(auto, using(crate::proofs::Counts::counted))]
pub fn material(position: &Position, man: Man) -> u32
    ensures { result ≡ count_of man position.now.men }
{
    prove!(position.is_position());
    position.men().squares_of(man).count_ones()
}

// The number of squares with this man.
fn count(men: &[Man; 64], man: Man) -> u32
    ensures { result ≡ count_of man men.now }
{
    men.iter().filter(|m| **m == man).count() as u32
}

/// Returns true if there is exactly one king of each side.
pub fn has_kings(men: &[Man; 64]) -> bool
    ensures { result ≡ board.has_kings men.now }
{
    count(men, Man::K) == 1 && count(men, Man::BlackK) == 1
}

/// Returns true if a pawn of either side is on the first or the last rank.
pub fn has_pawn_on_edge(men: &[Man; 64]) -> bool
    ensures { result ≡ board.has_pawn_on_edge men.now }
{
    has_pawn(&men[0..8]) || has_pawn(&men[56..64])
}

fn has_pawn(squares: &[Man]) -> bool
    ensures { result ≡ list_any board.is_pawn squares.now }
{
    squares.iter().any(|m| is_pawn(*m))
}

/// Returns true if a man is a pawn of either side.
#[inline]
pub fn is_pawn(man: Man) -> bool
    ensures { result ≡ board.is_pawn man }
{
    man == Man::P || man == Man::BlackP
}

/// Returns true if a side has more than sixteen men.
pub fn has_too_many_men(men: &[Man; 64]) -> bool
    ensures { result ≡ board.has_too_many_men men.now }
{
    count_of_side(men, Side::White) > 16 || count_of_side(men, Side::Black) > 16
}

// The number of a side's men.
fn count_of_side(men: &[Man; 64], side: Side) -> u32
    ensures { result ≡ board.count_of_side side men.now }
{
    men.iter().filter(|m| is_of_side(**m, side)).count() as u32
}
