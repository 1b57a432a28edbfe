//! The position after a move.
ghost use Rattle.std.specs.Prelude.{◌≡◌, ◌||◌, if◌then◌else◌, Some, None};
ghost use Rattle.cq_position.specs.Board.{Board, is_pawn, man_at};
ghost use Rattle.cq_position.specs.Legal.{Legal};
ghost use Rattle.cq_position.specs.Legal as legal;
ghost use Rattle.cq_position.specs.Position.{IsPosition};

use crate::men_after::{men_after, middle};
use cq_geometry::{Square, ranks_apart};
use cq_position::home_squares::rook_home;
use cq_position::position::is_pawn;
use cq_position::{Move, Position, Rights, Side, king_of, opponent};

/// The position after a legal move.
///
/// The men are those of `men_after`, with castling, captures on the en passant square and promotions. A king's move ends both rights of its
/// side. A move from or to a rook's home square ends the right with that rook. A pawn's double step sets the en passant square that it
/// passed, and any other move sets none. The number rises after Black's move, up to 4,294,967,295.
#[tactic(auto, using(crate::proofs::Kept::made_is_position, crate::proofs::Kept::made_is_legal))]
#[inline(always)]
pub fn play(position: &Position, m: Move) -> Position
    requires { (q : Board) × Legal position.now m q }
    ensures legal { Legal position.now m result }
    ensures kept { IsPosition result }
{
    Position::from_parts(
        number_after(position),
        men_after(position, &m),
        opponent(position.side()),
        rights_after(position, &m),
        passant_after(position, &m),
    )
}

/// The number of the next move: one more after Black's move, up to 4,294,967,295.
pub(crate) fn number_after(position: &Position) -> u32
    ensures { result ≡ legal.number_after position.now }
{
    match position.side() {
        Side::White => position.number(),
        Side::Black => position.number().saturating_add(1),
    }
}

// The rights after a move. Most moves of a game are made with no right left, so that is tested first.
#[tactic(auto, using(crate::proofs::Rights::none_after))]
fn rights_after(position: &Position, m: &Move) -> Rights
    ensures { result ≡ legal.rights_after position.now m.now }
{
    let rights = position.rights();
    if !has_some(&rights) {
        return rights;
    }
    Rights {
        white_kingside: keeps_right(position, m, Side::White, true),
        white_queenside: keeps_right(position, m, Side::White, false),
        black_kingside: keeps_right(position, m, Side::Black, true),
        black_queenside: keeps_right(position, m, Side::Black, false),
    }
}

// Returns true if a side has a right.
fn has_some(rights: &Rights) -> bool
    ensures { result ≡ (((rights.now.white_kingside || rights.now.white_queenside) || rights.now.black_kingside)
        || rights.now.black_queenside) }
{
    rights.white_kingside
        || rights.white_queenside
        || rights.black_kingside
        || rights.black_queenside
}

// Returns true if a right is left: neither king nor rook has moved or was captured.
fn keeps_right(position: &Position, m: &Move, side: Side, kingside: bool) -> bool
    ensures { result ≡ legal.keeps_right position.now m.now side kingside }
{
    let home = rook_home(side, kingside);
    position.may_castle(side, kingside)
        && position.at(m.from) != king_of(side)
        && m.from != home
        && m.to != home
}

// The en passant square after a move. Few moves go two ranks, so the distance is tested first.
#[tactic(auto, using(crate::proofs::Rights::with_true, crate::proofs::Rights::with_false))]
fn passant_after(position: &Position, m: &Move) -> Option<Square>
    ensures { result ≡ legal.passant_after position.now m.now }
{
    if ranks_apart(m.from, m.to) == 2 {
        passed_by(position, m)
    } else {
        None
    }
}

// The square in the middle of a pawn's double step.
fn passed_by(position: &Position, m: &Move) -> Option<Square>
    ensures { result ≡ (if is_pawn (man_at position.now.men m.now.from) then Some (legal.middle m.now.from m.now.to) else None) }
{
    if is_pawn(position.at(m.from)) {
        Some(middle(m.from, m.to))
    } else {
        None
    }
}
