//! The origins of moves that agree with the parts of a text.
ghost use Rattle.std.specs.Prelude.{◌≡◌, ◌<◌, ◌==◌, ◌&&◌, not, ℕ, Bool, true, false, map};
ghost use Rattle.cq_position.specs.Attacks.{is_occupied};
ghost use Rattle.cq_square_sets.specs.Bitboards.{IsBitboard};
ghost use Rattle.cq_moves.specs.Candidates.{may_come};
ghost use Rattle.cq_position.specs.Board.{Board, stands};
ghost use Rattle.cq_position.specs.Men.{man_of};
ghost use Rattle.cq_position.specs.Legal as legal;
ghost use Rattle.cq_position.specs.Legality.{legal_test};
ghost use Rattle.cq_san.specs.Fits as fit;
ghost use Rattle.cq_san.specs.Internal.Origins as origin;
ghost use Rattle.cq_san.specs.Reading.{only};

use crate::fault::SanFault;
use crate::fit::comes_from;
use crate::parts::PieceMove;
use arrayvec::ArrayVec;
use cq_geometry::Square;
use cq_moves::{is_castling, is_legal_seen, origins_to};
use cq_position::home_squares::{castling_goal, king_home};
use cq_position::{Move, Position, Promotion, Side, man_of};
use cq_square_sets::lowest_square;

/// The origins of the legal moves, other than castling, that agree with the parts.
pub(crate) fn origins(position: &Position, parts: &PieceMove) -> ArrayVec<Square, 64>
    ensures { result.items ≡ origin.origins position.now parts.now }
{
    let mut found = ArrayVec::new();
    let there = position
        .men()
        .squares_of(man_of(position.side(), parts.piece));
    let seen = origins_to(position, parts.piece, parts.goal);
    let mut left = seen & there;
    while left != 0 {
        let from = lowest_square(left);
        left &= !(1 << from.number());
        if is_origin(position, parts, seen, there, from) {
            found.push(from);
        }
    }
    found
}

/// The only legal move, other than castling, that agrees with the parts.
// The origins are not stored, since a text that means a move has only one.
#[inline(always)]
pub(crate) fn only_move(position: &Position, parts: &PieceMove) -> Result<Move, SanFault>
    ensures { result ≡ only (map (origin.move_from parts.now) (origin.origins position.now parts.now)) }
{
    let there = position
        .men()
        .squares_of(man_of(position.side(), parts.piece));
    let seen = origins_to(position, parts.piece, parts.goal);
    let mut found = None;
    let mut left = seen & there;
    while left != 0 {
        let from = lowest_square(left);
        left &= !(1 << from.number());
        if is_origin(position, parts, seen, there, from) {
            if found.is_some() {
                return Err(SanFault::AmbiguousMove);
            }
            found = Some(from);
        }
    }
    match found {
        Some(from) => Ok(move_from(parts, from)),
        None => Err(SanFault::IllegalMove),
    }
}

/// Returns true only if no man of the kind can come to the goal from a square other than this one. Then no other square is an origin.
pub(crate) fn is_sole_origin(position: &Position, parts: &PieceMove, from: Square) -> bool
    ensures { result ≡ true → (s : ℕ) → s < 64 → (s == from) ≡ false → origin.is_origin position.now parts.now s ≡ false }
{
    let there = position
        .men()
        .squares_of(man_of(position.side(), parts.piece));
    let seen = origins_to(position, parts.piece, parts.goal);
    seen & there & !(1 << from.number()) == 0
}

// Returns true if a square is an origin. The parts are tested before the legality, which takes longer. `seen` has the candidates for the
// origin, and `there` the squares of the piece.
#[inline(always)]
fn is_origin(position: &Position, parts: &PieceMove, seen: u64, there: u64, from: Square) -> bool
    requires seen { IsBitboard seen (may_come position.now.side parts.now.piece (is_occupied position.now.men) parts.now.goal) }
    requires there { IsBitboard there (λ square. stands position.now.men square (man_of position.now.side parts.now.piece)) }
    ensures { result ≡ origin.is_origin position.now parts.now from }
{
    prove!(position.is_position());
    let m = move_from(parts, from);
    agrees_at(parts, there, from) && is_plain_and_legal(position, parts, seen, &m)
}

// Returns true if the move from a square agrees with the parts, given the set of the piece's squares.
#[inline(always)]
fn agrees_at(parts: &PieceMove, there: u64, from: Square) -> bool
    ensures { (p : Board) → IsBitboard there (λ square. stands p.men square (man_of p.side parts.now.piece)) →
        result ≡ fit.agrees_in_parts p parts.now (origin.move_from parts.now from) }
{
    contains(there, from) && comes_from(parts, from)
}

// Returns true if the set has the square.
#[inline(always)]
fn contains(set: u64, square: Square) -> bool
    ensures { (test : ℕ → Bool) → IsBitboard set test → result ≡ test square }
{
    set >> square.number() & 1 == 1
}

// Returns true if a move that agrees with the parts is legal and no castling.
#[inline(always)]
fn is_plain_and_legal(position: &Position, parts: &PieceMove, seen: u64, m: &Move) -> bool
    requires seen { IsBitboard seen (may_come position.now.side parts.now.piece (is_occupied position.now.men) m.now.to) }
    requires agrees { fit.agrees_in_parts position.now parts.now m.now ≡ true }
    requires null { m.now.null ≡ false }
    ensures { result ≡ (not (legal.is_castling position.now m.now) && legal_test position.now m.now) }
{
    !is_castling(position, m) && is_legal_seen(position, parts.piece, seen, m)
}

/// The move from a square to the goal of the parts.
#[inline(always)]
pub(crate) fn move_from(parts: &PieceMove, from: Square) -> Move
    ensures { result ≡ origin.move_from parts.now from }
{
    Move {
        from,
        to: parts.goal,
        promotion: parts.promotion,
        null: false,
    }
}

/// The castling move of a side, on the king's side or on the queen's side.
pub(crate) fn castling_move(side: Side, kingside: bool) -> Move
    ensures { result ≡ origin.castling_move side kingside }
{
    Move {
        from: king_home(side),
        to: castling_goal(side, kingside),
        promotion: Promotion::None,
        null: false,
    }
}
