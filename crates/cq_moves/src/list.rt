//! The legal moves of a position.
ghost use Rattle.std.specs.Prelude.{◌≡◌, ◌+◌, ◌≤◌, ◌<◌, ◌↔◌, ◌++◌, true, false, length};
ghost use Rattle.std.specs.List.{All, AllPairs, Contains, flat_map};
ghost use Rattle.cq_position.specs.declared.moves.Move.{Move as MoveValue};
ghost use Rattle.cq_position.specs.Board.{Board};
ghost use Rattle.cq_position.specs.Legal.{Legal};
ghost use Rattle.cq_position.specs.Legal as legal;
ghost use Rattle.cq_moves.specs.LegalMoves.{legal_list, legal_from, legal_between, if_legal, pieces, Precedes};
ghost use Rattle.cq_moves.specs.Internal.Mover.{IsMover, IsOrigin, IsPlain};

use crate::goals::goals_from;
use crate::mover::{Mover, Origin, is_legal_to, is_ordinary, mover_of, origin_of};
use crate::reach::promotes;
use arrayvec::ArrayVec;
use cq_geometry::Square;
use cq_position::position::is_pawn;
use cq_position::{Move, Position, Promotion};
use cq_square_sets::lowest_square;

/// The legal moves of a position, each once. They are in the order of their origins, then of their goals, then of the promotions to a
/// queen, a rook, a bishop and a knight. The null move is not among them.
pub fn legal_moves(position: &Position) -> ArrayVec<Move, 512>
    ensures moves { result.items ≡ legal_list position.now }
    ensures null { All (λ m. m.null ≡ false) result.items }
    ensures order { AllPairs Precedes result.items }
    ensures members { (m : MoveValue) → Contains result.items m ↔ ((q : Board) × Legal position.now m q) }
{
    let mut moves = ArrayVec::new();
    let mover = mover_of(position);
    let mut left = position.men().squares_of_side(position.side());
    while left != 0 {
        let from = lowest_square(left);
        left &= !(1 << from.number());
        add_moves_from(position, &mover, from, &mut moves);
    }
    moves
}

// Adds the legal moves from a square. The moves of a man that is no pawn and doesn't expose its king need no judgement.
#[tactic(auto, using(crate::proofs::Parts::plain_moves))]
fn add_moves_from(position: &Position, mover: &Mover, from: Square, moves: &mut ArrayVec<Move, 512>)
    requires mover { IsMover position.now mover.now }
    requires room { length moves.old.items + length (legal_from position.now from) ≤ 512 }
    ensures { moves.new.items ≡ moves.old.items ++ legal_from position.now from }
{
    let origin = origin_of(position, mover, from);
    if !origin.exposed && !is_pawn(origin.man) {
        add_plain_moves(position, mover, &origin, moves);
    } else {
        add_judged_moves(position, mover, &origin, moves);
    }
}

// Adds the moves of a man whose moves are all legal without a promotion, one to each of its goals.
fn add_plain_moves(
    position: &Position,
    mover: &Mover,
    origin: &Origin,
    moves: &mut ArrayVec<Move, 512>,
)
    requires mover { IsMover position.now mover.now }
    requires origin { IsOrigin position.now origin.now }
    requires plain { IsPlain position.now origin.now.from }
    requires room { length moves.old.items + length (legal_from position.now origin.now.from) ≤ 512 }
    ensures { moves.new.items ≡ moves.old.items ++ legal_from position.now origin.now.from }
{
    let mut left = goals_from(position, mover, origin);
    while left != 0 {
        let to = lowest_square(left);
        left &= !(1 << to.number());
        moves.push(Move {
            from: origin.from,
            to,
            promotion: Promotion::None,
            null: false,
        });
    }
}

// Adds the legal moves from a square, after a judgement of each.
fn add_judged_moves(
    position: &Position,
    mover: &Mover,
    origin: &Origin,
    moves: &mut ArrayVec<Move, 512>,
)
    requires mover { IsMover position.now mover.now }
    requires origin { IsOrigin position.now origin.now }
    requires room { length moves.old.items + length (legal_from position.now origin.now.from) ≤ 512 }
    ensures { moves.new.items ≡ moves.old.items ++ legal_from position.now origin.now.from }
{
    let mut left = goals_from(position, mover, origin);
    while left != 0 {
        let to = lowest_square(left);
        left &= !(1 << to.number());
        add_moves_between(position, mover, origin, to, moves);
    }
}

// Adds the legal moves to one of the man's goals.
#[inline]
fn add_moves_between(
    position: &Position,
    mover: &Mover,
    origin: &Origin,
    to: Square,
    moves: &mut ArrayVec<Move, 512>,
)
    requires mover { IsMover position.now mover.now }
    requires origin { IsOrigin position.now origin.now }
    requires reaches { legal.reaches position.now origin.now.from to ≡ true }
    requires board { to < 64 }
    requires room { length moves.old.items + length (legal_between position.now origin.now.from to) ≤ 512 }
    ensures { moves.new.items ≡ moves.old.items ++ legal_between position.now origin.now.from to }
{
    if is_ordinary(position, origin, to) {
        moves.push(Move {
            from: origin.from,
            to,
            promotion: Promotion::None,
            null: false,
        });
    } else if promotes(position, origin.from, to) {
        add_promotions(position, mover, origin, to, moves);
    } else {
        add_move(position, mover, origin, to, Promotion::None, moves);
    }
}

// Adds the legal promotions of a pawn that goes to a square.
fn add_promotions(
    position: &Position,
    mover: &Mover,
    origin: &Origin,
    to: Square,
    moves: &mut ArrayVec<Move, 512>,
)
    requires mover { IsMover position.now mover.now }
    requires origin { IsOrigin position.now origin.now }
    requires reaches { legal.reaches position.now origin.now.from to ≡ true }
    requires board { to < 64 }
    requires room { length moves.old.items + length (flat_map (if_legal position.now origin.now.from to) pieces) ≤ 512 }
    ensures { moves.new.items ≡ moves.old.items ++ flat_map (if_legal position.now origin.now.from to) pieces }
{
    for promotion in [Promotion::Q, Promotion::R, Promotion::B, Promotion::N] {
        add_move(position, mover, origin, to, promotion, moves);
    }
}

// Adds a move to one of the man's goals if it is legal.
#[inline]
fn add_move(
    position: &Position,
    mover: &Mover,
    origin: &Origin,
    to: Square,
    promotion: Promotion,
    moves: &mut ArrayVec<Move, 512>,
)
    requires mover { IsMover position.now mover.now }
    requires origin { IsOrigin position.now origin.now }
    requires reaches { legal.reaches position.now origin.now.from to ≡ true }
    requires board { to < 64 }
    requires room { length moves.old.items + length (if_legal position.now origin.now.from to promotion) ≤ 512 }
    ensures { moves.new.items ≡ moves.old.items ++ if_legal position.now origin.now.from to promotion }
{
    let m = Move {
        from: origin.from,
        to,
        promotion,
        null: false,
    };
    if is_legal_to(position, mover, origin, &m) {
        moves.push(m);
    }
}
