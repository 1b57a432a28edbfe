//! The goals of a man of the side to move, as a set (FIDE Laws of Chess, article 3).
ghost use Rattle.std.specs.Prelude.{◌≡◌, ◌&&◌, ◌||◌, ◌<◌, ℕ, not, true, false};
ghost use Rattle.cq_position.specs.Attacks as attack;
ghost use Rattle.cq_position.specs.Bitboards.{IsBitboard};
ghost use Rattle.cq_position.specs.Board.{man_at};
ghost use Rattle.cq_position.specs.Legal as legal;
ghost use Rattle.cq_position.specs.Men as men_spec;
ghost use Rattle.cq_moves.specs.Candidates.{double_goal};
ghost use Rattle.cq_moves.specs.Internal.Mover.{IsMover, IsOrigin, is_free};

use crate::castling::castles;
use crate::men_after::middle;
use crate::mover::{Mover, Origin};
use cq_geometry::{Square, Step, rank};
use cq_position::attacks::{is_occupied, squares_attacked};
use cq_position::home_squares::castling_goal;
use cq_position::{Man, Piece, Position, Side, is_of_side, man_of, opponent};
use cq_square_sets::set_of;

/// The goals of a man. Bit k of the result is the square k.
pub(crate) fn goals_from(position: &Position, mover: &Mover, origin: &Origin) -> u64
    requires mover { IsMover position.now mover.now }
    requires origin { IsOrigin position.now origin.now }
    ensures { IsBitboard result (legal.reaches position.now origin.now.from) }
{
    if is_of_side(origin.man, position.side()) {
        goals_of(origin.man, position, origin) & mover.free
    } else {
        0
    }
}

/// The squares without a man of the side to move and without a king.
pub(crate) fn free_squares(position: &Position) -> u64
    ensures { IsBitboard result (is_free position.now) }
{
    let side = position.side();
    let men = position.men();
    !men.squares_of_side(side) & !men.squares_of_piece(opponent(side), Piece::King)
}

// The goals of such a man on the square, squares that are not free among them.
#[tactic(auto, using(cq_square_sets::proofs::Marked::marks_none))]
fn goals_of(man: Man, position: &Position, origin: &Origin) -> u64
    requires { IsOrigin position.now origin.now }
    ensures { IsBitboard result (legal.goes_as man position.now origin.now.from) }
{
    match man {
        Man::K | Man::BlackK => {
            origin.attacked
                | castling_goals(position, origin.from, true)
                | castling_goals(position, origin.from, false)
        }
        Man::P | Man::BlackP => pawn_goals(position, origin.from),
        Man::Empty => 0,
        _ => origin.attacked,
    }
}

// The square to which the king castles, if it can.
fn castling_goals(position: &Position, from: Square, kingside: bool) -> u64
    ensures { IsBitboard result (λ to. legal.castles position.now from to kingside) }
{
    let goal = castling_goal(position.side(), kingside);
    if castles(position, from, goal, kingside) {
        set_of(Some(goal))
    } else {
        0
    }
}

// The squares to which a pawn steps, and those on which it captures.
fn pawn_goals(position: &Position, from: Square) -> u64
    ensures { IsBitboard result (legal.pawn_moves position.now from) }
{
    single_goals(position, from) | double_goals(position, from) | captures(position, from)
}

// The square one rank ahead if it is empty.
fn single_goals(position: &Position, from: Square) -> u64
    ensures { IsBitboard result (λ to. legal.is_single_step position.now.side from to && not (attack.is_occupied position.now.men to)) }
{
    square_ahead(position.side(), from) & position.men().squares_of(Man::Empty)
}

fn square_ahead(side: Side, from: Square) -> u64
    ensures { IsBitboard result (legal.is_single_step side from) }
{
    match side {
        Side::White => set_of(Step::<0, 1>::step(from)),
        Side::Black => set_of(Step::<0, -1>::step(from)),
    }
}

// The square two ranks ahead, if the pawn is at home and both squares ahead are empty.
fn double_goals(position: &Position, from: Square) -> u64
    ensures { IsBitboard result (λ to. legal.is_double_step position.now.side from to
        && not (attack.is_occupied position.now.men (legal.middle from to)) && not (attack.is_occupied position.now.men to)) }
{
    match double_step(position.side(), from) {
        Some(goal) => passed_goal(position, from, goal),
        None => 0,
    }
}

// The goal of a double step, if it and the square in the middle are empty.
fn passed_goal(position: &Position, from: Square, goal: Square) -> u64
    requires { double_goal position.now.side from ≡ Some goal }
    ensures { IsBitboard result (λ to. legal.is_double_step position.now.side from to
        && not (attack.is_occupied position.now.men (legal.middle from to)) && not (attack.is_occupied position.now.men to)) }
{
    if are_empty(position, middle(from, goal), goal) {
        set_of(Some(goal))
    } else {
        0
    }
}

fn are_empty(position: &Position, a: Square, b: Square) -> bool
    ensures { result ≡ (not (attack.is_occupied position.now.men a) && not (attack.is_occupied position.now.men b)) }
{
    !is_occupied(position.men(), a) && !is_occupied(position.men(), b)
}

// The square two ranks ahead of a pawn on its home rank.
fn double_step(side: Side, from: Square) -> Option<Square>
    ensures { result ≡ double_goal side from }
{
    match side {
        Side::White if rank(from) == 1 => Step::<0, 2>::step(from),
        Side::Black if rank(from) == 6 => Step::<0, -2>::step(from),
        _ => None,
    }
}

// The squares on which a pawn captures, the en passant square among them.
fn captures(position: &Position, from: Square) -> u64
    ensures { IsBitboard result (λ to. attack.is_pawn_attack position.now.side from to
        && (men_spec.is_of_side (men_spec.opponent position.now.side) (man_at position.now.men to)
        || attack.is_goal position.now.passant to)) }
{
    let side = position.side();
    let men = position.men();
    squares_attacked(man_of(side, Piece::Pawn), men, from)
        & (men.squares_of_side(opponent(side)) | set_of(position.passant()))
}
