//! Castling (FIDE Laws of Chess, article 3.8.2).
ghost use Rattle.std.specs.Prelude.{◌≡◌, not};
ghost use Rattle.std.specs.List.{list_all};
ghost use Rattle.cq_position.specs.Attacks as attack;
ghost use Rattle.cq_position.specs.Legal as legal;

use cq_geometry::{Square, files_apart};
use cq_position::attacks::{is_attacked, is_open};
use cq_position::home_squares::{castling_crossed, castling_goal, king_home, rook_home};
use cq_position::{Man, Men, Move, Position, Side, king_of, opponent, rook_of};

/// Returns true if the move is castling, the move of the side's king by two files (FIDE Laws of Chess, article 3.8.2).
#[inline]
pub fn is_castling(position: &Position, m: &Move) -> bool
    ensures { result ≡ legal.is_castling position.now m.now }
{
    files_apart(m.from, m.to) == 2 && position.at(m.from) == king_of(position.side())
}

/// Returns true if the king can castle on this side by this move.
pub(crate) fn castles(position: &Position, from: Square, to: Square, kingside: bool) -> bool
    ensures { result ≡ legal.castles position.now from to kingside }
{
    let side = position.side();
    from == king_home(side)
        && to == castling_goal(side, kingside)
        && position.may_castle(side, kingside)
        && is_open(position.men(), king_home(side), rook_home(side, kingside))
        && are_free(
            position.men(),
            opponent(side),
            [from, castling_crossed(side, kingside), to],
        )
}

// Returns true if a side attacks none of the squares.
fn are_free(men: &Men, by: Side, squares: [Square; 3]) -> bool
    ensures { result ≡ list_all (λ square. not (attack.is_attacked men.now by square)) squares }
{
    squares.iter().all(|square| !is_attacked(men, by, *square))
}

/// Moves the rook to the other side of the king.
pub(crate) fn move_rook(men: &mut Men, side: Side, kingside: bool)
    ensures { men.new ≡ legal.rook_moved men.old side kingside }
{
    men.set(rook_home(side, kingside), Man::Empty);
    men.set(castling_crossed(side, kingside), rook_of(side));
}
