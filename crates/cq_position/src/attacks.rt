//! The squares that the men attack.
ghost use Rattle.std.specs.Prelude.{◌≡◌, ◌&&◌, ◌||◌};
ghost use Rattle.cq_geometry.specs.Lines as lines;
ghost use Rattle.cq_position.specs.Attacks as attack;
ghost use Rattle.cq_square_sets.specs.Bitboards.{IsBitboard};

pub use crate::attack_test::{diagonal_sliders, is_attacked, orthogonal_sliders};
use crate::king::king_square;
use crate::men::{Man, Side, king_of, opponent};
use crate::planes::Men;
use crate::position::{Position, stands};
use cq_geometry::{Square, between, files_apart, rank};
use cq_square_sets::{
    bishop_attacks, black_pawn_attacks, king_attacks, knight_attacks, rook_attacks,
    white_pawn_attacks,
};

/// The squares that the man on a square attacks, whether occupied or not (FIDE Laws of Chess, articles 3.2 to 3.8). Bit k of the result is
/// the square k. An empty square attacks none.
///
/// A rook, a bishop and a queen attack along their lines, up to and including the first occupied square.
#[tactic(auto, unfolding(crate::specs::Attacks::attacks))]
pub fn attacks_from(position: &Position, square: Square) -> u64
    ensures { IsBitboard result (attack.attacks position.now.men square) }
{
    squares_attacked(position.at(square), position.men(), square)
}

/// Returns true if the king of a side is attacked (FIDE Laws of Chess, article 3.9.1).
#[tactic(auto, using(crate::proofs::Kings::check_is_at_king))]
pub fn in_check(position: &Position, side: Side) -> bool
    ensures { result ≡ attack.in_check position.now.men side }
{
    is_attacked(position.men(), opponent(side), king_square(position, side))
}

/// Returns true if the king of a side is attacked on this board (FIDE Laws of Chess, article 3.9.1).
pub fn is_king_attacked(men: &Men, side: Side) -> bool
    ensures { result ≡ attack.in_check men.now side }
{
    for number in 0..64 {
        if is_attacked_king(men, side, Square::new(number)) {
            return true;
        }
    }
    false
}

// Returns true if the side's king is on the square and attacked there.
fn is_attacked_king(men: &Men, side: Side, square: Square) -> bool
    ensures { result ≡ attack.attacked_king men.now side square }
{
    stands(men, square, king_of(side)) && is_attacked(men, opponent(side), square)
}

/// Returns true if a pawn of a side on `a` attacks `b`, one of the two squares diagonally in front of it (FIDE Laws of Chess, article
/// 3.7.3).
#[inline]
pub fn is_pawn_attack(side: Side, a: Square, b: Square) -> bool
    ensures { result ≡ attack.is_pawn_attack side a b }
{
    match side {
        Side::White => rank(b) == rank(a) + 1 && files_apart(a, b) == 1,
        Side::Black => rank(a) == rank(b) + 1 && files_apart(a, b) == 1,
    }
}

/// Returns true if no man is strictly between two squares of one rank, file or diagonal. Returns true for other pairs.
pub fn is_open(men: &Men, a: Square, b: Square) -> bool
    ensures { result ≡ lines.is_open (attack.is_occupied men.now) a b }
{
    between(a, b)
        .as_slice()
        .iter()
        .all(|square| !is_occupied(men, *square))
}

/// Returns true if a man is on the square.
#[inline]
pub fn is_occupied(men: &Men, square: Square) -> bool
    ensures { result ≡ attack.is_occupied men.now square }
{
    !stands(men, square, Man::Empty)
}

/// The squares that a man attacks from a square of this board. Bit k of the result is the square k.
#[tactic(auto, using(cq_square_sets::proofs::Marked::marks_none))]
pub fn squares_attacked(man: Man, men: &Men, from: Square) -> u64
    ensures { IsBitboard result (attack.attacks_as man (attack.is_occupied men.now) from) }
{
    match man {
        Man::K | Man::BlackK => king_attacks(from),
        Man::Q | Man::BlackQ => queen_squares(men, from),
        Man::R | Man::BlackR => rook_squares(men, from),
        Man::B | Man::BlackB => bishop_squares(men, from),
        Man::N | Man::BlackN => knight_attacks(from),
        Man::P => pawn_squares(Side::White, from),
        Man::BlackP => pawn_squares(Side::Black, from),
        Man::Empty => 0,
    }
}

/// The squares that a queen on a square attacks (FIDE Laws of Chess, articles 3.4 and 3.5). Bit k of the result is the square k.
pub fn queen_squares(men: &Men, from: Square) -> u64
    ensures { IsBitboard result (λ to.
        (lines.is_orthogonal from to || lines.is_diagonal from to) && lines.is_open (attack.is_occupied men.now) from to) }
{
    rook_squares(men, from) | bishop_squares(men, from)
}

// The squares that a rook on a square attacks.
#[tactic(auto, using(crate::proofs::Attackers::empty_seen))]
fn rook_squares(men: &Men, from: Square) -> u64
    ensures { IsBitboard result (λ to. lines.is_orthogonal from to && lines.is_open (attack.is_occupied men.now) from to) }
{
    rook_attacks(from, men.squares_of(Man::Empty))
}

// The squares that a bishop on a square attacks.
#[tactic(auto, using(crate::proofs::Attackers::empty_seen))]
fn bishop_squares(men: &Men, from: Square) -> u64
    ensures { IsBitboard result (λ to. lines.is_diagonal from to && lines.is_open (attack.is_occupied men.now) from to) }
{
    bishop_attacks(from, men.squares_of(Man::Empty))
}

/// The squares that a pawn of a side on a square attacks: the two diagonally in front of it (FIDE Laws of Chess, article 3.7.3).
#[inline]
pub(crate) fn pawn_squares(side: Side, from: Square) -> u64
    ensures { IsBitboard result (attack.is_pawn_attack side from) }
{
    match side {
        Side::White => white_pawn_attacks(from),
        Side::Black => black_pawn_attacks(from),
    }
}
