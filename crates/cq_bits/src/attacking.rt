//! The men that attack the squares of a set.
ghost use Rattle.std.specs.Prelude.{◌≡◌, ◌<◌};
ghost use Rattle.cq_position.specs.Attacks.{attacks};
ghost use Rattle.cq_position.specs.Board.{man_at};
ghost use Rattle.cq_square_sets.specs.Bitboards.{IsBitboard};
ghost use Rattle.cq_bits.specs.Sets.{Has, IsSetOf, IsAttacker, leaps_to};

use crate::attacks::{Kind, either_side, standing};
use cq_geometry::Square;
use cq_position::{Man, Men, Position, attacks_from};
use cq_square_sets::{
    BitSet64, bishop_attacks, black_pawn_attacks, king_attacks, knight_attacks, lowest_square,
    rook_attacks, white_pawn_attacks,
};

/// The squares whose men attack a square of `to` (FIDE Laws of Chess, articles 3.1 to 3.8).
pub fn attackers(position: &Position, to: BitSet64) -> BitSet64
    ensures { IsSetOf result (IsAttacker position.now.men to) }
{
    let mut found = 0;
    let mut left = to;
    while left != 0 {
        let square = lowest_square(left);
        left &= !(1 << square.number());
        found |= attackers_of(position.men(), square);
    }
    found
}

/// The squares of `among` whose men attack a square of `to`. It searches from the set with fewer squares.
pub fn attackers_among(position: &Position, among: BitSet64, to: BitSet64) -> BitSet64
    ensures { IsSetOf result (λ from. Has among from × IsAttacker position.now.men to from) }
{
    if among.count_ones() <= to.count_ones() {
        attackers_by_each(position, among, to)
    } else {
        among & attackers(position, to)
    }
}

// The same, searched from each square of `among`.
fn attackers_by_each(position: &Position, among: BitSet64, to: BitSet64) -> BitSet64
    ensures { IsSetOf result (λ from. Has among from × IsAttacker position.now.men to from) }
{
    let mut found = 0;
    let mut left = among;
    while left != 0 {
        let square = lowest_square(left);
        left &= !(1 << square.number());
        found |= attacker_alone(position, square, to);
    }
    found
}

// The set of one square if its man attacks a square of `to`, else the empty set.
fn attacker_alone(position: &Position, square: Square, to: BitSet64) -> BitSet64
    requires { square < 64 }
    ensures { IsSetOf result (λ from. (from ≡ square) × IsAttacker position.now.men to square) }
{
    if attacks_from(position, square) & to == 0 {
        0
    } else {
        1 << square.number()
    }
}

// The squares whose men attack a square. Each is seen from the square as it sees the square.
fn attackers_of(men: &Men, square: Square) -> BitSet64
    requires { square < 64 }
    ensures { IsBitboard result (λ from. attacks men.now from square) }
{
    let empty = men.squares_of(Man::Empty);
    let straight = standing(men, Kind::Straight) & rook_attacks(square, empty);
    let diagonal = standing(men, Kind::Diagonal) & bishop_attacks(square, empty);
    straight | diagonal | leapers_of(men, square)
}

// The squares of kings, knights and pawns that attack a square.
fn leapers_of(men: &Men, square: Square) -> BitSet64
    requires { square < 64 }
    ensures { IsBitboard result (λ from. leaps_to (man_at men.now from) square from) }
{
    either_side(men, Man::N, Man::BlackN) & knight_attacks(square)
        | either_side(men, Man::K, Man::BlackK) & king_attacks(square)
        | men.squares_of(Man::P) & black_pawn_attacks(square)
        | men.squares_of(Man::BlackP) & white_pawn_attacks(square)
}
