//! Tests of attacked squares, by the sets of men that the square sees.
ghost use Rattle.std.specs.Prelude.{◌≡◌, ◌&&◌};
ghost use Rattle.cq_geometry.specs.Lines as lines;
ghost use Rattle.cq_geometry.specs.Steps as steps;
ghost use Rattle.cq_square_sets.specs.Bitboards.{IsBitboard};
ghost use Rattle.cq_position.specs.Attacks as attack;
ghost use Rattle.cq_position.specs.Board.{man_at};
ghost use Rattle.cq_position.specs.Board as board;
ghost use Rattle.cq_position.specs.Men as men_spec;
ghost use Rattle.cq_position.specs.AttackTest.{is_orthogonal_slider, is_diagonal_slider, knight_of, some_man};

use crate::attacks::pawn_squares;
use crate::men::{Man, Piece, Side, opponent};
use crate::planes::Men;
use cq_geometry::Square;
use cq_square_sets::{
    bishop_attacks, bishop_lines, king_attacks, knight_attacks, meets, rook_attacks, rook_lines,
};

/// Returns true if a man of a side attacks a square of this board, even if the man may not move there (FIDE Laws of Chess, article 3.9.1).
#[tactic(auto, using(crate::proofs::Attackers::attacked_in_ways))]
pub fn is_attacked(men: &Men, by: Side, square: Square) -> bool
    ensures { result ≡ attack.is_attacked men.now by square }
{
    is_attacked_orthogonally(men, by, square)
        || is_attacked_diagonally(men, by, square)
        || is_attacked_by_knight(men, by, square)
        || is_attacked_by_pawn(men, by, square)
        || is_attacked_by_king(men, by, square)
}

/// Expands to true if one of the attackers is seen. The cheap test of the lines comes first.
macro_rules! meets_seen {
    ($attackers:expr, $lines:expr, $seen:expr) => {{
        let attackers = $attackers;
        meets(attackers, $lines) && meets(attackers, $seen)
    }};
}

// Returns true if a rook or queen of the side attacks the square. Most squares have none on their lines, so the lines are tested first.
#[inline]
fn is_attacked_orthogonally(men: &Men, by: Side, square: Square) -> bool
    ensures { result ≡ some_man (λ a. is_orthogonal_slider by (man_at men.now a))
        (λ a. lines.is_orthogonal square a && lines.is_open (attack.is_occupied men.now) square a) }
{
    meets_seen!(
        orthogonal_sliders(men, by),
        rook_lines(square),
        rook_attacks(square, men.squares_of(Man::Empty))
    )
}

// Returns true if a bishop or queen of the side attacks the square. The diagonals are tested first.
#[inline]
fn is_attacked_diagonally(men: &Men, by: Side, square: Square) -> bool
    ensures { result ≡ some_man (λ a. is_diagonal_slider by (man_at men.now a))
        (λ a. lines.is_diagonal square a && lines.is_open (attack.is_occupied men.now) square a) }
{
    meets_seen!(
        diagonal_sliders(men, by),
        bishop_lines(square),
        bishop_attacks(square, men.squares_of(Man::Empty))
    )
}

// Returns true if a knight of the side attacks the square.
#[inline]
fn is_attacked_by_knight(men: &Men, by: Side, square: Square) -> bool
    ensures { result ≡ some_man (λ a. board.stands men.now a (knight_of by)) (steps.is_knight_step square) }
{
    meets(
        men.squares_of_piece(by, Piece::Knight),
        knight_attacks(square),
    )
}

// Returns true if a pawn of the side attacks the square. A pawn of the other side would attack it from there.
#[inline]
fn is_attacked_by_pawn(men: &Men, by: Side, square: Square) -> bool
    ensures { result ≡ some_man (λ a. board.stands men.now a (men_spec.pawn_of by))
        (attack.is_pawn_attack (men_spec.opponent by) square) }
{
    meets(
        men.squares_of_piece(by, Piece::Pawn),
        pawn_squares(opponent(by), square),
    )
}

// Returns true if the king of the side attacks the square.
#[inline]
fn is_attacked_by_king(men: &Men, by: Side, square: Square) -> bool
    ensures { result ≡ some_man (λ a. board.stands men.now a (men_spec.king_of by)) (steps.is_king_step square) }
{
    meets(men.squares_of_piece(by, Piece::King), king_attacks(square))
}

/// The squares of a side's rooks and queens. Bit k of the result is the square k.
#[inline]
pub fn orthogonal_sliders(men: &Men, by: Side) -> u64
    ensures { IsBitboard result (λ a. is_orthogonal_slider by (man_at men.now a)) }
{
    men.squares_of_piece(by, Piece::Queen) | men.squares_of_piece(by, Piece::Rook)
}

/// The squares of a side's bishops and queens. Bit k of the result is the square k.
#[inline]
pub fn diagonal_sliders(men: &Men, by: Side) -> u64
    ensures { IsBitboard result (λ a. is_diagonal_slider by (man_at men.now a)) }
{
    men.squares_of_piece(by, Piece::Queen) | men.squares_of_piece(by, Piece::Bishop)
}
