//! Men that attack along lines.
ghost use Rattle.std.specs.Prelude.{◌≡◌, ◌||◌};
ghost use Rattle.cq_geometry.specs.Lines as lines;
ghost use Rattle.cq_position.specs.Board.{man_at};
ghost use Rattle.cq_position.specs.AttackTest.{is_orthogonal_slider, is_diagonal_slider, some_man};

use cq_geometry::Square;
use cq_position::attacks::{diagonal_sliders, orthogonal_sliders};
use cq_position::{Men, Side};
use cq_square_sets::{bishop_lines, meets, rook_lines};

/// Returns true if a side has a rook or queen on the file or rank of a square, or a bishop or queen on a diagonal. Men between don't count.
#[inline]
pub(crate) fn has_slider_in_line(men: &Men, by: Side, square: Square) -> bool
    ensures { result ≡ (some_man (λ a. is_orthogonal_slider by (man_at men.now a)) (lines.is_orthogonal square)
        || some_man (λ a. is_diagonal_slider by (man_at men.now a)) (lines.is_diagonal square)) }
{
    meets(orthogonal_sliders(men, by), rook_lines(square))
        || meets(diagonal_sliders(men, by), bishop_lines(square))
}
