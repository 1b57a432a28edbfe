//! The attacks of the men of a set.
ghost use Rattle.std.specs.Prelude.{◌≡◌, ℕ, ◌<◌, ◌↔◌, ◌⊎◌, ◌||◌, true, false};
ghost use Rattle.cq_bits.specs.Sets.{Has, IsSetOf, IsAttacked, IsChosen, IsLeap, slides};
ghost use Rattle.cq_square_sets.specs.Bitboards.{IsBitboard};
ghost use Rattle.cq_position.specs.Board.{man_at, stands};
ghost use Rattle.cq_bits.specs.Internal.Kinds.{is_of_kind};

use cq_position::{Man, Men, Position, attacks_from};
use cq_square_sets::{BitSet64, lowest_square, slide};

/// Expands to the union of the listed slides, each from its set in its direction.
macro_rules! slides {
    ($empty:expr; $(($from:expr, $files:literal, $ranks:literal)),*) => {
        0 $(| slide::<$files, $ranks>($from, $empty))*
    };
}

/// The kinds of men that slide, and the empty square.
#[derive(Clone, Copy, Debug, PartialEq, Eq)]
pub(crate) enum Kind {
    /// No man.
    Nothing,
    /// A rook or a queen.
    Straight,
    /// A bishop or a queen.
    Diagonal,
}

/// The most squares that are cheaper to take one by one than in all directions at once.
const FEW: u32 = 3;

/// The squares that the men on the squares of `from` attack, whether occupied or not (FIDE Laws of Chess, articles 3.1 to 3.8).
pub fn attacked(position: &Position, from: BitSet64) -> BitSet64
    ensures { IsSetOf result (IsAttacked position.now.men from) }
{
    if from.count_ones() <= FEW {
        attacked_by_each(position, from)
    } else {
        attacked_at_once(position, from)
    }
}

// The same in all directions at once.
fn attacked_at_once(position: &Position, from: BitSet64) -> BitSet64
    ensures { IsSetOf result (IsAttacked position.now.men from) }
{
    let empty = chosen(position, Kind::Nothing, BitSet64::MAX);
    let straight = chosen(position, Kind::Straight, from);
    let diagonal = chosen(position, Kind::Diagonal, from);
    let slides = slides!(empty;
        (straight, 0, 1), (straight, 0, -1), (straight, -1, 0), (straight, 1, 0),
        (diagonal, 1, 1), (diagonal, -1, 1), (diagonal, 1, -1), (diagonal, -1, -1)
    );
    slides | leaps(position, from)
}

// The same square by square.
fn attacked_by_each(position: &Position, from: BitSet64) -> BitSet64
    ensures { IsSetOf result (IsAttacked position.now.men from) }
{
    let mut reached = 0;
    let mut left = from;
    while left != 0 {
        let square = lowest_square(left);
        left &= !(1 << square.number());
        reached |= attacks_from(position, square);
    }
    reached
}

// The squares of `among` with this kind.
fn chosen(position: &Position, kind: Kind, among: BitSet64) -> BitSet64
    ensures { IsSetOf result (IsChosen (is_of_kind kind) position.now.men among) }
{
    among & standing(position.men(), kind)
}

// The squares with this kind.
pub(crate) fn standing(men: &Men, kind: Kind) -> BitSet64
    ensures { IsBitboard result (λ square. is_of_kind kind (man_at men.now square)) }
{
    match kind {
        Kind::Nothing => men.squares_of(Man::Empty),
        Kind::Straight => either_side(men, Man::Q, Man::BlackQ)
            | either_side(men, Man::R, Man::BlackR),
        Kind::Diagonal => either_side(men, Man::Q, Man::BlackQ)
            | either_side(men, Man::B, Man::BlackB),
    }
}

// The squares of either man.
pub(crate) fn either_side(men: &Men, white: Man, black: Man) -> BitSet64
    ensures { IsBitboard result (λ square. stands men.now square white || stands men.now square black) }
{
    men.squares_of(white) | men.squares_of(black)
}

// The squares that kings, knights and pawns attack from the squares of `from`.
fn leaps(position: &Position, from: BitSet64) -> BitSet64
    ensures { IsSetOf result (λ to. (square : ℕ) × (square < 64) × IsLeap position.now.men from square to) }
{
    let leapers = leapers(position.men(), from);
    attacked_by_each(position, leapers)
}

// The squares of a set without a rook, a bishop or a queen.
fn leapers(men: &Men, from: BitSet64) -> BitSet64
    ensures { IsSetOf result (λ square. Has from square × (slides (man_at men.now square) ≡ false)) }
{
    from & !(standing(men, Kind::Straight) | standing(men, Kind::Diagonal))
}

/// The set, with the square of this number added if `there`.
#[tactic(auto, using(crate::proofs::Members::one_more))]
pub(crate) fn with_square(set: BitSet64, number: u8, there: bool) -> BitSet64
    requires { number < 64 }
    ensures { (square : ℕ) → square < 64 → Has result square ↔ (Has set square ⊎ ((square ≡ number) × (there ≡ true))) }
{
    if there { set | 1 << number } else { set }
}
