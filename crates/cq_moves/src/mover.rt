//! The side to move: the square of its king, and the men that can shield it.
ghost use Rattle.std.specs.Prelude.{◌≡◌, ◌<◌, ℕ, false, true, slice_set, [], ◌∷◌};
ghost use Rattle.std.specs.Int.{bit_at};
ghost use Rattle.cq_position.specs.declared.men.Man.TheVariants.{Empty};
ghost use Rattle.cq_position.specs.Attacks as attack;
ghost use Rattle.cq_position.specs.Bitboards.{IsBitboard};
ghost use Rattle.cq_position.specs.Board.{man_at};
ghost use Rattle.cq_position.specs.King.{IsKingSquare};
ghost use Rattle.cq_position.specs.Legal as legal;
ghost use Rattle.cq_position.specs.Legal.{is_pseudo_legal};
ghost use Rattle.cq_position.specs.Legality as legality;
ghost use Rattle.cq_position.specs.Men as men_spec;
ghost use Rattle.cq_position.specs.declared.men.Promotion.TheVariants.{None as NoPromotion};
ghost use Rattle.cq_moves.specs.LegalMoves.{legal_between, move_of};
ghost use Rattle.cq_moves.specs.Internal.Mover.{IsMover, IsOrigin, IsUnexposed};

use crate::goals::free_squares;
use crate::legality::is_safe;
use crate::men_after::is_en_passant_capture;
use crate::reach::{last_rank, promotion_is_right};
use crate::sliders::has_slider_in_line;
use cq_geometry::{Square, rank};
use cq_position::attacks::{is_attacked, queen_squares, squares_attacked};
use cq_position::king::king_square;
use cq_position::{Man, Move, Position, opponent};

/// Facts about the side to move that are computed once: the square of its king, and the squares without a man of its own and without a
/// king. Bit k is the square k. A man other than the king that is outside the set `shields` leaves the king safe, except by a capture on
/// the en passant square.
#[derive(Clone, Copy)]
pub(crate) struct Mover {
    pub king: Square,
    pub free: u64,
    pub shields: u64,
}

/// The facts about the side to move.
pub(crate) fn mover_of(position: &Position) -> Mover
    ensures { IsMover position.now result }
{
    let king = king_square(position, position.side());
    Mover {
        king,
        free: free_squares(position),
        shields: shields_of(position, king),
    }
}

// The squares whose men can shield the king. These are all squares if the king is attacked. If an opponent's slider is in line with the
// king, they are the squares that the king sees along the lines of a queen. Otherwise there are none.
fn shields_of(position: &Position, king: Square) -> u64
    requires { IsKingSquare position.now.men position.now.side king }
    ensures { (square : ℕ) → square < 64 → bit_at result square ≡ 0 →
        attack.is_attacked (slice_set position.now.men square Empty) (men_spec.opponent position.now.side) king ≡ false }
{
    let men = position.men();
    let by = opponent(position.side());
    if is_attacked(men, by, king) {
        u64::MAX
    } else if has_slider_in_line(men, by, king) {
        queen_squares(men, king)
    } else {
        0
    }
}

/// Facts about a moving man that are computed once: its square, the man, the squares that it attacks, and a flag. `exposed` is false only
/// if each of its moves leaves the king safe, except for captures on the en passant square.
#[derive(Clone, Copy)]
pub(crate) struct Origin {
    pub from: Square,
    pub man: Man,
    pub attacked: u64,
    pub exposed: bool,
}

/// The facts about the man on a square.
pub(crate) fn origin_of(position: &Position, mover: &Mover, from: Square) -> Origin
    requires { IsMover position.now mover.now }
    ensures from { result.from ≡ from }
    ensures known { IsOrigin position.now result }
{
    let man = position.at(from);
    Origin {
        from,
        man,
        attacked: attacked_by(position, man, from),
        exposed: may_expose(position, mover, from),
    }
}

// The squares that the man on a square attacks.
#[tactic(auto, unfolding(cq_position::specs::Attacks::attacks))]
#[inline]
fn attacked_by(position: &Position, man: Man, from: Square) -> u64
    requires { man ≡ man_at position.now.men from }
    ensures { IsBitboard result (attack.attacks position.now.men from) }
{
    squares_attacked(man, position.men(), from)
}

// Returns true if the man on a square can expose its king.
fn may_expose(position: &Position, mover: &Mover, from: Square) -> bool
    requires { IsMover position.now mover.now }
    ensures { result ≡ false → IsUnexposed position.now from }
{
    from == mover.king
        || mover.shields >> from.number() & 1 == 1
            && is_attacked_without(position, from, mover.king)
}

/// Returns true only if a man's move to one of its goals is legal without a promotion, and with none. The man doesn't expose its king, and
/// neither promotes nor captures on the en passant square.
#[tactic(auto, using(crate::proofs::Parts::ordinary_move))]
#[inline]
pub(crate) fn is_ordinary(position: &Position, origin: &Origin, to: Square) -> bool
    requires origin { IsOrigin position.now origin.now }
    requires reaches { legal.reaches position.now origin.now.from to ≡ true }
    requires board { to < 64 }
    ensures { result ≡ true → legal_between position.now origin.now.from to ≡ move_of origin.now.from to NoPromotion ∷ [] }
{
    !origin.exposed && rank(to) != last_rank(position.side()) && position.passant() != Some(to)
}

// Returns true if the opponent would attack the king's square without the man on `from`.
fn is_attacked_without(position: &Position, from: Square, king: Square) -> bool
    ensures { result ≡ attack.is_attacked (slice_set position.now.men from Empty) (men_spec.opponent position.now.side) king }
{
    let mut men = *position.men();
    men.set(from, Man::Empty);
    is_attacked(&men, opponent(position.side()), king)
}

/// Returns true if a move of a man to one of its goals is legal.
#[inline]
pub(crate) fn is_legal_to(position: &Position, mover: &Mover, origin: &Origin, m: &Move) -> bool
    requires mover { IsMover position.now mover.now }
    requires origin { IsOrigin position.now origin.now }
    requires from { m.now.from ≡ origin.now.from }
    requires reaches { legal.reaches position.now m.now.from m.now.to ≡ true }
    requires board { m.now.to < 64 }
    requires null { m.now.null ≡ false }
    ensures { result ≡ legality.legal_test position.now m.now }
{
    promotion_is_right(position, m) && leaves_king_safe(position, mover, origin, m)
}

// Returns true if a move leaves its king safe.
#[inline]
fn leaves_king_safe(position: &Position, mover: &Mover, origin: &Origin, m: &Move) -> bool
    requires mover { IsMover position.now mover.now }
    requires origin { IsOrigin position.now origin.now }
    requires from { m.now.from ≡ origin.now.from }
    requires moves { is_pseudo_legal position.now m.now ≡ true }
    ensures { result ≡ legality.is_safe position.now m.now }
{
    !(origin.exposed || is_en_passant_capture(position, m)) || is_safe(position, mover.king, m)
}
