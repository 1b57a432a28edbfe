//! Laws of positions and moves, for proofs in other crates.
ghost use Rattle.std.specs.Prelude.{◌≡◌, ◌↔◌, ◌<◌, ◌&&◌, ◌||◌, ℕ, Bool, List, length, IsTrue, true, false, slice_set, Contains};
ghost use Rattle.cq_geometry.specs.Lines.{is_orthogonal, is_diagonal, is_open};
ghost use Rattle.cq_position.specs.declared.men.Man.{Man as ManValue};
ghost use Rattle.cq_position.specs.declared.men.Man.TheVariants.{Empty};
ghost use Rattle.cq_position.specs.declared.men.Side.{Side as SideValue};
ghost use Rattle.cq_position.specs.Attacks as attack;
ghost use Rattle.cq_position.specs.King.{IsKingSquare};
ghost use Rattle.cq_position.specs.Men.{opponent, is_of_side, same_man};
ghost use Rattle.cq_position.specs.declared.moves.Move.{Move as MoveValue};
ghost use Rattle.cq_position.specs.Board.{Board};
ghost use Rattle.cq_position.specs.Games.{IsTree};
ghost use Rattle.cq_position.specs.Legal.{Legal};
ghost use Rattle.cq_position.specs.Legality.{legal_test, has_legal_move};
ghost use Rattle.cq_position.specs.Search.{SearchedTree, IsPath, paths};

use crate::position::Position;

/// Two positions are equal exactly if they have the same men, side to move, rights, en passant square and number.
pub fn equal_positions_have_equal_parts(p: &Position, q: &Position) -> bool
    ensures { IsTrue result ↔ (p.now ≡ q.now) }
{
    *p == *q
}

/// The test of legality is true exactly if the move leads to some position.
#[tactic(auto, using(crate::proofs::Legality::legal_law))]
pub fn test_is_the_legal_relation()
    ensures { (p : Board) (m : MoveValue) → (legal_test p m ≡ true) ↔ ((q : Board) × Legal p m q) }
{}

/// The side to move has a legal move by the test exactly if some move leads from the position to another.
#[tactic(auto, using(crate::proofs::Legality::legal_move_law))]
pub fn some_move_passes_where_one_is_legal()
    ensures { (p : Board) → length p.men ≡ 64 → (has_legal_move p ≡ true) ↔ ((m : MoveValue) × (q : Board) × Legal p m q) }
{}

/// A side is in check exactly if the opponent attacks the square of its king.
#[tactic(auto, using(crate::proofs::Kings::check_is_at_king))]
pub fn check_is_at_the_king()
    ensures { (men : List ManValue) (side : SideValue) (k : ℕ) → IsKingSquare men side k →
        attack.in_check men side ≡ attack.is_attacked men (opponent side) k }
{}

/// A man that no line from a square reaches first hides no attack on the square. If the square is not attacked, it is not attacked after
/// the man leaves.
#[tactic(auto, using(crate::proofs::Shields::uncovers_nothing))]
pub fn unseen_men_cover_nothing()
    ensures { (men : List ManValue) (by : SideValue) (from k : ℕ) → from < length men → from < 64 → k < 64 →
        ((is_orthogonal k from || is_diagonal k from) && is_open (attack.is_occupied men) k from) ≡ false →
        attack.is_attacked men by k ≡ false → attack.is_attacked (slice_set men from Empty) by k ≡ false }
{}

/// A man of the other side that comes to a square opens no attack.
#[tactic(auto, using(crate::proofs::Shields::covers_only))]
pub fn men_that_come_open_nothing()
    ensures { (men : List ManValue) (by : SideValue) (to : ℕ) (man : ManValue) (k : ℕ) → to < length men →
        is_of_side by man ≡ false → same_man man Empty ≡ false →
        attack.is_attacked men by k ≡ false → attack.is_attacked (slice_set men to man) by k ≡ false }
{}

/// The paths listed from a node of a game are exactly its paths, down or up, by any steps or by `primary` ones alone.
#[tactic(auto, using(crate::proofs::Paths::paths_law))]
pub fn paths_are_listed()
    ensures { (tree : SearchedTree) → IsTree tree.game.nodes → (back primary : Bool) (n : ℕ) (path : List ℕ) →
        Contains (paths tree back primary n) path ↔ IsPath tree back primary n path }
{}
