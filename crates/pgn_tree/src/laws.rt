//! Laws of paths, for proofs in other crates.
ghost use Rattle.std.specs.Prelude.{◌≡◌, ℕ, true, false, List};
ghost use Rattle.cq_position.specs.Games.{Game as GameValue, IsTree, is_searched};
ghost use Rattle.cq_position.specs.Search.{SearchedTree, IsPath, IsDownPath};

/// At most one path leads down from a node to another.
#[tactic(auto, using(crate::proofs::Single::single_law))]
pub fn down_paths_are_single()
    ensures { (g : GameValue) → IsTree g.nodes → (from to : ℕ) (v w : List ℕ) →
        IsDownPath g from to v → IsDownPath g from to w → v ≡ w }
{}

/// A path down to a searched node is a path of the searched tree.
#[tactic(auto, using(crate::proofs::Single::searched_law))]
pub fn down_paths_are_searched()
    ensures { (tree : SearchedTree) → IsTree tree.game.nodes → (from to : ℕ) (path : List ℕ) →
        is_searched tree.variations tree.game.nodes to ≡ true → IsDownPath tree.game from to path → IsPath tree false false from path }
{}
