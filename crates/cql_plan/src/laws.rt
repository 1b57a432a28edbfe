//! The needs of a query, by worked rows, and the law that a game with a hit has them.
ghost use Rattle.std.specs.Prelude.{◌≡◌, ◌≢◌, ◌<◌, ℕ, true, [], length};
ghost use Rattle.cq_position.specs.Games.{Game, is_searched};
ghost use Rattle.cq_position.specs.Search.{SearchedTree};
ghost use Rattle.cql_syntax.specs.Hits.{hits, tree_of};
ghost use Rattle.cql_syntax.specs.Meaning.{Names, value};
ghost use Rattle.cql_syntax.specs.Trees.{FilterTree, QueryTree};
ghost use Rattle.cql_syntax.specs.Values.{holds};
ghost use Rattle.cql_plan.specs.Needs.{passes, all_pass, query_passes};
ghost use Rattle.cql_plan.specs.NeedsExamples.{DesignatorRows, HeaderRows, PartRows, OtherRows};

/// The games that pass the needs of small filters.
#[tactic(auto, using(crate::proofs::NeedsExamples::designator_rows, crate::proofs::NeedsExamples::header_rows, crate::proofs::NeedsExamples::part_rows, crate::proofs::NeedsExamples::other_rows))]
pub fn needs_are_as_worked()
    ensures designators { DesignatorRows }
    ensures headers { HeaderRows }
    ensures parts { PartRows }
    ensures others { OtherRows }
{}

/// A game passes the needs of each filter that holds at a searched node, whatever squares are bound to names.
#[tactic(auto, using(crate::proofs::Needed::holding_passes_needs))]
pub fn holding_passes_needs()
    ensures { (tree : SearchedTree) (names : Names) (f : FilterTree) (n : ℕ) → n < length tree.game.nodes
        → is_searched tree.variations tree.game.nodes n ≡ true → holds (value tree [] names f n) ≡ true → passes tree f ≡ true }
{}

/// A game with a hit passes the needs of the query's items, and those of its flat items.
#[tactic(auto, using(crate::proofs::Needed::hits_pass, crate::proofs::Flattened::flat_passes))]
pub fn games_with_a_hit_pass()
    ensures items { (q : QueryTree) (game : Game) → hits q game ≢ [] → all_pass (tree_of q game) q.items ≡ true }
    ensures flat { (q : QueryTree) (game : Game) → hits q game ≢ [] → query_passes q game ≡ true }
{}
