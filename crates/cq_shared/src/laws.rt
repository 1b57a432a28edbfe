//! Laws of the parts of queries.
ghost use Rattle.std.specs.Prelude.{◌≡◌, ℕ, [], true, false};
ghost use Rattle.std.specs.List.{list_all};
ghost use Rattle.cq_position.specs.Search.{SearchedTree};
ghost use Rattle.cql_rewrite.specs.FlatText.{items_text};
ghost use Rattle.cql_syntax.specs.FlatItems.{has_family, kinds_agree, break_no_rule};
ghost use Rattle.cql_syntax.specs.Hits.{is_hit};
ghost use Rattle.cql_syntax.specs.Meaning.{value};
ghost use Rattle.cql_syntax.specs.Trees.{FilterTree, FilterTrees};
ghost use Rattle.cql_syntax.specs.Unplaced.{same_unplaced};
ghost use Rattle.cql_syntax.specs.Values.{holds};
ghost use Rattle.cq_shared.specs.StandaloneFilters.{stands_alone};
ghost use Rattle.cq_shared.specs.Parts.{query_parts};
ghost use Rattle.cql_plan.specs.Replacements.{alone};

/// A query has a hit at a node exactly if all of its parts hold there.
#[tactic(auto, using(crate::proofs::PartsHold::parts_hold))]
pub fn parts_hold_at_hits()
    ensures { (tree : SearchedTree) (items : FilterTrees) (n : ℕ) →
        is_hit tree items n ≡ list_all (λ f. holds (value tree [] [] f n)) (query_parts items) }
{}

/// Filters that are the same but for their places have one text, by which they are found.
#[tactic(auto, using(crate::proofs::SameText::one_text))]
pub fn texts_are_one()
    ensures { (f g : FilterTree) → same_unplaced f g ≡ true → items_text (alone f) ≡ items_text (alone g) }
{}

/// Each part of a flat query can be the only item of one.
#[tactic(auto, using(crate::proofs::StandAlone::parts_stand))]
pub fn parts_stand_alone()
    ensures { (items : FilterTrees) → has_family items ≡ false → kinds_agree items ≡ true → break_no_rule items ≡ true →
        list_all stands_alone (query_parts items) ≡ true }
{}
