//! The flat form at worked rows, and its laws, for proofs in other crates.
ghost use Rattle.cq_position.specs.Games.{Game};
ghost use Rattle.cq_position.specs.Search.{SearchedTree};
ghost use Rattle.cql_syntax.specs.Contexts.{Context};
ghost use Rattle.cql_syntax.specs.Flat.{flat, flat_all, flat_query};
ghost use Rattle.cql_syntax.specs.FlatItems.{has_family, kinds_agree, break_no_rule};
ghost use Rattle.cql_syntax.specs.FlatExamples.{FlatExamples};
ghost use Rattle.cql_syntax.specs.Hits.{hits, keys, marks};
ghost use Rattle.cql_syntax.specs.Meaning.{Names, value, values};
ghost use Rattle.cql_syntax.specs.Same.{same_filter};
ghost use Rattle.cql_syntax.specs.Unplaced.{unplaced, same_unplaced};
ghost use Rattle.cql_syntax.specs.TreeFaults.{tree_fault, has_any};
ghost use Rattle.cql_syntax.specs.Trees.{FilterTree, FilterTrees, QueryTree};
ghost use Rattle.std.specs.Prelude.{◌≡◌, ◌↔◌, ℕ, [], None, true, false};

/// The flat forms of small filters.
#[tactic(auto, using(crate::proofs::FlatExamples::flat_rows))]
pub fn flat_forms_are_as_worked()
    ensures { FlatExamples }
{}

/// The test of two filters is true exactly where they are equal.
#[tactic(auto, using(crate::proofs::SameSound::same_law))]
pub fn same_filters_are_equal()
    ensures { (f g : FilterTree) → (same_filter f g ≡ true) ↔ (f ≡ g) }
{}

/// Filters are the same but for their places exactly if they are equal without these. They then have the same value in every context:
/// at every node of every searched tree, with any names bound.
#[tactic(auto, using(crate::proofs::SameSound::same_law, crate::proofs::UnplacedSame::same_value))]
pub fn places_do_not_count()
    ensures equal { (f g : FilterTree) → (same_unplaced f g ≡ true) ↔ (unplaced f ≡ unplaced g) }
    ensures value { (f g : FilterTree) → same_unplaced f g ≡ true → (tree : SearchedTree) (c : Context) (e : Names) (n : ℕ) →
        value tree c e f n ≡ value tree c e g n }
{}

/// The flat form of a filter has in the empty context the value that the filter has in its own. This is so at every node of every
/// searched tree, with any names bound.
#[tactic(auto, using(crate::proofs::FlatSame::flat_is_same, crate::proofs::FlatSame::all_is_same))]
pub fn flat_forms_have_the_same_value()
    ensures one { (tree : SearchedTree) (f : FilterTree) (g : Context) (e : Names) (n : ℕ) →
        value tree g e f n ≡ value tree [] e (flat g f) n }
    ensures all { (tree : SearchedTree) (fs : FilterTrees) (g : Context) (e : Names) (n : ℕ) →
        values tree g e fs n ≡ values tree [] e (flat_all g fs) n }
{}

/// The query with the flat items of a query has the same hits in every game, with the same marks, and the same sort keys.
#[tactic(auto, using(crate::proofs::FlatHits::hits_same, crate::proofs::FlatHits::marks_same, crate::proofs::FlatHits::keys_same))]
pub fn flat_queries_have_the_same_hits()
    ensures hits { (q : QueryTree) (game : Game) → hits (flat_query q) game ≡ hits q game }
    ensures marks { (q : QueryTree) → marks (flat_query q) ≡ marks q }
    ensures keys { (q : QueryTree) (game : Game) → keys (flat_query q) game ≡ keys q game }
{}

/// The flat items of a query without a fault and without `Any` have all properties of the type of flat
/// queries.
#[tactic(auto, using(crate::proofs::FlatFacts::flat_families, crate::proofs::FlatFacts::flat_kinds, crate::proofs::FlatFacts::flat_rules))]
pub fn flat_items_make_a_flat_query()
    ensures families { (q : QueryTree) → tree_fault q ≡ None → has_any q ≡ false → has_family (flat_all [] q.items) ≡ false }
    ensures kinds { (q : QueryTree) → tree_fault q ≡ None → has_any q ≡ false → kinds_agree (flat_all [] q.items) ≡ true }
    ensures rules { (q : QueryTree) → tree_fault q ≡ None → has_any q ≡ false → break_no_rule (flat_all [] q.items) ≡ true }
{}
