//! The meaning of each word at worked rows, and laws of it for proofs in other crates.
ghost use Rattle.cq_common.specs.Spelling.{TestIsSpelling};
ghost use Rattle.cq_position.specs.Search.{SearchedTree};
ghost use Rattle.cql_syntax.specs.Contexts.{Context};
ghost use Rattle.cql_syntax.specs.EdgeExamples.{FitExamples, ExchangeExamples, EdgeExamples};
ghost use Rattle.cql_syntax.specs.FamilyExamples.{FamilyExamples, DropExamples, ImageExamples};
ghost use Rattle.cql_syntax.specs.HitExamples.{HitExamples};
ghost use Rattle.cql_syntax.specs.Kinds.{filter_kind};
ghost use Rattle.cql_syntax.specs.LineExamples.{LineExamples, MoveExamples};
ghost use Rattle.cql_syntax.specs.LongestPaths.{LinesAreLongestPaths};
ghost use Rattle.cql_syntax.specs.Meaning.{Names, value};
ghost use Rattle.cql_syntax.specs.NumberExamples.{NumberExamples, ComparisonExamples};
ghost use Rattle.cql_syntax.specs.PositionExamples.{WordExamples, HeaderExamples, LogicExamples, TreeExamples};
ghost use Rattle.cql_syntax.specs.SetExamples.{SetExamples, DirectionExamples};
ghost use Rattle.cql_syntax.specs.LineTables.{TablesGiveLines, SpelledTablesGiveLines};
ghost use Rattle.cql_syntax.specs.TreeLists.{AreInverse, AreTreesOfEach, EndsAlike, filters_from, filters_of, parts_from, parts_of, terms_from, terms_of};
ghost use Rattle.cql_syntax.specs.Trees.{FilterTree};
ghost use Rattle.cql_syntax.specs.Values.{Value, is_of_kind};
ghost use Rattle.std.specs.Prelude.{◌≡◌, ℕ, true};

/// The values of set filters in the initial array.
#[tactic(auto, using(crate::proofs::SetExamples::set_rows, crate::proofs::SetExamples::direction_rows))]
pub fn sets_are_as_worked()
    ensures sets { SetExamples }
    ensures directions { DirectionExamples }
{}

/// The values of number filters, and the comparison of numbers.
#[tactic(auto, using(crate::proofs::NumberExamples::number_rows, crate::proofs::NumberExamples::comparison_rows))]
pub fn numbers_are_as_worked()
    ensures numbers { NumberExamples }
    ensures comparisons { ComparisonExamples }
{}

/// The nodes at which position filters hold.
#[tactic(auto, using(crate::proofs::PositionExamples::word_rows, crate::proofs::PositionExamples::header_rows, crate::proofs::PositionExamples::logic_rows, crate::proofs::PositionExamples::tree_rows))]
pub fn positions_are_as_worked()
    ensures words { WordExamples }
    ensures headers { HeaderExamples }
    ensures logic { LogicExamples }
    ensures tree { TreeExamples }
{}

/// The values of lines, and the nodes at which the filter of the move holds.
#[tactic(auto, using(crate::proofs::LineExamples::line_rows, crate::proofs::LineExamples::move_rows))]
pub fn lines_and_moves_are_as_worked()
    ensures lines { LineExamples }
    ensures moves { MoveExamples }
{}

/// The values of families, and the designators that drop out of their members.
#[tactic(auto, using(crate::proofs::FamilyExamples::family_rows, crate::proofs::FamilyExamples::drop_rows, crate::proofs::FamilyExamples::image_rows))]
pub fn families_are_as_worked()
    ensures families { FamilyExamples }
    ensures drops { DropExamples }
    ensures images { ImageExamples }
{}

/// The filters that fit a shift, the images of leaves under an exchange of colours and a turn, and values at
/// their edges.
#[tactic(auto, using(crate::proofs::EdgeExamples::fit_rows, crate::proofs::EdgeExamples::exchange_rows, crate::proofs::EdgeExamples::edge_rows))]
pub fn edges_are_as_worked()
    ensures fits { FitExamples }
    ensures exchanges { ExchangeExamples }
    ensures edges { EdgeExamples }
{}

/// The hits of queries, the marks of the hits, and the sort keys.
#[tactic(auto, using(crate::proofs::HitExamples::hit_rows))]
pub fn hits_are_as_worked()
    ensures { HitExamples }
{}

/// A path passes the test of a line's pattern exactly if the pattern spells it.
#[tactic(auto, using(cq_common::proofs::SpellingLaw::spelling_law))]
pub fn lines_are_tested_by_splits()
    ensures { TestIsSpelling (ℕ → Value) }
{}

/// The value of a line at a node is the greatest length of the paths from there that its pattern spells and its extent allows.
#[tactic(auto, using(crate::proofs::LongestPaths::lines_are_longest_paths))]
pub fn lines_are_longest_paths()
    ensures { LinesAreLongestPaths }
{}

/// A table has for each atom of a line the searched nodes at which its filter holds. The line's value is the greatest allowed length of
/// a way that the table's pattern spells.
#[tactic(auto, using(crate::proofs::TabledLines::lines_are_theirs))]
pub fn tables_give_their_lines()
    ensures { TablesGiveLines }
{}

/// The same law, for a table whose pattern spells on the paths from a node exactly those that the
/// filters spell there.
#[tactic(auto, using(crate::proofs::TabledLines::spelled_lines_are_theirs))]
pub fn spelled_tables_give_their_lines()
    ensures { SpelledTablesGiveLines }
{}

/// The value of a filter is of the filter's kind.
#[tactic(auto, using(crate::proofs::ValueKinds::value_is))]
pub fn values_are_of_their_kind()
    ensures { (tree : SearchedTree) (g : Context) (e : Names) (f : FilterTree) (n : ℕ) →
        is_of_kind (filter_kind f) (value tree g e f n) ≡ true }
{}

/// The lists of a query's tree are lists: each is one in one way. The trees of values in a row are the trees of each
/// value.
#[tactic(auto, using(crate::proofs::TreeLists::filter_lists, crate::proofs::TreeLists::term_lists, crate::proofs::TreeLists::part_lists, crate::proofs::TreeLists::ends_alike, crate::proofs::TreeLists::trees_of_each))]
pub fn tree_lists_are_lists()
    ensures filters { AreInverse filters_of filters_from }
    ensures terms { AreInverse terms_of terms_from }
    ensures parts { AreInverse parts_of parts_from }
    ensures ends { EndsAlike }
    ensures each { AreTreesOfEach }
{}
