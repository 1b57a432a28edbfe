//! The order of answers at worked rows, and laws of it for proofs in other crates.
ghost use Rattle.std.specs.Prelude.{◌≡◌, ◌+◌, ◌<◌, ℕ, Bool, List, length, map, take, Some, AllPairs};
ghost use Rattle.std.specs.List.Sorted.{IsPermutation};
ghost use Rattle.pgn_batches.specs.declared.batch.Batch.{Batch};
ghost use Rattle.cq_position.specs.Games.{Game};
ghost use Rattle.cql_syntax.specs.Hits.{hits, keys};
ghost use Rattle.cql_syntax.specs.Trees.{QueryTree};
ghost use Rattle.cq_shards.specs.declared.answers.GameAnswer.{GameAnswer};
ghost use Rattle.cq_shards.specs.Answers.{AnswersBatch, AreAnswersOf};
ghost use Rattle.cq_shards.specs.Internal.Finders.{AreFound};
ghost use Rattle.cq_shards.specs.FirstMatch.{AnswersUpToFirst};
ghost use Rattle.cq_shards.specs.Order.{AreOfDistinctGames, ComesBefore, IsEarlier, directions, values_in};
ghost use Rattle.cq_shards.specs.OrderExamples.{OrderExamples};

/// The order of two answers.
#[tactic(auto, using(crate::proofs::OrderExamples::order_rows))]
pub fn answers_are_ordered_as_worked()
    ensures { OrderExamples }
{}

/// The meaning of a query gives a game one key for each sort item. If the query matches, each of them has a value.
#[tactic(auto, using(crate::proofs::Counts::key_count, crate::proofs::Values::all_kept))]
pub fn games_have_a_key_for_each_sort_item()
    ensures count { (q : QueryTree) (game : Game) → length (keys q game) ≡ length (directions q.items) }
    ensures values { (q : QueryTree) (game : Game) → 0 < length (hits q game) → map Some (values_in (keys q game)) ≡ keys q game }
{}

/// Answers have one order by their games, and one by their keys.
#[tactic(auto, using(crate::proofs::OneWay::one_order))]
pub fn answers_have_one_order()
    ensures games { (xs ys : List GameAnswer) → IsPermutation xs ys → AllPairs IsEarlier xs → AllPairs IsEarlier ys → xs ≡ ys }
    ensures keys { (items : List Bool) (xs ys : List GameAnswer) → IsPermutation xs ys
        → AllPairs (ComesBefore items) xs → AllPairs (ComesBefore items) ys → xs ≡ ys }
{}

/// The answers of a batch, each once, in the order of their games, are the answers of its games one by one.
#[tactic(auto, using(crate::proofs::Beside::ordered_answers))]
pub fn ordered_answers_stand_beside_their_games()
    ensures { (query : QueryTree) (batch : Batch) (answers sorted : List GameAnswer) → AreAnswersOf query batch answers
        → IsPermutation answers sorted → (AreOfDistinctGames answers → AllPairs IsEarlier sorted) → AnswersBatch query batch sorted }
{}

/// The answers of all workers, in the order of their games, are cut off after the first match.
#[tactic(auto, using(crate::proofs::UpToFirst::cut_off))]
pub fn ordered_answers_are_cut_off_behind_the_first_match()
    ensures { (query : QueryTree) (batch : Batch) (word : ℕ) (answers sorted kept : List GameAnswer)
        → AreFound query batch word answers → IsPermutation answers sorted → (AreOfDistinctGames answers → AllPairs IsEarlier sorted)
        → kept ≡ take (word + 1) sorted → AnswersUpToFirst query batch kept }
{}
