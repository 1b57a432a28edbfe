//! A law of marked games, for proofs in other crates.
ghost use Rattle.std.specs.Prelude.{◌≡◌};
ghost use Rattle.cq_position.specs.Games.{Game};
ghost use Rattle.cql_syntax.specs.Hits.{hits, marks, marked};
ghost use Rattle.cql_syntax.specs.Trees.{QueryTree};
ghost use Rattle.cq_annotate.specs.Marking.{game_marked};

/// The game in which the hits of a query are marked is its marked game.
#[tactic(auto, unfolding(cql_syntax::specs::Hits::marked))]
pub fn marks_at_hits_give_the_marked_game()
    ensures { (q : QueryTree) (game : Game) → game_marked (marks q) (hits q game) game ≡ marked q game }
{}
