//! The query of a plan, which can be matched with games.
ghost use Rattle.cq_shards.specs.PlanQuery.{query_in};

use crate::answers::GameAnswer;
use crate::match_plan::match_plan;
use crate::matcher::Matcher;
use crate::search_game::build_answer;
use cq_common::NoMemory;
use cql_plan::Plan;
use pgn_tree::Game;
use std::alloc::Global;

/// A plan whose query is matched.
#[derive(Drop)]
pub(crate) struct PlanMatcher<'a> {
    pub(crate) plan: &'a Plan,
}

impl<'a> Matcher for PlanMatcher<'a> {
    ghost query = { λ matcher. query_in matcher.plan.now };

    fn answer(&self, alloc: Global, game: &Game, index: u64) -> Result<GameAnswer, NoMemory> {
        let found = match_plan(alloc, self.plan, game)?;
        build_answer(
            alloc,
            self.plan.query(),
            game,
            index,
            found.nodes(),
            found.keys(),
        )
    }
}
