//! The queries of a plan of several, which are matched with games all at once.
ghost use Rattle.cql_syntax.specs.QueryTrees.{trees_of};
ghost use Rattle.cq_shared.specs.Plans.{queries_of};

use crate::answers::GameAnswer;
use crate::match_plan::match_shared_plan;
use crate::matcher::MultiMatcher;
use crate::search_game::build_answer;
use cq_common::NoMemory;
use cq_shared::SharedPlan;
use pgn_tree::Game;
use std::alloc::Global;

/// A plan whose queries are matched.
#[derive(Drop)]
pub(crate) struct SharedPlanMatcher<'a> {
    pub(crate) plan: &'a SharedPlan,
}

impl<'a> MultiMatcher for SharedPlanMatcher<'a> {
    ghost queries = { λ matcher. trees_of (queries_of matcher.plan.now) };

    fn len(&self) -> u32 {
        self.plan.len()
    }

    fn answers(&self, alloc: Global, game: &Game, index: u64) -> Result<Vec<GameAnswer>, NoMemory> {
        let plan = self.plan;
        let found = match_shared_plan(alloc, plan, game)?;
        let mut answers = Vec::with_capacity(alloc, plan.len() as usize)?;
        for q in (0..plan.len()).rev() {
            let query = plan.query(q);
            let answer = build_answer(alloc, query, game, index, found.nodes(q), found.keys(q))?;
            answers.push(answer)?;
        }
        Ok(answers)
    }
}
