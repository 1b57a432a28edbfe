//! The results of several queries in a game.
ghost use Rattle.std.specs.Prelude.{◌≡◌, ◌<◌, [], length, get_or};
ghost use Rattle.cq_shared.specs.Verdicts.{nodes_of, keys_of};

use cq_common::Shared;

/// The hits of each query of a plan in a game, and its sort keys of the game.
#[derive(Drop)]
pub struct Verdicts {
    pub(crate) found: Vec<HitsAndKeys>,
}

impl Shared for Verdicts {}

/// The hits of one query, and its keys.
#[derive(Drop)]
pub(crate) struct HitsAndKeys {
    pub(crate) nodes: Vec<u32>,
    pub(crate) keys: Vec<i64>,
}

impl Verdicts {
    /// The numbers of the nodes at which a query hits, increasing.
    pub fn nodes(&self, query: u32) -> &[u32]
        requires { query < length (nodes_of self.now) }
        ensures { result.now ≡ get_or (nodes_of self.now) query [] }
    {
        self.found[query as usize].nodes.as_slice()
    }

    /// The keys of a query's sort items over its hits, the first item first; none if there is no hit.
    pub fn keys(&self, query: u32) -> &[i64]
        requires { query < length (nodes_of self.now) }
        ensures { result.now ≡ get_or (keys_of self.now) query [] }
    {
        self.found[query as usize].keys.as_slice()
    }
}
