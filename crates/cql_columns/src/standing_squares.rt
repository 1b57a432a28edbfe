//! The squares that have the men of a designator.
ghost use Rattle.std.specs.Prelude.{◌≡◌, ◌<◌, length, true, Some, IfOk};
ghost use Rattle.cq_position.specs.Games.{node_at};
ghost use Rattle.cq_symmetry.specs.Images.{is_in};
ghost use Rattle.cql_syntax.specs.Meaning as meaning;
ghost use Rattle.cql_syntax.specs.Values.{as_squares};
ghost use Rattle.cql_values.specs.FilterValues.{AreMenOf};
ghost use Rattle.cql_columns.specs.Columns.{IsNodeSet, AreSets};
ghost use Rattle.cql_columns.specs.Scopes.{tree_in};

use crate::filter_column::blank_sets;
use crate::scope::Scope;
use crate::spans::{first_live_node, live_node_end};
use cq_common::NoMemory;
use cq_position::Man;
use cql_syntax::Designator;
use cql_values::words::{listed_men, standing_of};
use pgn_tree::Game;
use std::alloc::Global;

/// Returns for each live node the squares of a designator that have one of its men.
///
/// # Errors
///
/// `NoMemory` if out of memory.
pub fn standing_sets(
    alloc: Global,
    d: &Designator,
    scope: &Scope,
    live: &[bool],
) -> Result<Vec<u64>, NoMemory>
    requires asked { IsNodeSet (tree_in scope.now) live.now }
    ensures { IfOk result (λ sets. AreSets sets.items live.now
        (λ n. meaning.standing_of (node_at scope.now.game.now.nodes n).position.men (Some d.now))) }
{
    let men = listed_men(alloc, d.men)?;
    let end = live_node_end(live, scope.game.len());
    let mut sets = blank_sets(alloc, end as usize)?;
    for n in first_live_node(live, scope.game.len())..end {
        sets[n as usize] = standing_set(live[n as usize], d, &men, scope.game, n);
    }
    Ok(sets)
}

fn standing_set(asked: bool, d: &Designator, men: &[Man], game: &Game, n: u32) -> u64
    requires men { AreMenOf d.now.men men.now }
    requires node { n < length game.now.nodes }
    ensures { asked ≡ true → as_squares (is_in result)
        ≡ meaning.standing_of (node_at game.now.nodes n).position.men (Some d.now) }
{
    if asked {
        standing_of(game.position(n), d, men)
    } else {
        0
    }
}
