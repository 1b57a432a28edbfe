//! Moves to nodes, compared with the columns of their parts.
ghost use Rattle.std.specs.Prelude.{◌≡◌, ℕ, ◌<◌, ◌&&◌, length, get_or, false, option_map, Option, IfOk};
ghost use Rattle.cq_position.specs.Games.{IsTree, node_at};
ghost use Rattle.cql_values.specs.ValueModel.{as_value};
ghost use Rattle.cql_columns.specs.Columns.{IsNodeSet, AreKept, is_live, shown};
ghost use Rattle.cql_columns.specs.Scopes.{tree_in};
ghost use Rattle.cql_candidates.specs.MoveTargets.{move_matches};
ghost use Rattle.cql_candidates.specs.Promoting.{ArePromoting, is_promotion};

use cq_common::NoMemory;
use cq_position::Promotion;
use cql_columns::filter_column::{FilterColumn, blank_truths};
use cql_columns::nodes::same;
use cql_columns::scope::Scope;
use cql_columns::spans::{first_live_node, live_node_end};
use cql_values::move_filter::{before, led_to, meets_all};
use cql_values::value::Value;
use pgn_tree::Game;
use std::alloc::Global;

/// Returns the nodes of a set or, if `wanted`, those of them to which a promotion led.
///
/// # Errors
///
/// `NoMemory` if out of memory.
pub fn promotion_nodes(
    alloc: Global,
    scope: &Scope,
    wanted: bool,
    live: &[bool],
) -> Result<Vec<bool>, NoMemory>
    requires asked { IsNodeSet (tree_in scope.now) live.now }
    ensures { IfOk result (λ some. ArePromoting (tree_in scope.now) wanted live.now some.items) }
{
    let mut some = same(alloc, live)?;
    if wanted {
        keep_promotions(&mut some, scope.game);
    }
    Ok(some)
}

// Keeps those nodes of a set to which a promotion led.
fn keep_promotions(left: &mut [bool], game: &Game)
    requires { length left.old ≡ length game.now.nodes }
    ensures { AreKept (λ n. is_promotion (node_at game.now.nodes n).led_by) left.old left.new }
{
    for n in first_live_node(left, game.len())..live_node_end(left, game.len()) {
        left[n as usize] = is_promoted(left[n as usize], game, n);
    }
}

fn is_promoted(asked: bool, game: &Game, n: u32) -> bool
    requires { n < length game.now.nodes }
    ensures { result ≡ (asked && is_promotion (node_at game.now.nodes n).led_by) }
{
    if !asked {
        return false;
    }
    match game.move_to(n) {
        Some(m) => m.promotion != Promotion::None,
        None => false,
    }
}

/// The columns of the parts of a move, without its goal: `None` for a part that is not written.
#[derive(Drop)]
pub struct PartColumns {
    pub origin: Option<FilterColumn>,
    pub taken: Option<FilterColumn>,
    pub promoted: Option<FilterColumn>,
}

/// Returns the nodes of a set whose move meets the columns of each part that is written.
///
/// # Errors
///
/// `NoMemory` if out of memory.
pub fn matching_moves(
    alloc: Global,
    scope: &Scope,
    parts: &PartColumns,
    goal: &Option<FilterColumn>,
    live: &[bool],
) -> Result<Vec<bool>, NoMemory>
    requires tree { IsTree scope.now.game.now.nodes }
    requires asked { IsNodeSet (tree_in scope.now) live.now }
    ensures { IfOk result (λ truths. (n : ℕ) → get_or truths.items n false
        ≡ (is_live live.now n && move_matches (tree_in scope.now) parts.now (option_map (λ c. shown c n) goal.now) n)) }
{
    let mut truths = blank_truths(alloc, scope.game.len() as usize)?;
    for n in 0..scope.game.len() {
        truths[n as usize] = is_met(live[n as usize], scope, parts, goal, n);
    }
    Ok(truths)
}

fn is_met(
    asked: bool,
    scope: &Scope,
    parts: &PartColumns,
    goal: &Option<FilterColumn>,
    n: u32,
) -> bool
    requires tree { IsTree scope.now.game.now.nodes }
    requires node { n < length scope.now.game.now.nodes }
    ensures { result ≡ (asked && move_matches (tree_in scope.now) parts.now (option_map (λ c. shown c n) goal.now) n) }
{
    if !asked {
        return false;
    }
    let goal = written_at(goal, n as usize);
    meets_parts(scope, parts, goal, n)
}

/// Returns true if the move to a node meets the columns of its parts, and its goal is met. Its origin and the man it took are evaluated at
/// the node before.
pub fn meets_parts(scope: &Scope, parts: &PartColumns, goal: Option<Value>, n: u32) -> bool
    requires tree { IsTree scope.now.game.now.nodes }
    requires node { n < length scope.now.game.now.nodes }
    ensures { result ≡ move_matches (tree_in scope.now) parts.now (option_map as_value goal) n }
{
    let before = before(scope.game, scope.variations, n) as usize;
    let origin = written_at(&parts.origin, before);
    let taken = written_at(&parts.taken, before);
    let promoted = written_at(&parts.promoted, n as usize);
    meets_all(led_to(scope.game, n), origin, goal, taken, promoted)
}

// The value of a part that is written.
fn written_at(column: &Option<FilterColumn>, n: usize) -> Option<Value>
    ensures { option_map as_value result ≡ option_map (λ c. shown c n) column.now }
{
    match column {
        Some(column) => Some(column.at(n)),
        None => None,
    }
}
