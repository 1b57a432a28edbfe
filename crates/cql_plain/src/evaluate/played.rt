//! The filter on the move to a node.
ghost use Rattle.std.specs.Prelude.{◌≡◌, ◌<◌, length, option_map, IfOk};
ghost use Rattle.cq_position.specs.Games.{IsTree};
ghost use Rattle.cql_syntax.specs.Meaning as meaning;
ghost use Rattle.cql_syntax.specs.TreeOf.{played_tree, written_tree};
ghost use Rattle.cql_syntax.specs.Values.{as_truth};
ghost use Rattle.cql_plain.specs.Internal.Scopes.{tree_in};
ghost use Rattle.cql_values.specs.ValueModel.{as_value};

use super::evaluate;
use crate::scope::Scope;
use cq_common::NoMemory;
use cql_syntax::{Filter, Played};
use cql_values::move_filter::{before, led_to, meets_all};
use cql_values::value::Value;
use std::alloc::Global;

/// Returns the truth of the filter on the move to a node. Its origin and its capture are evaluated at the node before, its goal and its
/// promotion at the node itself.
#[cycle(evaluate)]
#[tactic(auto, unfolding(cql_syntax::specs::Meaning::value))]
pub(super) fn played_at(
    alloc: Global,
    played: &Played,
    scope: &Scope,
    node: u32,
) -> Result<Value, NoMemory>
    requires tree { IsTree scope.now.game.now.nodes }
    requires node { node < length scope.now.game.now.nodes }
    ensures { IfOk result (λ v. as_value v ≡ as_truth (meaning.played_value
        (tree_in scope.now) scope.now.context.now scope.now.names.now (played_tree played.now) node)) }
{
    let before = before(scope.game, scope.variations, node);
    let origin = written_at(alloc, &played.origin, scope, before)?;
    let goal = written_at(alloc, &played.goal, scope, node)?;
    let taken = written_at(alloc, &played.taken, scope, before)?;
    let promoted = written_at(alloc, &played.promoted, scope, node)?;
    Ok(Value::Truth(meets_all(led_to(scope.game, node), origin, goal, taken, promoted)))
}

// The value of a part that is written.
#[cycle(evaluate)]
#[tactic(auto, unfolding(cql_syntax::specs::Meaning::value))]
fn written_at(
    alloc: Global,
    written: &Option<Box<Filter>>,
    scope: &Scope,
    node: u32,
) -> Result<Option<Value>, NoMemory>
    requires tree { IsTree scope.now.game.now.nodes }
    requires node { node < length scope.now.game.now.nodes }
    ensures { IfOk result (λ v. option_map as_value v ≡ meaning.written_value
        (tree_in scope.now) scope.now.context.now scope.now.names.now (written_tree written.now) node) }
{
    match written {
        Some(filter) => {
            let value = evaluate(alloc, filter, scope, node)?;
            Ok(Some(value))
        }
        None => Ok(None),
    }
}
