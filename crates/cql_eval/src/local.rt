//! Filters on squares, evaluated node by node and square by square.
ghost use Rattle.std.specs.Prelude.{◌≡◌, ◌<◌, ℕ, length, true, IfOk, IfSome};
ghost use Rattle.cql_syntax.specs.TreeOf.{filter_tree};
ghost use Rattle.cql_syntax.specs.Values as spec;
ghost use Rattle.cql_eval.specs.Internal.Bindings.{holds_with};
ghost use Rattle.cql_columns.specs.Columns.{IsNodeSet, AreTruths, shown};
ghost use Rattle.cql_columns.specs.Scopes.{tree_in};

use cq_common::NoMemory;
use cql_columns::binding::Binding;
use cql_columns::filter_column::blank_truths;
use cql_columns::spans::{first_live_node, live_node_end};
use cql_local::{GameNode, is_cheap_locally, local_square_truth};
use cql_syntax::Filter;
use cql_values::names::Names;
use std::alloc::Global;

/// The truth that a filter holds with every square of a column, or with some, evaluated node by node; `None` if its form doesn't allow it.
pub(crate) fn local_truths(
    alloc: Global,
    binding: &Binding,
    asked: &Filter,
    live: &[bool],
) -> Result<Option<Vec<bool>>, NoMemory>
    requires asked { IsNodeSet (tree_in binding.now.scope.now) live.now }
    ensures { IfOk result (λ here. IfSome here (λ truths. AreTruths truths.items live.now
        (λ n. spec.square_of binding.now.every (shown binding.now.squares.now n) (holds_with binding.now (filter_tree asked.now) n)))) }
{
    let game = binding.scope.game;
    if !is_cheap_locally(binding.every, binding.name, asked, game) {
        return Ok(None);
    }
    let mut names = binding.scope.names.copy(alloc)?;
    let end = live_node_end(live, game.len());
    let mut truths = blank_truths(alloc, end as usize)?;
    for n in first_live_node(live, game.len())..end {
        match local_truth(binding, asked, live[n as usize], n, &mut names)? {
            Some(truth) => truths[n as usize] = truth,
            None => return Ok(None),
        }
    }
    Ok(Some(truths))
}

// The truth at one node. At a node that isn't wanted any value will do.
fn local_truth(
    binding: &Binding,
    asked: &Filter,
    wanted: bool,
    n: u32,
    names: &mut Names,
) -> Result<Option<bool>, NoMemory>
    requires node { n < length binding.now.scope.now.game.now.nodes }
    requires names { names.old ≡ binding.now.scope.now.names.now }
    ensures value { IfOk result (λ here. IfSome here (λ truth. wanted ≡ true → spec.as_truth truth
        ≡ spec.square_of binding.now.every (shown binding.now.squares.now n) (holds_with binding.now (filter_tree asked.now) n))) }
    ensures names { names.new ≡ names.old }
{
    if !wanted {
        return Ok(Some(false));
    }
    let squares = binding.squares.at(n as usize);
    if squares.squares() == 0 {
        return Ok(Some(binding.every));
    }
    let place = GameNode {
        game: binding.scope.game,
        variations: binding.scope.variations,
        node: n,
    };
    let truth = local_square_truth(binding.every, binding.name, squares, asked, &place, names)?;
    Ok(truth)
}
