//! One game against all parts of a plan.
ghost use Rattle.std.specs.Prelude.{true, IfOk};
ghost use Rattle.cq_shared.specs.Matching.{sort_class, is_before, is_class, AreLeft, AreReady, IsReady};
ghost use Rattle.cq_shared.specs.Matching.{IsNarrowedBy, IsNarrowedIf, HasKeyColumn, HaveKeyColumns};
ghost use Rattle.cq_shared.specs.StepBounds.{TakesAtMost, TakeAtMost};

use crate::narrowing::{narrowed, pending_nodes};
use crate::nodes::{KeyColumn, NodeSet, NodesAndKeys, PartResult};
use crate::part::Part;
use crate::part_values::values_at;
use cq_common::{NoMemory, Steps};
use cql_candidates::order::SORT_CLASS;
use pgn_tree::Game;
use std::alloc::Global;
use std::sync::ledger::Ledger;

/// The nodes that are left to each query after all parts but the sort items. Parts are evaluated in the order of their classes, a guess at
/// their cost.
pub(crate) fn nodes_left_by<L: Ledger>(
    alloc: Global,
    parts: &[Part],
    game: &Game,
    start_nodes: Vec<NodeSet>,
    steps: &mut Steps<L>,
) -> Result<Vec<NodeSet>, NoMemory>
    requires ready { AreReady game.now start_nodes.items parts.now }
    ensures left { IfOk result (λ left. AreLeft (is_before sort_class) game.now parts.now start_nodes.items left.items) }
    ensures cost { TakeAtMost (is_before sort_class) game.now parts.now start_nodes.items steps.old steps.new }
{
    let mut left = start_nodes;
    for class in 0..SORT_CLASS {
        left = narrow_by_class(alloc, class, parts, game, left, steps)?;
    }
    Ok(left)
}

// The nodes that are left to each query after the parts of a class.
fn narrow_by_class<L: Ledger>(
    alloc: Global,
    class: u32,
    parts: &[Part],
    game: &Game,
    left: Vec<NodeSet>,
    steps: &mut Steps<L>,
) -> Result<Vec<NodeSet>, NoMemory>
    requires ready { AreReady game.now left.items parts.now }
    ensures left { IfOk result (λ later. AreLeft (is_class class) game.now parts.now left.items later.items) }
    ensures cost { TakeAtMost (is_class class) game.now parts.now left.items steps.old steps.new }
{
    let mut later = left;
    for k in 0..parts.len() {
        later = after_if(alloc, class, &parts[k], game, later, steps)?;
    }
    Ok(later)
}

// The nodes that are left after a part, if it is of the class.
fn after_if<L: Ledger>(
    alloc: Global,
    class: u32,
    part: &Part,
    game: &Game,
    left: Vec<NodeSet>,
    steps: &mut Steps<L>,
) -> Result<Vec<NodeSet>, NoMemory>
    requires ready { IsReady game.now left.items part.now }
    ensures left { IfOk result (λ later. IsNarrowedIf (is_class class) game.now part.now left.items later.items) }
    ensures cost { TakesAtMost (is_class class) game.now part.now left.items steps.old steps.new }
{
    if part.class != class {
        return Ok(left);
    }
    let later = after(alloc, part, game, left, steps)?;
    Ok(later.left)
}

// The nodes that are left to each query after a part, and if it is a sort item, its row. It is evaluated at most once, at the nodes that
// are still left to some query that has it.
fn after<L: Ledger>(
    alloc: Global,
    part: &Part,
    game: &Game,
    left: Vec<NodeSet>,
    steps: &mut Steps<L>,
) -> Result<PartResult, NoMemory>
    requires ready { IsReady game.now left.items part.now }
    ensures left { IfOk result (λ n. IsNarrowedBy game.now part.now left.items n.left.items) }
    ensures row { IfOk result (λ n. HasKeyColumn game.now n.left.items part.now n.row.numbers.items) }
    ensures cost { TakesAtMost (λ p. true) game.now part.now left.items steps.old steps.new }
{
    let live = pending_nodes(alloc, part, game, left.as_slice())?;
    let asked = values_at(alloc, part, game, live.as_slice(), steps)?;
    let truths = asked.truths;
    let later = narrowed(alloc, part, game, left, live.as_slice(), truths.as_slice())?;
    let row = KeyColumn {
        numbers: asked.numbers,
    };
    Ok(PartResult { left: later, row })
}

/// The nodes that are left to each query after the sort items, and the numbers of these there.
pub(crate) fn sort_rows_by<L: Ledger>(
    alloc: Global,
    parts: &[Part],
    game: &Game,
    left: Vec<NodeSet>,
    steps: &mut Steps<L>,
) -> Result<NodesAndKeys, NoMemory>
    requires ready { AreReady game.now left.items parts.now }
    ensures left { IfOk result (λ s. AreLeft (is_class sort_class) game.now parts.now left.items s.left.items) }
    ensures rows { IfOk result (λ s. HaveKeyColumns game.now s.left.items parts.now s.rows.items) }
    ensures cost { TakeAtMost (is_class sort_class) game.now parts.now left.items steps.old steps.new }
{
    let mut later = left;
    let mut rows = Vec::new(alloc);
    for k in 0..parts.len() {
        let sorted = after_sort_if(alloc, &parts[k], game, later, steps)?;
        later = sorted.left;
        rows.push(sorted.row)?;
    }
    Ok(NodesAndKeys { left: later, rows })
}

// The nodes that are left after a part, if it is a sort item, and its numbers there.
fn after_sort_if<L: Ledger>(
    alloc: Global,
    part: &Part,
    game: &Game,
    left: Vec<NodeSet>,
    steps: &mut Steps<L>,
) -> Result<PartResult, NoMemory>
    requires ready { IsReady game.now left.items part.now }
    ensures left { IfOk result (λ s. IsNarrowedIf (is_class sort_class) game.now part.now left.items s.left.items) }
    ensures row { IfOk result (λ s. HasKeyColumn game.now s.left.items part.now s.row.numbers.items) }
    ensures cost { TakesAtMost (is_class sort_class) game.now part.now left.items steps.old steps.new }
{
    if part.class != SORT_CLASS {
        let row = KeyColumn {
            numbers: Vec::new(alloc),
        };
        return Ok(PartResult { left, row });
    }
    let sorted = after(alloc, part, game, left, steps)?;
    Ok(sorted)
}
