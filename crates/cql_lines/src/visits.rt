//! Visits of the nodes of a tree, each after the nodes whose lengths it needs.
ghost use Rattle.std.specs.Prelude.{◌≡◌, ℕ, ◌+◌, ◌*◌, ◌<◌, ◌≤◌, get_or, length, map, None, false, IfOk, OnErr, OnOk, replicate, true};
ghost use Rattle.cql_lines.specs.Internal.Cells.{Represents, both_kinds, Counts, AllowedLength};
ghost use Rattle.cql_lines.specs.Internal.DownwardPass.{IsParentUpdate, cell};
ghost use Rattle.cql_lines.specs.Internal.Passes.{IsNextRow, IsUpdate, PassInvariant, turns_before, visited_node};
ghost use Rattle.cql_lines.specs.Internal.SizesFit.{SizesFit};
ghost use Rattle.cql_lines.specs.Internal.AcceptedLengths.{AcceptedLength};
ghost use Rattle.cql_lines.specs.Shapes.{Edge, is_searched, joined, searched_count};
ghost use Rattle.cql_lines.specs.Tables.{holds};
ghost use Rattle.cql_lines.specs.Internal.UpwardPass.{IsAbove};
ghost use Rattle.cql_lines.specs.Values.{GreatestWhere};

use crate::automaton::Transition;
use crate::shape::Shape;
use crate::state_lengths::StateLengths;
use crate::table::AtomTable;
use cq_common::{NoMemory, Steps};
use std::alloc::{AllocError, Global};
use std::sync::ledger::Ledger;

// Adds a node's lengths to the row of the node above.
fn merge_into_parent<R: StateLengths>(
    shape: &Shape,
    node: usize,
    rows: &mut [R],
    own: &R,
    count: usize,
)
    requires count { count ≤ 64 }
    requires past { (j : ℕ) → count ≤ j → R.cells own.now j ≡ 0 }
    requires node { node < length shape.now.tree_nodes.items }
    requires rows { length rows.old ≡ length shape.now.tree_nodes.items }
    ensures { IsParentUpdate (both_kinds R.sets) shape.now.primary shape.now.tree_nodes.items node
        (map R.cells rows.old) (map R.cells rows.new) (R.cells own.now) }
{
    let Some(above) = shape.joined_to(node) else {
        return;
    };
    rows[above as usize].merge(own, count);
}

// Rows without lengths.
fn blank_rows<R: StateLengths>(alloc: Global, nodes: usize) -> Result<Vec<R>, AllocError>
    ensures count { IfOk result (λ rows. length rows.items ≡ nodes) }
    ensures blank { IfOk result (λ rows. (n j : ℕ) → cell (map R.cells rows.items) n j ≡ 0) }
{
    let mut rows = Vec::with_capacity(alloc, nodes)?;
    for _turn in 0..nodes {
        rows.push(R::blank())?;
    }
    Ok(rows)
}

fn blank_values(alloc: Global, nodes: usize) -> Result<Vec<Option<u32>>, AllocError>
    ensures { IfOk result (λ values. values.items ≡ replicate nodes None) }
{
    vec![in alloc; None; nodes]
}

// The row of the node above, or a row without lengths if there is no such node.
fn row_above<R: StateLengths>(shape: &Shape, node: usize, rows: &[R]) -> R
    requires node { node < length shape.now.tree_nodes.items }
    requires rows { length rows.now ≡ length shape.now.tree_nodes.items }
    ensures { IsAbove (joined shape.now.primary shape.now.tree_nodes.items node) (map R.cells rows.now) (R.cells result) }
{
    match shape.joined_to(node) {
        Some(above) => rows[above as usize],
        None => R::blank(),
    }
}

// The row of the nodes after a node on the paths: upwards that of the node above, downwards the node's own.
fn next_row<R: StateLengths>(shape: &Shape, node: usize, rows: &[R]) -> R
    requires node { node < length shape.now.tree_nodes.items }
    requires rows { length rows.now ≡ length shape.now.tree_nodes.items }
    ensures { IsNextRow shape.now.back shape.now.primary shape.now.tree_nodes.items node (map R.cells rows.now) (R.cells result) }
{
    if shape.back {
        row_above(shape, node, rows)
    } else {
        rows[node]
    }
}

// Keeps a node's lengths: upwards in its own row, downwards in that of the node above.
fn keep_lengths<R: StateLengths>(shape: &Shape, node: usize, rows: &mut [R], own: &R, count: usize)
    requires count { count ≤ 64 }
    requires past { (j : ℕ) → count ≤ j → R.cells own.now j ≡ 0 }
    requires node { node < length shape.now.tree_nodes.items }
    requires rows { length rows.old ≡ length shape.now.tree_nodes.items }
    ensures { IsUpdate shape.now.back (both_kinds R.sets) shape.now.primary shape.now.tree_nodes.items node
        (map R.cells rows.old) (map R.cells rows.new) (R.cells own.now) }
{
    if shape.back {
        rows[node] = *own;
    } else {
        merge_into_parent(shape, node, rows, own, count);
    }
}

// Returns the greatest allowed length at one node, and keeps the node's lengths.
fn visit<L: Ledger, R: StateLengths>(
    rules: &[Transition],
    first: u64,
    table: &AtomTable<L>,
    shape: &Shape,
    node: usize,
    rows: &mut [R],
    steps: &mut Steps<L>,
) -> Option<u32>
    requires counts { Counts R.sets shape.now.extent }
    requires fit { SizesFit rules.now table.now shape.now }
    requires node { node < length shape.now.tree_nodes.items }
    requires stands { PassInvariant shape.now.back (Represents R.sets) table.now.words.items rules.now shape.now.primary
        shape.now.tree_nodes.items (turns_before shape.now.back (length shape.now.tree_nodes.items) node) (map R.cells rows.old) }
    ensures stands { PassInvariant shape.now.back (Represents R.sets) table.now.words.items rules.now shape.now.primary
        shape.now.tree_nodes.items (turns_before shape.now.back (length shape.now.tree_nodes.items) node + 1) (map R.cells rows.new) }
    ensures value { GreatestWhere (is_searched shape.now.tree_nodes.items node)
        (AllowedLength shape.now.extent
        (AcceptedLength (holds table.now.words.items) rules.now (Edge shape.now.back shape.now.primary shape.now.tree_nodes.items) first node))
        result }
    ensures cost { steps.new ≤ steps.old + table.now.atoms }
    ensures unsearched { is_searched shape.now.tree_nodes.items node ≡ false → steps.new ≡ steps.old }
    ensures searched { is_searched shape.now.tree_nodes.items node ≡ true → steps.new ≡ steps.old + table.now.atoms }
{
    if !shape.searched(node) {
        return None;
    }
    let held = table.held(node, steps);
    let next = next_row(shape, node, rows);
    let own = next.own(rules, held);
    keep_lengths(shape, node, rows, &own, rules.len());
    own.greatest_allowed(first, rules.len(), shape.extent)
}

// The node that a pass visits after a number of others.
fn node_at_turn(shape: &Shape, turn: usize) -> usize
    requires { turn < length shape.now.tree_nodes.items }
    ensures { result ≡ visited_node shape.now.back (length shape.now.tree_nodes.items) turn }
{
    if shape.back {
        turn
    } else {
        shape.len() - 1 - turn
    }
}

/// Returns for each node the greatest allowed length of a way that is read.
///
/// # Errors
///
/// `NoMemory` if out of memory.
pub fn longest<L: Ledger, R: StateLengths>(
    alloc: Global,
    rules: &[Transition],
    first: u64,
    table: &AtomTable<L>,
    shape: &Shape,
    steps: &mut Steps<L>,
) -> Result<Vec<Option<u32>>, NoMemory>
    requires counts { Counts R.sets shape.now.extent }
    requires fit { SizesFit rules.now table.now shape.now }
    ensures count { IfOk result (λ values. length values.items ≡ length shape.now.tree_nodes.items) }
    ensures values { IfOk result (λ values. (n : ℕ) → n < length shape.now.tree_nodes.items →
        GreatestWhere (is_searched shape.now.tree_nodes.items n)
        (AllowedLength shape.now.extent
        (AcceptedLength (holds table.now.words.items) rules.now (Edge shape.now.back shape.now.primary shape.now.tree_nodes.items) first n))
        (get_or values.items n None)) }
    ensures cost { steps.new ≤ steps.old + table.now.atoms * searched_count shape.now.tree_nodes.items }
    ensures exact { OnOk result (steps.new ≡ steps.old + table.now.atoms * searched_count shape.now.tree_nodes.items) }
    ensures kept { OnErr result (steps.new ≡ steps.old) }
{
    let nodes = shape.len();
    let mut rows = blank_rows::<R>(alloc, nodes)?;
    let mut values = blank_values(alloc, nodes)?;
    let grid = rows.as_mut_slice();
    for turn in 0..nodes {
        let node = node_at_turn(shape, turn);
        values[node] = visit(rules, first, table, shape, node, grid, steps);
    }
    Ok(values)
}
