//! The value of a line at each node.
ghost use Rattle.std.specs.Prelude.{◌≡◌, ℕ, ◌+◌, ◌*◌, ◌<◌, ◌≤◌, get_or, length, None, IfOk, OnErr, OnOk};
ghost use Rattle.cq_common.specs.Spelling.{Pattern as SpelledPattern};
ghost use Rattle.cql_lines.specs.Automata.{IsAutomatonOf, UsesBelow};
ghost use Rattle.cql_lines.specs.Shapes.{searched_count};
ghost use Rattle.cql_lines.specs.Tables.{atoms_of, nodes_of};
ghost use Rattle.cql_lines.specs.Trees.{tree_nodes_of};
ghost use Rattle.cql_lines.specs.Values.{IsValueAt};

use crate::automaton::Automaton;
use crate::shape::Shape;
use crate::table::AtomTable;
use crate::visits::longest;
use cq_common::{NoMemory, Steps};
use std::alloc::Global;
use std::sync::ledger::Ledger;

/// Returns for each node the greatest length, in nodes, of a path from it that the pattern spells and the limits allow. The value is `None`
/// if there is no such path, or if the node is not searched.
///
/// Each look at the table is a step. A call that succeeds takes one step for each atom and searched node, and none takes more.
///
/// # Errors
///
/// `NoMemory` if out of memory.
pub fn line_values<L: Ledger>(
    alloc: Global,
    automaton: &Automaton,
    table: &AtomTable<L>,
    shape: &Shape,
    steps: &mut Steps<L>,
) -> Result<Vec<Option<u32>>, NoMemory>
    requires atoms { UsesBelow automaton.now (atoms_of table.now) }
    requires nodes { nodes_of table.now ≡ length (tree_nodes_of shape.now) }
    ensures count { IfOk result (λ values. length values.items ≡ length (tree_nodes_of shape.now)) }
    ensures values { IfOk result (λ values. (p : SpelledPattern ℕ) → IsAutomatonOf automaton.now p
        → (n : ℕ) → n < length (tree_nodes_of shape.now) → IsValueAt table.now shape.now p n (get_or values.items n None)) }
    ensures cost { steps.new ≤ steps.old + atoms_of table.now * searched_count (tree_nodes_of shape.now) }
    ensures exact { OnOk result (steps.new ≡ steps.old + atoms_of table.now * searched_count (tree_nodes_of shape.now)) }
    ensures kept { OnErr result (steps.new ≡ steps.old) }
{
    let rules = automaton.rules.as_slice();
    let first = automaton.first;
    match shape.extent {
        Some(_) => longest::<L, [u128; 64]>(alloc, rules, first, table, shape, steps),
        None => longest::<L, [u32; 64]>(alloc, rules, first, table, shape, steps),
    }
}
