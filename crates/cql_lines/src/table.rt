//! Tables of the atoms that hold at each node.
ghost use Rattle.std.specs.Prelude.{◌≤◌, length};
ghost use Rattle.cql_lines.specs.Limits.{most_nodes};

use cq_common::Shared;
use std::marker::PhantomData;
use std::sync::ledger::Ledger;

mod looks;

/// The atoms that hold at each node: a word for each node, with a bit for each atom. The words are private to this module. It reads a bit
/// only if it counts a step, by a counter of the table's own ledger.
#[derive(Drop)]
pub struct AtomTable<L: Ledger> {
    atoms: u32,
    words: Vec<u64>,
    counted_by: PhantomData<L>,
    ghost few: { atoms ≤ 64 },
    ghost nodes: { length words.items ≤ most_nodes },
}

impl<L: Ledger + Send + Sync> Shared for AtomTable<L> {}
