//! Sets of nodes: a truth for each node of a game.
ghost use Rattle.std.specs.Prelude.{◌≡◌, IfOk};
ghost use Rattle.std.specs.List.{list_any};

use cq_common::NoMemory;
use std::alloc::Global;

/// Returns true if a set has some node.
pub fn any_live(live: &[bool]) -> bool
    ensures { result ≡ list_any (λ b. b) live.now }
{
    live.iter().any(|there| *there)
}

/// Returns a copy of a set.
///
/// # Errors
///
/// `NoMemory` if out of memory.
pub fn same(alloc: Global, live: &[bool]) -> Result<Vec<bool>, NoMemory>
    ensures { IfOk result (λ copy. copy.items ≡ live.now) }
{
    let mut copied = Vec::new(alloc);
    copied.extend_from_slice(live)?;
    Ok(copied)
}
