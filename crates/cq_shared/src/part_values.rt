//! The values of a part at the live nodes.
ghost use Rattle.std.specs.Prelude.{◌≡◌, ℕ, ◌+◌, ◌<◌, ◌≤◌, [], length, get_or, false, None, IfOk, if◌then◌else◌};
ghost use Rattle.cql_columns.specs.Columns.{IsNodeSet};
ghost use Rattle.cql_eval.specs.Hits.{hits_of, keys_of, AreKeysAtHits};
ghost use Rattle.cql_syntax.specs.TreeOf.{filters_tree};
ghost use Rattle.cq_shared.specs.Matching.{tree_for, sort_class, part_cost, cost_at, ArePartTruths, IsRowAt};
ghost use Rattle.cq_shared.specs.Singles.{shown};

use crate::nodes::PartValues;
use crate::part::Part;
use cq_common::{NoMemory, Steps};
use cql_candidates::order::SORT_CLASS;
use cql_columns::nodes::any_live;
use cql_eval::{Column, hit_columns_at};
use pgn_tree::Game;
use std::alloc::Global;
use std::sync::ledger::Ledger;

/// The values of a part at the live nodes. If there are none, it isn't evaluated.
pub(crate) fn values_at<L: Ledger>(
    alloc: Global,
    part: &Part,
    game: &Game,
    live: &[bool],
    steps: &mut Steps<L>,
) -> Result<PartValues, NoMemory>
    requires asked { IsNodeSet (tree_for game.now part.now) live.now }
    ensures told { IfOk result (λ a. ArePartTruths game.now part.now live.now a.truths.items) }
    ensures row { IfOk result (λ a. part.now.class ≡ sort_class → IsRowAt game.now part.now live.now a.numbers.items) }
    ensures cost { steps.new ≤ steps.old + cost_at live.now (part_cost game.now (shown part.now.single)) }
{
    if !any_live(live) {
        return Ok(PartValues {
            truths: Vec::new(alloc),
            numbers: Vec::new(alloc),
        });
    }
    if part.class != SORT_CLASS {
        return joined_values_at(alloc, part, game, live, steps);
    }
    sort_values_at(alloc, part, game, live, steps)
}

// The truths of a part, by the form in which it is evaluated.
fn joined_values_at<L: Ledger>(
    alloc: Global,
    part: &Part,
    game: &Game,
    live: &[bool],
    steps: &mut Steps<L>,
) -> Result<PartValues, NoMemory>
    requires asked { IsNodeSet (tree_for game.now part.now) live.now }
    ensures told { IfOk result (λ a. ArePartTruths game.now part.now live.now a.truths.items) }
    ensures cost { steps.new ≤ steps.old + part_cost game.now (shown part.now.single) }
{
    let column = hit_columns_at(alloc, &part.single.joined, game, live, steps)?;
    let truths = column.into_hits();
    Ok(PartValues {
        truths,
        numbers: Vec::new(alloc),
    })
}

// The values of a sort item.
fn sort_values_at<L: Ledger>(
    alloc: Global,
    part: &Part,
    game: &Game,
    live: &[bool],
    steps: &mut Steps<L>,
) -> Result<PartValues, NoMemory>
    requires asked { IsNodeSet (tree_for game.now part.now) live.now }
    ensures told { IfOk result (λ a. ArePartTruths game.now part.now live.now a.truths.items) }
    ensures row { IfOk result (λ a. part.now.class ≡ sort_class → IsRowAt game.now part.now live.now a.numbers.items) }
    ensures cost { steps.new ≤ steps.old + part_cost game.now (shown part.now.single) }
{
    let column = hit_columns_at(alloc, &part.single.query, game, live, steps)?;
    let numbers = numbers_of(alloc, part, &column, game)?;
    let truths = column.into_hits();
    Ok(PartValues { truths, numbers })
}

// The numbers of a sort item, by its column; another part has none.
fn numbers_of(
    alloc: Global,
    part: &Part,
    column: &Column,
    game: &Game,
) -> Result<Vec<Option<i64>>, NoMemory>
    requires hits { length (hits_of column.now) ≡ length game.now.nodes }
    requires keys { AreKeysAtHits (tree_for game.now part.now) (filters_tree part.now.single.query.items) (hits_of column.now)
        (keys_of column.now) }
    ensures { IfOk result (λ row. part.now.class ≡ sort_class → (n : ℕ) → get_or row.items n None
        ≡ (if get_or (hits_of column.now) n false then get_or (get_or (keys_of column.now) 0 []) n None else None)) }
{
    if part.class != SORT_CLASS {
        return Ok(Vec::new(alloc));
    }
    let numbers = row(alloc, column, game)?;
    Ok(numbers)
}

// The numbers of the first sort item of a column, node by node.
fn row(alloc: Global, column: &Column, game: &Game) -> Result<Vec<Option<i64>>, NoMemory>
    requires hits { length (hits_of column.now) ≡ length game.now.nodes }
    requires some { 0 < length (keys_of column.now) }
    requires numbers { length (get_or (keys_of column.now) 0 []) ≡ length game.now.nodes }
    ensures { IfOk result (λ row. (n : ℕ) → get_or row.items n None
        ≡ (if get_or (hits_of column.now) n false then get_or (get_or (keys_of column.now) 0 []) n None else None)) }
{
    let mut row = Vec::with_capacity(alloc, game.len() as usize)?;
    for k in 0..game.len() {
        row.push(number_if(column, k))?;
    }
    Ok(row)
}

fn number_if(column: &Column, k: u32) -> Option<i64>
    requires hits { k < length (hits_of column.now) }
    requires some { 0 < length (keys_of column.now) }
    requires numbers { k < length (get_or (keys_of column.now) 0 []) }
    ensures { result ≡ (if get_or (hits_of column.now) k false then get_or (get_or (keys_of column.now) 0 []) k None else None) }
{
    if column.hit(k) {
        column.key(0, k)
    } else {
        None
    }
}
