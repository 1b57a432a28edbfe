//! The numbers of a line.
ghost use Rattle.std.specs.Prelude.{◌≡◌, ℕ, ◌+◌, ◌<◌, ◌≤◌, ◌&&◌, ◌||◌, not, [], length, IfOk, OnOk, true, false};
ghost use Rattle.cq_position.specs.Games.{IsTree};
ghost use Rattle.cql_syntax.specs.Meaning as meaning;
ghost use Rattle.cql_syntax.specs.TreeOf.{body_tree, filter_tree, line_tree, parts_tree};
ghost use Rattle.cql_syntax.specs.declared.tree.Line.{out-Line};
ghost use Rattle.cql_columns.specs.Columns.{IsNodeSet, IsColumn, shown};
ghost use Rattle.cql_columns.specs.Costs.{filter_cost, line_cost, parts_cost, body_cost, parts_atoms, body_atoms, searched_len};
ghost use Rattle.cql_columns.specs.FlatTrees.{IsFlat, IsFlatLine, AreFlatParts, IsFlatBody};
ghost use Rattle.cql_lines.specs.Tables.{atoms_of, nodes_of};
ghost use Rattle.cq_common.specs.Spelling.{one};
ghost use Rattle.cql_columns.specs.Scopes.{tree_in, value_in, parts_in, body_in};
ghost use Rattle.cql_operators.specs.LineAtoms as spec;
ghost use Rattle.cql_operators.specs.LineAtoms.{HasRoom, IsFilledIn};
ghost use Rattle.cql_operators.specs.SpelledParts as spelled;
ghost use Rattle.cql_operators.specs.SpelledParts.{AreTabled, IsLive, IsNever, LeadsOn, SpellsNothing};
ghost use Rattle.cql_syntax.specs.LineTables.{IsSearchedNode};
ghost use Rattle.cq_position.specs.Search.{IsStep};

use super::evaluate;
use cq_common::{NoMemory, Steps};
use cql_columns::filter_column::FilterColumn;
use cql_columns::nodes::{any_live, same};
use cql_columns::scope::Scope;
use cql_lines::{AtomTable, Automaton, line_values};
use cql_operators::narrow::part_of;
use cql_operators::nodes::all_nodes;
use cql_operators::patterns::{empty_table, parts_pattern, put_nodes, shape_of, wide_numbers};
use cql_operators::tree::{onward, reached};
use cql_syntax::{Body, Constituent, Constituents, Filter, Line, Mark};
use std::alloc::Global;
use std::sync::ledger::Ledger;

/// The scope of a line and its direction.
#[derive(Clone, Copy)]
struct LineWay<'a> {
    scope: &'a Scope<'a>,
    /// True if the line goes from each node up.
    back: bool,
}

/// Parts in a row, as far as their atoms are evaluated.
#[derive(Drop)]
struct FilledParts<L: Ledger> {
    table: AtomTable<L>,
    /// True if each needed atom holds at some node.
    met: bool,
}

/// The greatest length of a path from each node that a line's pattern spells. Its atoms are evaluated one after the other, each at the
/// nodes at which it may begin. The automaton of the pattern then gives the lengths for all nodes at once. If the row isn't met at the end,
/// no path is spelled.
#[cycle(evaluate)]
#[tactic(auto, using(cql_operators::proofs::SpelledAlike::all_tabled, cql_operators::proofs::SpelledAlike::all_never))]
pub(super) fn line_column<L: Ledger>(
    alloc: Global,
    line: &Line,
    scope: &Scope,
    live: &[bool],
    steps: &mut Steps<L>,
) -> Result<FilterColumn, NoMemory>
    requires tree { IsTree scope.now.game.now.nodes }
    requires asked { IsNodeSet (tree_in scope.now) live.now }
    requires flat { IsFlatLine (line_tree line.now) }
    ensures value { IfOk result (λ c. IsColumn c live.now
        (meaning.line_value (tree_in scope.now) [] scope.now.names.now (line_tree line.now))) }
    ensures cost { steps.new ≤ steps.old + line_cost (searched_len (tree_in scope.now)) (line_tree line.now) }
    ensures rises { steps.old ≤ steps.new }
{
    prove!(has_flat_parts(line));
    let parts = &line.parts;
    let way = LineWay {
        scope: &*scope,
        back: line.back,
    };
    let all = all_nodes(alloc, scope)?;
    let table = empty_table(alloc, parts, scope.game)?;
    let mut row = FilledParts { table, met: true };
    put_row(alloc, parts, 0, &way, &all, &mut row, steps)?;
    drop(all);
    let met = row.met;
    if !met {
        // A column that ends before a node has no number there.
        return Ok(FilterColumn::Numbers(Vec::new(alloc)));
    }
    spelled_column(alloc, line, scope, &row.table, steps)
}

// The numbers of a line whose atoms are in a table. Its own cost and that of its atoms are within the bound for the line.
fn spelled_column<L: Ledger>(
    alloc: Global,
    line: &Line,
    scope: &Scope,
    table: &AtomTable<L>,
    steps: &mut Steps<L>,
) -> Result<FilterColumn, NoMemory>
    requires tree { IsTree scope.now.game.now.nodes }
    requires flat { IsFlatLine (line_tree line.now) }
    requires tabled { AreTabled (tree_in scope.now) (out-Line line.now).back (IsSearchedNode (tree_in scope.now)) table.now
        (0 + parts_atoms (spec.parts_within line.now)) (spec.parts_numbered 0 (spec.parts_within line.now))
        (parts_in scope.now (spec.parts_within line.now)) }
    requires atoms { atoms_of table.now ≡ parts_atoms (spec.parts_within line.now) }
    requires nodes { nodes_of table.now ≡ length scope.now.game.now.nodes }
    ensures value { IfOk result (λ c. (n : ℕ) → IsSearchedNode (tree_in scope.now) n
        → shown c n ≡ meaning.line_value (tree_in scope.now) [] scope.now.names.now (line_tree line.now) n) }
    ensures cost { (before : ℕ) → steps.old ≤ before + parts_cost (searched_len (tree_in scope.now)) (spec.parts_within line.now)
        → steps.new ≤ before + line_cost (searched_len (tree_in scope.now)) (line_tree line.now) }
    ensures rises { steps.old ≤ steps.new }
{
    let mut atoms = 0;
    let pattern = parts_pattern(alloc, &line.parts, &mut atoms)?;
    let automaton = Automaton::build(alloc, &pattern)?;
    drop(pattern);
    let shape = shape_of(alloc, scope, line.back, line.primary, &line.extent)?;
    let values = line_values(alloc, &automaton, table, &shape, steps)?;
    drop(shape);
    drop(automaton);
    let numbers = wide_numbers(alloc, values.as_slice())?;
    Ok(FilterColumn::Numbers(numbers))
}

// Returns true: a flat line has flat parts with few atoms.
#[tactic(auto, using(cql_operators::proofs::LinesLaw::line_parts_flat, cql_operators::proofs::LinesLaw::line_few))]
fn has_flat_parts(line: &Line) -> bool
    requires { IsFlatLine (line_tree line.now) }
    ensures value { result ≡ true }
    ensures flat { AreFlatParts (spec.parts_within line.now) }
    ensures few { parts_atoms (spec.parts_within line.now) ≤ 64 }
{
    true
}

// Puts the atoms of parts in a row into the table, with the numbers from the first on, and returns the number after them. The row begins at
// the nodes of a set. If an atom of the row itself holds nowhere, the row isn't met.
#[cycle(evaluate)]
#[tactic(auto, unfolding(cql_columns::specs::Costs::filter_cost))]
fn put_row<L: Ledger>(
    alloc: Global,
    parts: &Constituents,
    first: u32,
    way: &LineWay,
    live: &[bool],
    row: &mut FilledParts<L>,
    steps: &mut Steps<L>,
) -> Result<u32, NoMemory>
    requires tree { IsTree way.now.scope.now.game.now.nodes }
    requires asked { IsNodeSet (tree_in way.now.scope.now) live.now }
    requires flat { AreFlatParts (parts_tree parts.now) }
    requires room { HasRoom (length way.now.scope.now.game.now.nodes) first (first + parts_atoms (parts_tree parts.now)) row.old.table }
    ensures next { IfOk result (λ next. next ≡ first + parts_atoms (parts_tree parts.now)) }
    ensures value { OnOk result (AreTabled (tree_in way.now.scope.now) way.now.back (IsLive live.now)
        row.new.table (first + parts_atoms (parts_tree parts.now)) (spec.parts_numbered first (parts_tree parts.now))
        (parts_in way.now.scope.now (parts_tree parts.now))) }
    ensures never { OnOk result (row.old.met ≡ true → row.new.met ≡ false
        → IsNever (IsStep (tree_in way.now.scope.now) way.now.back false) (IsLive live.now)
        (parts_in way.now.scope.now (parts_tree parts.now))) }
    ensures others { OnOk result (IsFilledIn row.old.table row.new.table first (first + parts_atoms (parts_tree parts.now))) }
    ensures cost { steps.new ≤ steps.old + parts_cost (searched_len (tree_in way.now.scope.now)) (parts_tree parts.now) }
    ensures rises { steps.old ≤ steps.new }
{
    let mut at = first;
    let mut starts = same(alloc, live)?;
    for part in parts.as_slice() {
        at = put_part(alloc, part, at, way, &mut starts, row, steps)?;
    }
    Ok(at)
}

// Puts the atoms of a part that may begin at the nodes of a set, which becomes the set of nodes at which the next part may begin. The atoms
// of a part with a mark are evaluated at all nodes on paths from its starts.
#[cycle(evaluate)]
fn put_part<L: Ledger>(
    alloc: Global,
    part: &Constituent,
    first: u32,
    way: &LineWay,
    starts: &mut Vec<bool>,
    row: &mut FilledParts<L>,
    steps: &mut Steps<L>,
) -> Result<u32, NoMemory>
    requires tree { IsTree way.now.scope.now.game.now.nodes }
    requires asked { IsNodeSet (tree_in way.now.scope.now) starts.old.items }
    requires flat { IsFlatBody (body_tree part.now.body) }
    requires room { HasRoom (length way.now.scope.now.game.now.nodes) first (first + body_atoms (body_tree part.now.body)) row.old.table }
    ensures next { IfOk result (λ next. next ≡ first + body_atoms (body_tree part.now.body)) }
    ensures leads { OnOk result (LeadsOn (tree_in way.now.scope.now) way.now.back starts.old.items starts.new.items
        row.new.table (first + body_atoms (body_tree part.now.body))
        (meaning.marked part.now.mark (spec.body_numbered first (body_tree part.now.body)))
        (meaning.marked part.now.mark (body_in way.now.scope.now (body_tree part.now.body)))) }
    ensures ends { OnOk result (row.old.met ≡ true → row.new.met ≡ false
        → SpellsNothing (tree_in way.now.scope.now) way.now.back starts.old.items
        (meaning.marked part.now.mark (body_in way.now.scope.now (body_tree part.now.body)))) }
    ensures others { OnOk result (IsFilledIn row.old.table row.new.table first (first + body_atoms (body_tree part.now.body))) }
    ensures cost { steps.new ≤ steps.old + body_cost (searched_len (tree_in way.now.scope.now)) (body_tree part.now.body) }
    ensures rises { steps.old ≤ steps.new }
{
    match part.mark {
        Mark::Once => return put_once(alloc, &part.body, first, way, starts, row, steps),
        _ => {}
    }
    let wide = reached(alloc, way.scope, way.back, starts)?;
    let met = row.met;
    row.met = true;
    let next = put_wherever(alloc, &part.body, first, way, &wide, row, steps)?;
    let needed = is_needed(part.mark);
    *starts = wide;
    row.met = goes_on(met, row.met, needed);
    Ok(next)
}

fn is_needed(mark: Mark) -> bool
    ensures { result ≡ spelled.is_needed mark }
{
    match mark {
        Mark::Once => true,
        Mark::Star => false,
        Mark::Plus => true,
        Mark::Maybe => false,
        Mark::Times(least, _) => least != 0,
    }
}

// Returns true if a row is still met after a part, which is met or not needed.
fn goes_on(met: bool, inner: bool, needed: bool) -> bool
    ensures { result ≡ (met && (inner || not needed)) }
{
    met && (inner || !needed)
}

fn both(met: bool, some: bool) -> bool
    ensures { result ≡ (met && some) }
{
    met && some
}

// Puts the atoms of a part that occurs once.
#[cycle(evaluate)]
#[tactic(auto, unfolding(cql_syntax::specs::Meaning::value, cql_columns::specs::Costs::filter_cost, cql_columns::specs::FlatTrees::unflat))]
fn put_once<L: Ledger>(
    alloc: Global,
    body: &Body,
    first: u32,
    way: &LineWay,
    starts: &mut Vec<bool>,
    row: &mut FilledParts<L>,
    steps: &mut Steps<L>,
) -> Result<u32, NoMemory>
    requires tree { IsTree way.now.scope.now.game.now.nodes }
    requires asked { IsNodeSet (tree_in way.now.scope.now) starts.old.items }
    requires flat { IsFlatBody (body_tree body.now) }
    requires room { HasRoom (length way.now.scope.now.game.now.nodes) first (first + body_atoms (body_tree body.now)) row.old.table }
    ensures next { IfOk result (λ next. next ≡ first + body_atoms (body_tree body.now)) }
    ensures leads { OnOk result (LeadsOn (tree_in way.now.scope.now) way.now.back starts.old.items starts.new.items
        row.new.table (first + body_atoms (body_tree body.now)) (spec.body_numbered first (body_tree body.now))
        (body_in way.now.scope.now (body_tree body.now))) }
    ensures ends { OnOk result (row.old.met ≡ true → row.new.met ≡ false
        → SpellsNothing (tree_in way.now.scope.now) way.now.back starts.old.items (body_in way.now.scope.now (body_tree body.now))) }
    ensures others { OnOk result (IsFilledIn row.old.table row.new.table first (first + body_atoms (body_tree body.now))) }
    ensures cost { steps.new ≤ steps.old + body_cost (searched_len (tree_in way.now.scope.now)) (body_tree body.now) }
    ensures rises { steps.old ≤ steps.new }
{
    match body {
        Body::Atom(filter) => {
            let behind = put_atom_once(alloc, filter, first, way, starts, row, steps)?;
            *starts = behind;
            Ok(first + 1)
        }
        Body::Group(parts) => {
            let next = put_row(alloc, parts, first, way, starts, row, steps)?;
            *starts = reached(alloc, way.scope, way.back, starts)?;
            Ok(next)
        }
    }
}

// Puts an atom that occurs once, and returns the nodes at which the next part may begin. If it holds nowhere, the row isn't met.
#[cycle(evaluate)]
fn put_atom_once<L: Ledger>(
    alloc: Global,
    filter: &Filter,
    first: u32,
    way: &LineWay,
    live: &[bool],
    row: &mut FilledParts<L>,
    steps: &mut Steps<L>,
) -> Result<Vec<bool>, NoMemory>
    requires tree { IsTree way.now.scope.now.game.now.nodes }
    requires asked { IsNodeSet (tree_in way.now.scope.now) live.now }
    requires flat { IsFlat (filter_tree filter.now) }
    requires room { HasRoom (length way.now.scope.now.game.now.nodes) first (first + 1) row.old.table }
    ensures leads { IfOk result (λ behind. LeadsOn (tree_in way.now.scope.now) way.now.back live.now behind.items
        row.new.table (first + 1) (one first) (one (value_in way.now.scope.now (filter_tree filter.now)))) }
    ensures ends { OnOk result (row.old.met ≡ true → row.new.met ≡ false
        → SpellsNothing (tree_in way.now.scope.now) way.now.back live.now (one (value_in way.now.scope.now (filter_tree filter.now)))) }
    ensures others { OnOk result (IsFilledIn row.old.table row.new.table first (first + 1)) }
    ensures cost { steps.new ≤ steps.old + filter_cost (searched_len (tree_in way.now.scope.now)) (filter_tree filter.now) }
    ensures rises { steps.old ≤ steps.new }
{
    if !any_live(live) {
        row.met = false;
        return same(alloc, live);
    }
    let column = evaluate(alloc, filter, way.scope, live, steps)?;
    let held = part_of(alloc, way.scope, live, &column, true)?;
    drop(column);
    put_nodes(&mut row.table, first, way.scope.game, &held);
    if !any_live(&held) {
        row.met = false;
        return Ok(held);
    }
    let behind = onward(alloc, way.scope, way.back, &held)?;
    Ok(behind)
}

// Puts the atoms of a body that may begin at any node of a set, repeatedly.
#[cycle(evaluate)]
#[tactic(auto, unfolding(cql_syntax::specs::Meaning::value, cql_columns::specs::Costs::filter_cost, cql_columns::specs::FlatTrees::unflat))]
fn put_wherever<L: Ledger>(
    alloc: Global,
    body: &Body,
    first: u32,
    way: &LineWay,
    live: &[bool],
    row: &mut FilledParts<L>,
    steps: &mut Steps<L>,
) -> Result<u32, NoMemory>
    requires tree { IsTree way.now.scope.now.game.now.nodes }
    requires asked { IsNodeSet (tree_in way.now.scope.now) live.now }
    requires flat { IsFlatBody (body_tree body.now) }
    requires room { HasRoom (length way.now.scope.now.game.now.nodes) first (first + body_atoms (body_tree body.now)) row.old.table }
    ensures next { IfOk result (λ next. next ≡ first + body_atoms (body_tree body.now)) }
    ensures value { OnOk result (AreTabled (tree_in way.now.scope.now) way.now.back (IsLive live.now)
        row.new.table (first + body_atoms (body_tree body.now)) (spec.body_numbered first (body_tree body.now))
        (body_in way.now.scope.now (body_tree body.now))) }
    ensures never { OnOk result (row.old.met ≡ true → row.new.met ≡ false
        → IsNever (IsStep (tree_in way.now.scope.now) way.now.back false) (IsLive live.now)
        (body_in way.now.scope.now (body_tree body.now))) }
    ensures others { OnOk result (IsFilledIn row.old.table row.new.table first (first + body_atoms (body_tree body.now))) }
    ensures cost { steps.new ≤ steps.old + body_cost (searched_len (tree_in way.now.scope.now)) (body_tree body.now) }
    ensures rises { steps.old ≤ steps.new }
{
    match body {
        Body::Atom(filter) => {
            let column = evaluate(alloc, filter, way.scope, live, steps)?;
            let held = part_of(alloc, way.scope, live, &column, true)?;
            drop(column);
            put_nodes(&mut row.table, first, way.scope.game, &held);
            let some = any_live(&held);
            row.met = both(row.met, some);
            Ok(first + 1)
        }
        Body::Group(parts) => put_row(alloc, parts, first, way, live, row, steps),
    }
}
