//! The pattern of a line, its tree, and the table of its atoms.
ghost use Rattle.std.specs.Prelude.{◌≡◌, ℕ, ◌+◌, ◌<◌, ◌≤◌, length, map, false, pos, option_map, None, IfOk, OnOk};
ghost use Rattle.std.specs.List.{range_with_len};
ghost use Rattle.cq_position.specs.Games.{IsTree, numbers};
ghost use Rattle.cql_lines.specs.PatternTrees.{pattern_tree};
ghost use Rattle.cql_lines.specs.Tables.{atoms_of, nodes_of, holds_in};
ghost use Rattle.cql_lines.specs.Trees.{tree_nodes_of, goes_back, is_primary, limits_of};
ghost use Rattle.cql_syntax.specs.Meaning as meaning;
ghost use Rattle.cql_syntax.specs.TreeOf.{body_tree, parts_tree};
ghost use Rattle.cql_columns.specs.Columns.{is_live};
ghost use Rattle.cql_columns.specs.Costs as costs;
ghost use Rattle.cql_columns.specs.Scopes.{tree_in};
ghost use Rattle.cql_operators.specs.LineAtoms as spec;
ghost use Rattle.cql_operators.specs.LineAtoms.{HasRoom, IsPut, IsFilledIn, limits_in, spot_at};

use cq_common::NoMemory;
use cql_columns::scope::Scope;
use cql_lines::{AtomTable, Pattern, Patterns, Shape};
use cql_syntax::{Body, Constituents, Extent, Mark};
use cql_values::walks::{is_first_child, is_searched};
use pgn_tree::Game;
use std::alloc::Global;
use std::sync::ledger::Ledger;

/// Returns the pattern of parts in a row. Its atoms get the numbers from `next` on, and `next` is moved past them.
///
/// # Errors
///
/// `NoMemory` if out of memory.
#[cycle(pattern)]
#[tactic(auto, using(crate::proofs::LineAtoms::next_few))]
pub fn parts_pattern(
    alloc: Global,
    parts: &Constituents,
    next: &mut u32,
) -> Result<Pattern, NoMemory>
    requires { next.old + costs.parts_atoms (parts_tree parts.now) ≤ 64 }
    ensures pattern { IfOk result (λ pattern. pattern_tree pattern ≡ spec.parts_numbered next.old (parts_tree parts.now)) }
    ensures next { OnOk result (next.new ≡ next.old + costs.parts_atoms (parts_tree parts.now)) }
{
    let mut patterns = Patterns::new(alloc);
    for part in parts.as_slice() {
        let body = body_pattern(alloc, &part.body, next)?;
        let pattern = marked(alloc, part.mark, body)?;
        patterns.push(pattern)?;
    }
    Ok(Pattern::Sequence(patterns))
}

#[cycle(pattern)]
fn body_pattern(alloc: Global, body: &Body, next: &mut u32) -> Result<Pattern, NoMemory>
    requires { next.old + costs.body_atoms (body_tree body.now) ≤ 64 }
    ensures pattern { IfOk result (λ pattern. pattern_tree pattern ≡ spec.body_numbered next.old (body_tree body.now)) }
    ensures next { OnOk result (next.new ≡ next.old + costs.body_atoms (body_tree body.now)) }
{
    match body {
        Body::Atom(_) => {
            let atom = *next;
            *next += 1;
            Ok(Pattern::Atom(atom))
        }
        Body::Group(parts) => parts_pattern(alloc, parts, next),
    }
}

fn marked(alloc: Global, mark: Mark, pattern: Pattern) -> Result<Pattern, NoMemory>
    ensures { IfOk result (λ marked. pattern_tree marked ≡ meaning.marked mark (pattern_tree pattern)) }
{
    match mark {
        Mark::Once => Ok(pattern),
        Mark::Star => Ok(Pattern::Star(Box::new(alloc, pattern)?)),
        Mark::Plus => Ok(Pattern::Plus(Box::new(alloc, pattern)?)),
        Mark::Maybe => Ok(Pattern::Maybe(Box::new(alloc, pattern)?)),
        Mark::Times(least, most) => Ok(Pattern::Times(least, most, Box::new(alloc, pattern)?)),
    }
}

/// Returns the tree of a game for the paths of a line.
///
/// # Errors
///
/// `NoMemory` if out of memory.
pub fn shape_of(
    alloc: Global,
    scope: &Scope,
    back: bool,
    primary: bool,
    extent: &Extent,
) -> Result<Shape, NoMemory>
    requires tree { IsTree scope.now.game.now.nodes }
    ensures spots { IfOk result (λ shape. tree_nodes_of shape
        ≡ map (spot_at (tree_in scope.now)) (numbers scope.now.game.now.nodes)) }
    ensures way { IfOk result (λ shape.
        (goes_back shape ≡ back) × (is_primary shape ≡ primary) × (limits_of shape ≡ limits_in extent.now)) }
{
    let mut shape = Shape::new(alloc, back, primary);
    limit(&mut shape, extent);
    for k in 0..scope.game.len() {
        push_node(&mut shape, scope, k)?;
    }
    Ok(shape)
}

// Restricts the paths that count to the lengths that an extent allows.
fn limit(shape: &mut Shape, extent: &Extent)
    requires { limits_of shape.old ≡ None }
    ensures extent { limits_of shape.new ≡ limits_in extent.now }
    ensures tree { (tree_nodes_of shape.new ≡ tree_nodes_of shape.old) × (goes_back shape.new ≡ goes_back shape.old)
        × (is_primary shape.new ≡ is_primary shape.old) }
{
    match extent {
        Extent::Any => {}
        Extent::Within(least, most) => shape.limit(least.nodes(), most.nodes()),
    }
}

// Adds node `k` to the nodes before it.
fn push_node(shape: &mut Shape, scope: &Scope, k: u32) -> Result<(), NoMemory>
    requires tree { IsTree scope.now.game.now.nodes }
    requires node { k < length scope.now.game.now.nodes }
    requires before { tree_nodes_of shape.old ≡ map (spot_at (tree_in scope.now)) (range_with_len 0 k) }
    ensures more { OnOk result (tree_nodes_of shape.new ≡ map (spot_at (tree_in scope.now)) (range_with_len 0 (k + 1))) }
    ensures way { (goes_back shape.new ≡ goes_back shape.old) × (is_primary shape.new ≡ is_primary shape.old)
        × (limits_of shape.new ≡ limits_of shape.old) }
{
    let searched = is_searched(scope.game, scope.variations, k);
    let first = is_first_child(scope.game, k);
    shape.push(scope.game.parent(k), searched, first)?;
    Ok(())
}

/// Returns a table for the atoms of parts in a row at the nodes of a game. No atom holds at any node.
///
/// # Errors
///
/// `NoMemory` if out of memory.
pub fn empty_table<L: Ledger>(
    alloc: Global,
    parts: &Constituents,
    game: &Game,
) -> Result<AtomTable<L>, NoMemory>
    requires tree { IsTree game.now.nodes }
    requires few { costs.parts_atoms (parts_tree parts.now) ≤ 64 }
    ensures atoms { IfOk result (λ table. atoms_of table ≡ costs.parts_atoms (parts_tree parts.now)) }
    ensures room { IfOk result (λ table. HasRoom (length game.now.nodes) 0 (0 + costs.parts_atoms (parts_tree parts.now)) table) }
{
    let mut atoms = 0;
    // The pattern numbers the atoms, and so counts them.
    let pattern = parts_pattern(alloc, parts, &mut atoms)?;
    drop(pattern);
    let table = AtomTable::new(alloc, atoms, game.len())?;
    Ok(table)
}

/// Sets an atom to hold at the nodes of a set.
pub fn put_nodes<L: Ledger>(table: &mut AtomTable<L>, atom: u32, game: &Game, set: &[bool])
    requires atom { atom < atoms_of table.old }
    requires nodes { nodes_of table.old ≡ length game.now.nodes }
    requires set { length set.now ≡ length game.now.nodes }
    requires clear { (n : ℕ) → holds_in table.old atom n ≡ false }
    ensures put { (n : ℕ) → n < length game.now.nodes → holds_in table.new atom n ≡ is_live set.now n }
    ensures others { IsFilledIn table.old table.new atom (atom + 1) }
{
    for n in 0..game.len() {
        put_if(table, atom, n, set[n as usize]);
    }
}

fn put_if<L: Ledger>(table: &mut AtomTable<L>, atom: u32, node: u32, there: bool)
    requires atom { atom < atoms_of table.old }
    requires node { node < nodes_of table.old }
    ensures { IsPut atom node there table.old table.new }
{
    if there {
        table.put(atom, node);
    }
}

/// Returns the same numbers as `i64`.
///
/// # Errors
///
/// `NoMemory` if out of memory.
pub fn wide_numbers(alloc: Global, numbers: &[Option<u32>]) -> Result<Vec<Option<i64>>, NoMemory>
    ensures { IfOk result (λ wide. wide.items ≡ map (option_map pos) numbers.now) }
{
    let mut wide = Vec::new(alloc);
    for number in numbers {
        wide.push(wide_number(*number))?;
    }
    Ok(wide)
}

fn wide_number(number: Option<u32>) -> Option<i64>
    ensures { result ≡ option_map pos number }
{
    match number {
        Some(n) => Some(n as i64),
        None => None,
    }
}
