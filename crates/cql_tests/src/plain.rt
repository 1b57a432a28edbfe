//! The column of a query with the values of its sort item at each node, beside the plain evaluator: calls that no program makes.
ghost use Rattle.std.specs.Prelude.{◌≡◌, ◌<◌, length, IfOk};
ghost use Rattle.cql_eval.specs.Hits.{hits_of};

use crate::plans::flat_query;
use cq_common::{NoMemory, Steps};
use cql_eval::{Column, columns};
use cql_plain::{holds_at, number_at, set_at};
use cql_syntax::{Filter, FlatQuery, Form};
use cql_values::Names;
use pgn_reader::read_game;
use pgn_tree::Game;
use std::alloc::Global;
use std::marker::Brand;
use std::sync::ledger::{Blank, Ledger};
use std::test::Fail;

const GAME: &[u8] = b"1. e4 (1. d4 d5 2. e4 dxe4) 1... d5 2. exd5 Qxd5 *";

/// Queries of a set and a sort item.
static QUERIES: [&[u8]; 4] = [
    b"cql(variations) Pe4 sort \"p\" ply",
    b"cql(variations) P attackedby p sort min \"q\" power A - depth",
    b"cql(variations) flipcolor (Pd4 attackedby q) sort \"r\" #(A | a)",
    b"cql(variations) up 1 2 Pd4 & _ sort \"s\" movenumber",
];

fn counted<L: Ledger>(
    alloc: Global,
    query: &FlatQuery,
    game: &Game,
    blank: Blank,
) -> Result<Column, NoMemory>
    requires { (blank.name ≡ L.name) × (blank.parts ≡ L.parts) × (0 < blank.parts) }
    ensures { IfOk result (λ column. length (hits_of column) ≡ length game.now.nodes) }
{
    let mut steps = Steps::<L>::new(blank);
    columns(alloc, query, game, &mut steps)
}

fn found(alloc: Global, query: &FlatQuery, game: &Game) -> Result<Column, NoMemory>
    ensures { IfOk result (λ column. length (hits_of column) ≡ length game.now.nodes) }
{
    counted::<Brand>(alloc, query, game, Blank::new(1))
}

// Returns the values of the plain evaluator at a node: true if an item holds, its squares, and the number of another filter.
fn said(
    alloc: Global,
    item: &Filter,
    number: &Filter,
    game: &Game,
    node: u32,
    names: &Names,
) -> Result<(bool, u64, Option<i64>), NoMemory>
    requires { node < length game.now.nodes }
{
    let held = holds_at(alloc, item, game, true, node, &[], names)?;
    let set = set_at(alloc, item, game, true, node, &[], names)?;
    let number = number_at(alloc, number, game, true, node, &[], names)?;
    Ok((held, set, number))
}

// Returns the value of the sort item at a node, if the column has one.
fn key_at(column: &Column, node: u32) -> Option<i64> {
    if column.sorts() == 0 {
        return None;
    }
    if column.row(0).len() <= node as usize {
        return None;
    }
    column.key(0, node)
}

// Returns true if the column has the values of the plain evaluator at a node.
fn is_plain_at(
    alloc: Global,
    item: &Filter,
    number: &Filter,
    game: &Game,
    node: u32,
    column: &Column,
) -> Result<bool, NoMemory>
    requires node { node < length game.now.nodes }
    requires column { length (hits_of column.now) ≡ length game.now.nodes }
{
    let names = Names::new(alloc);
    let (held, set, number) = said(alloc, item, number, game, node, &names)?;
    Ok(column.hit(node) == held && held == (set != 0) && key_at(column, node) == number)
}

// Returns true if it has them at each node.
fn is_plain_everywhere(
    alloc: Global,
    item: &Filter,
    number: &Filter,
    game: &Game,
    column: &Column,
) -> Result<bool, NoMemory>
    requires { length (hits_of column.now) ≡ length game.now.nodes }
{
    for node in 0..game.len() {
        if !is_plain_at(alloc, item, number, game, node, column)? {
            return Ok(false);
        }
    }
    Ok(true)
}

// The same for an item and the number of a sort item.
fn is_plain_sorted(
    alloc: Global,
    item: &Filter,
    sort: &Filter,
    game: &Game,
    column: &Column,
) -> Result<bool, NoMemory>
    requires { length (hits_of column.now) ≡ length game.now.nodes }
{
    match &sort.form {
        Form::Sort(.., number) => is_plain_everywhere(alloc, item, number, game, column),
        _ => Ok(false),
    }
}

// Returns true if the column of a query has the values of the plain evaluator.
fn is_plain(alloc: Global, query: &FlatQuery, game: &Game) -> Result<bool, NoMemory> {
    let column = found(alloc, query, game)?;
    let items = query.items.as_slice();
    if items.len() != 2 {
        return Ok(false);
    }
    is_plain_sorted(alloc, &items[0], &items[1], game, &column)
}

fn is_plain_over_game(alloc: Global, query: &FlatQuery) -> Result<bool, Fail> {
    let game = read_game(alloc, GAME, 0, true)?;
    let plain = is_plain(alloc, query, &game);
    drop(game);
    Ok(plain?)
}

fn is_plain_by_text(alloc: Global, text: &[u8]) -> Result<bool, Fail> {
    let query = flat_query(alloc, text)?;
    is_plain_over_game(alloc, &query)
}

#[test]
fn columns_are_as_the_plain_evaluator(rt: HostRuntime) -> Result<(), Fail> {
    for query in QUERIES.iter() {
        assert!(rt; is_plain_by_text(rt.alloc(), query)?);
    }
    Ok(())
}
