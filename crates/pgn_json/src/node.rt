//! A node of a game.
ghost use Rattle.std.specs.Prelude.{◌≡◌, ◌<◌, ◌++◌, length, codes, decimal, OnOk};
ghost use Rattle.std.specs.List.{flat_map};
ghost use Rattle.cq_position.specs.FenText.{fen_of};
ghost use Rattle.cq_position.specs.Games.{node_at};
ghost use Rattle.cq_position.specs.Legal.{Leads};
ghost use Rattle.cq_position.specs.Search as search_of;
ghost use Rattle.cq_san.specs.Writing.{san_text};
ghost use Rattle.pgn_json.specs.Json as json;
ghost use Rattle.pgn_json.specs.Moves as moves;
ghost use Rattle.pgn_json.specs.Values.{member, next, plain};

use crate::notes::{is_marked, push_notes, push_number};
use cq_common::{Bytes, NoMemory};
use cq_geometry::{Square, file, rank};
use cq_position::{Move, Position, Promotion, fen_text};
use cq_san::san_text_to;
use pgn_tree::Game;
use std::alloc::Global;

/// Adds a node that is not the start, given its ply.
#[tactic(auto, unfolding(crate::specs::Json::node_text))]
pub(crate) fn push_node(
    line: &mut Bytes,
    alloc: Global,
    game: &Game,
    k: u32,
    ply: u32,
    mark: &[u8],
) -> Result<(), NoMemory>
    requires start { 0 < k }
    requires node { k < length game.now.nodes }
    requires ply { ply ≡ search_of.ply game.now.nodes k }
    ensures { OnOk result (line.new ≡ line.old ++ json.node_text mark.now game.now.nodes k) }
{
    let (parent, m) = step_to(game, k);
    push_place(line, parent, ply)?;
    push_move(line, game.position(parent), m, game.position(k))?;
    push_notes(line, game, k)?;
    push_fen(line, alloc, game, k, mark)?;
    line.push_all(b"}")?;
    Ok(())
}

// Returns the number of a node's parent, and the move that led from there.
fn step_to(game: &Game, k: u32) -> (u32, Move)
    requires start { 0 < k }
    requires node { k < length game.now.nodes }
    ensures parent { result.0 ≡ json.parent_of (node_at game.now.nodes k) }
    ensures led { result.1 ≡ json.move_of (node_at game.now.nodes k) }
    ensures low { result.0 < length game.now.nodes }
    ensures leads { Leads (node_at game.now.nodes result.0).position result.1 (node_at game.now.nodes k).position }
{
    prove!(game.is_tree());
    (parent_of(game, k), move_of(game, k))
}

fn parent_of(game: &Game, k: u32) -> u32
    requires { k < length game.now.nodes }
    ensures { result ≡ json.parent_of (node_at game.now.nodes k) }
{
    game.parent(k).unwrap_or(0)
}

fn move_of(game: &Game, k: u32) -> Move
    requires { k < length game.now.nodes }
    ensures { result ≡ json.move_of (node_at game.now.nodes k) }
{
    game.move_to(k).unwrap_or_default()
}

// Begins an object with the number of a node's parent and its ply.
fn push_place(line: &mut Bytes, parent: u32, ply: u32) -> Result<(), NoMemory>
    ensures { OnOk result (line.new ≡ line.old
        ++ (codes "{" ++ (member (codes "parent") (decimal parent) ++ next (member (codes "ply") (decimal ply))))) }
{
    push_number(line, b"{\"parent\":", u64::from(parent))?;
    push_number(line, b",\"ply\":", u64::from(ply))
}

// Adds a move that leads from a position to another, in UCI and in Standard Algebraic Notation.
fn push_move(
    line: &mut Bytes,
    position: &Position,
    m: Move,
    after: &Position,
) -> Result<(), NoMemory>
    requires { Leads position.now m after.now }
    ensures { OnOk result (line.new ≡ line.old
        ++ (next (member (codes "uci") (plain (moves.uci_text m))) ++ next (member (codes "san") (plain (san_text position.now m))))) }
{
    push_uci(line, &m)?;
    let san = san_text_to(position, m, after);
    push_plain(line, b",\"san\":\"", san.as_bytes())
}

// Adds a move in UCI.
fn push_uci(line: &mut Bytes, m: &Move) -> Result<(), NoMemory>
    ensures { OnOk result (line.new ≡ line.old ++ next (member (codes "uci") (plain (moves.uci_text m.now)))) }
{
    line.push_all(b",\"uci\":\"")?;
    push_squares(line, m)?;
    line.push_all(b"\"")
}

// Adds the squares of a move and the letter of its promotion; four zeros for a null move.
fn push_squares(line: &mut Bytes, m: &Move) -> Result<(), NoMemory>
    ensures { OnOk result (line.new ≡ line.old ++ moves.uci_text m.now) }
{
    if m.null {
        return line.push_all(b"0000");
    }
    push_square(line, m.from)?;
    push_square(line, m.to)?;
    line.push_all(promotion_letter(m.promotion))
}

fn push_square(line: &mut Bytes, square: Square) -> Result<(), NoMemory>
    ensures { OnOk result (line.new ≡ line.old ++ moves.square_text square) }
{
    line.push_all(&[b'a' + file(square), b'1' + rank(square)])
}

// Returns the letter of a promotion.
fn promotion_letter(promotion: Promotion) -> &'static [u8]
    ensures { result.now ≡ moves.promotion_letter promotion }
{
    match promotion {
        Promotion::None => b"",
        Promotion::Q => b"q",
        Promotion::R => b"r",
        Promotion::B => b"b",
        Promotion::N => b"n",
    }
}

// Adds the position of a node, if it is marked.
fn push_fen(
    line: &mut Bytes,
    alloc: Global,
    game: &Game,
    k: u32,
    mark: &[u8],
) -> Result<(), NoMemory>
    requires { k < length game.now.nodes }
    ensures { OnOk result (line.new ≡ line.old ++ flat_map next (json.fen_members mark.now (node_at game.now.nodes k))) }
{
    if !is_marked(game, k, mark) {
        return Ok(());
    }
    push_position(line, alloc, b",\"fen\":\"", game.position(k))
}

/// Adds a text that ends with a quote, the text of a position, and a quote.
pub(crate) fn push_position(
    line: &mut Bytes,
    alloc: Global,
    before: &[u8],
    position: &Position,
) -> Result<(), NoMemory>
    ensures { OnOk result (line.new ≡ line.old ++ (before.now ++ (fen_of position.now ++ codes "\""))) }
{
    let fen = fen_text(alloc, position)?;
    push_plain(line, before, fen.as_slice())
}

/// Adds a text that ends with a quote, a text that needs no escape, and a quote.
pub(crate) fn push_plain(line: &mut Bytes, before: &[u8], text: &[u8]) -> Result<(), NoMemory>
    ensures { OnOk result (line.new ≡ line.old ++ (before.now ++ (text.now ++ codes "\""))) }
{
    line.push_all(before)?;
    line.push_all(text)?;
    line.push_all(b"\"")
}
