//! A game as a line of JSON.
ghost use Rattle.std.specs.Prelude.{◌≡◌, ◌<◌, ◌++◌, ◌∷◌, [], ℕ, List, length, map, drop, codes, decimal, OnOk, IfOk};
ghost use Rattle.std.specs.List.{flat_map};
ghost use Rattle.cq_position.specs.FenText.{fen_of};
ghost use Rattle.cq_position.specs.Games.{node_at, numbers};
ghost use Rattle.pgn_json.specs.Json as json;
ghost use Rattle.pgn_json.specs.Internal.Remaining as left_of;
ghost use Rattle.pgn_json.specs.Strings.{string_text};
ghost use Rattle.pgn_json.specs.Values.{array, member, next, plain, separated};
ghost use Rattle.pgn_tree.specs.Results as markers;

use crate::node::{push_node, push_plain, push_position};
use crate::notes::{comma_after, is_marked, push_notes, push_number};
use crate::plies::plies;
use crate::strings::push_string;
use cq_common::{Bytes, NoMemory};
use pgn_tree::{Game, Tags, result_text};
use std::alloc::Global;

/// Returns a game as a line of JSON (RFC 8259), in UTF-8 and with LF at its end. The line has the number of the game and the place of its
/// first byte in its archive, its tags, its start, its result, and the notes at the start. Its other nodes follow in preorder.
///
/// A node with the comment `mark` has its position. The start, if it has that comment, has a member that says so. If `mark` has no bytes,
/// all nodes are marked. `specs/Json` defines the text. Texts of tags and comments that are UTF-8 stay as they are. Of others each byte is
/// a letter of Latin-1.
///
/// # Errors
///
/// `NoMemory`: out of memory.
pub fn json_line(
    alloc: Global,
    game: &Game,
    number: u64,
    byte: u64,
    mark: &[u8],
) -> Result<Bytes, NoMemory>
    ensures { IfOk result (λ line. line ≡ json.json_text mark.now number byte game.now) }
{
    let mut line = Bytes::new(alloc);
    push_game(&mut line, alloc, game, number, byte, mark)?;
    line.push_all(b"\n")?;
    Ok(line)
}

// Adds a game.
#[tactic(auto, unfolding(crate::specs::Json::game_text))]
fn push_game(
    line: &mut Bytes,
    alloc: Global,
    game: &Game,
    number: u64,
    byte: u64,
    mark: &[u8],
) -> Result<(), NoMemory>
    ensures { OnOk result (line.new ≡ line.old ++ json.game_text mark.now number byte game.now) }
{
    prove!(game.is_tree());
    push_place(line, number, byte)?;
    push_tags(line, game.tags())?;
    push_start(line, alloc, game)?;
    push_notes(line, game, 0)?;
    push_mark(line, game, mark)?;
    push_nodes(line, alloc, game, mark)?;
    line.push_all(b"}")?;
    Ok(())
}

// Begins an object with the number of a game and the place of its first byte.
fn push_place(line: &mut Bytes, number: u64, byte: u64) -> Result<(), NoMemory>
    ensures { OnOk result (line.new ≡ line.old
        ++ (codes "{" ++ (member (codes "game") (decimal number) ++ next (member (codes "byte") (decimal byte))))) }
{
    push_number(line, b"{\"game\":", number)?;
    push_number(line, b",\"byte\":", byte)
}

// Adds the tags.
fn push_tags(line: &mut Bytes, tags: &Tags) -> Result<(), NoMemory>
    ensures { OnOk result (line.new ≡ line.old ++ next (member (codes "tags") (array (map json.tag_text tags.now)))) }
{
    line.push_all(b",\"tags\":[")?;
    push_pairs(line, tags)?;
    line.push_all(b"]")
}

// Adds the names and the values of tags with a comma between two.
fn push_pairs(line: &mut Bytes, tags: &Tags) -> Result<(), NoMemory>
    ensures { OnOk result (line.new ≡ line.old ++ separated (map json.tag_text tags.now)) }
{
    for i in 0..tags.len() {
        push_pair(line, i, tags.name(i), tags.value(i))?;
    }
    Ok(())
}

// Adds a name and a value after so many others.
fn push_pair(line: &mut Bytes, i: usize, name: &[u8], value: &[u8]) -> Result<(), NoMemory>
    ensures { OnOk result (line.new ≡ line.old ++ (left_of.comma_after i ++ json.tag_text (name.now, value.now))) }
{
    line.push_all(comma_after(i))?;
    line.push_all(b"[")?;
    push_string(line, name)?;
    line.push_all(b",")?;
    push_string(line, value)?;
    line.push_all(b"]")
}

// Adds the start and the result.
fn push_start(line: &mut Bytes, alloc: Global, game: &Game) -> Result<(), NoMemory>
    ensures { OnOk result (line.new ≡ line.old ++ (next (member (codes "start") (plain (fen_of (node_at game.now.nodes 0).position)))
        ++ next (member (codes "result") (plain (markers.result_text game.now.result))))) }
{
    prove!(game.is_tree());
    push_position(line, alloc, b",\"start\":\"", game.position(0))?;
    push_plain(line, b",\"result\":\"", result_text(game.result()))
}

// Adds the mark of the start, if it is marked.
fn push_mark(line: &mut Bytes, game: &Game, mark: &[u8]) -> Result<(), NoMemory>
    ensures { OnOk result (line.new ≡ line.old ++ flat_map next (json.mark_members mark.now (node_at game.now.nodes 0))) }
{
    prove!(game.is_tree());
    if !is_marked(game, 0, mark) {
        return Ok(());
    }
    line.push_all(b",\"marked\":true")
}

// Adds the nodes but the start.
fn push_nodes(line: &mut Bytes, alloc: Global, game: &Game, mark: &[u8]) -> Result<(), NoMemory>
    ensures { OnOk result (line.new ≡ line.old
        ++ next (member (codes "nodes") (array (map (json.node_text mark.now game.now.nodes) (drop 1 (numbers game.now.nodes)))))) }
{
    let plies = plies(alloc, game)?;
    line.push_all(b",\"nodes\":[")?;
    push_each(line, alloc, game, &plies, mark)?;
    line.push_all(b"]")
}

// Adds the nodes but the start with a comma between two, given the ply of each.
fn push_each(
    line: &mut Bytes,
    alloc: Global,
    game: &Game,
    plies: &[u32],
    mark: &[u8],
) -> Result<(), NoMemory>
    requires { left_of.ArePlies game.now.nodes (length game.now.nodes) plies.now }
    ensures { OnOk result (line.new ≡ line.old
        ++ separated (map (json.node_text mark.now game.now.nodes) (drop 1 (numbers game.now.nodes)))) }
{
    prove!(game.is_tree());
    for i in 0..game.len() - 1 {
        line.push_all(comma_after(i as usize))?;
        push_node(line, alloc, game, i + 1, plies[i as usize + 1], mark)?;
    }
    Ok(())
}
