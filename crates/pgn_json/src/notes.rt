//! The notes at a node.
ghost use Rattle.std.specs.Prelude.{◌≡◌, ◌<◌, ◌==◌, ◌++◌, length, map, codes, decimal, OnOk};
ghost use Rattle.std.specs.List.{flat_map, list_any};
ghost use Rattle.std.specs.Str.{bytes_eq};
ghost use Rattle.cq_position.specs.Games.{node_at};
ghost use Rattle.pgn_json.specs.Json as json;
ghost use Rattle.pgn_json.specs.Internal.Remaining as left_of;
ghost use Rattle.pgn_json.specs.Strings.{string_text};
ghost use Rattle.pgn_json.specs.Values.{array_member, next, separated};

use crate::strings::push_string;
use cq_common::{Bytes, NoMemory};
use itoa::Buffer;
use pgn_tree::Game;

/// Adds the glyphs and the comments of a node, if there are any.
pub(crate) fn push_notes(line: &mut Bytes, game: &Game, k: u32) -> Result<(), NoMemory>
    requires { k < length game.now.nodes }
    ensures { OnOk result (line.new ≡ line.old ++ flat_map next (json.note_members (node_at game.now.nodes k))) }
{
    push_nags(line, game.nags(k))?;
    push_comments(line, game, k)
}

// Adds glyphs, if there are any.
fn push_nags(line: &mut Bytes, nags: &[u8]) -> Result<(), NoMemory>
    ensures { OnOk result (line.new ≡ line.old ++ flat_map next (array_member (codes "nags") (map decimal nags.now))) }
{
    if nags.is_empty() {
        return Ok(());
    }
    line.push_all(b",\"nags\":[")?;
    push_numbers(line, nags)?;
    line.push_all(b"]")
}

// Adds numbers with a comma between two.
fn push_numbers(line: &mut Bytes, numbers: &[u8]) -> Result<(), NoMemory>
    ensures { OnOk result (line.new ≡ line.old ++ separated (map decimal numbers.now)) }
{
    for i in 0..numbers.len() {
        push_number(line, comma_after(i), u64::from(numbers[i]))?;
    }
    Ok(())
}

// Adds the comments of a node, if there are any.
fn push_comments(line: &mut Bytes, game: &Game, k: u32) -> Result<(), NoMemory>
    requires { k < length game.now.nodes }
    ensures { OnOk result (line.new ≡ line.old
        ++ flat_map next (array_member (codes "comments") (map string_text (node_at game.now.nodes k).comments))) }
{
    if has_none(game, k) {
        return Ok(());
    }
    line.push_all(b",\"comments\":[")?;
    push_texts(line, game, k)?;
    line.push_all(b"]")?;
    Ok(())
}

// Returns true if a node has no comments.
fn has_none(game: &Game, k: u32) -> bool
    requires { k < length game.now.nodes }
    ensures { result ≡ (length (node_at game.now.nodes k).comments == 0) }
{
    game.comments(k) == 0
}

// Adds the comments of a node with a comma between two.
fn push_texts(line: &mut Bytes, game: &Game, k: u32) -> Result<(), NoMemory>
    requires { k < length game.now.nodes }
    ensures { OnOk result (line.new ≡ line.old ++ separated (map string_text (node_at game.now.nodes k).comments)) }
{
    for i in 0..game.comments(k) {
        push_text(line, i, game.comment(k, i))?;
    }
    Ok(())
}

// Adds a text after so many others.
fn push_text(line: &mut Bytes, i: usize, text: &[u8]) -> Result<(), NoMemory>
    ensures { OnOk result (line.new ≡ line.old ++ (left_of.comma_after i ++ string_text text.now)) }
{
    line.push_all(comma_after(i))?;
    push_string(line, text)
}

/// Returns true if a node has the comment that marks. If that has no bytes, all nodes are marked.
pub(crate) fn is_marked(game: &Game, k: u32, mark: &[u8]) -> bool
    requires { k < length game.now.nodes }
    ensures { result ≡ json.is_marked mark.now (node_at game.now.nodes k) }
{
    mark.is_empty() || has_comment(game, k, mark)
}

// Returns true if a node has a comment.
fn has_comment(game: &Game, k: u32, text: &[u8]) -> bool
    requires { k < length game.now.nodes }
    ensures { result ≡ list_any (λ c. bytes_eq c text.now) (node_at game.now.nodes k).comments }
{
    for i in 0..game.comments(k) {
        if game.comment(k, i) == text {
            return true;
        }
    }
    false
}

/// Adds a text and a number.
pub(crate) fn push_number(line: &mut Bytes, before: &[u8], number: u64) -> Result<(), NoMemory>
    ensures { OnOk result (line.new ≡ line.old ++ (before.now ++ decimal number)) }
{
    line.push_all(before)?;
    line.push_all(Buffer::new().format(number).as_bytes())
}

/// Returns the comma before a value after so many others, or nothing before the first.
pub(crate) fn comma_after(others: usize) -> &'static [u8]
    ensures { result.now ≡ left_of.comma_after others }
{
    if others == 0 { b"" } else { b"," }
}
