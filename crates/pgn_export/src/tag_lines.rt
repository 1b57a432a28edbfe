//! The tag lines of a game.
ghost use Rattle.std.specs.Prelude.{◌≡◌, ◌++◌, not, filter, map, OnOk, IfOk};
ghost use Rattle.std.specs.List.{flat_map};
ghost use Rattle.std.specs.Option.{unwrap_or};
ghost use Rattle.cq_position.specs.Games.{tag_value};
ghost use Rattle.pgn_export.specs.Internal.PlainTags.{plain};
ghost use Rattle.pgn_export.specs.TagLines as tag_lines;

use cq_common::{Bytes, NoMemory};
use pgn_tree::{Game, Tags, result_text};
use std::alloc::Global;
use std::collections::BTreeMap;

/// Adds the tag lines of a game.
pub(crate) fn write_tags(out: &mut Vec<u8>, alloc: Global, game: &Game) -> Result<(), NoMemory>
    ensures { OnOk result (out.new.items ≡ out.old.items ++ flat_map tag_lines.tag_line (tag_lines.written_tags game.now)) }
{
    let tags = game.tags();
    write_roster(out, tags)?;
    write_tag(out, b"Result", result_text(game.result()))?;
    write_others(out, alloc, tags)?;
    Ok(())
}

// Adds the lines of the tags of the roster, except the result.
fn write_roster(out: &mut Vec<u8>, tags: &Tags) -> Result<(), NoMemory>
    ensures { OnOk result (out.new.items
        ≡ out.old.items ++ flat_map tag_lines.tag_line (map (tag_lines.roster_tag tags.now) tag_lines.roster)) }
{
    write_roster_tag(out, tags, b"Event", b"?")?;
    write_roster_tag(out, tags, b"Site", b"?")?;
    write_roster_tag(out, tags, b"Date", b"????.??.??")?;
    write_roster_tag(out, tags, b"Round", b"?")?;
    write_roster_tag(out, tags, b"White", b"?")?;
    write_roster_tag(out, tags, b"Black", b"?")?;
    Ok(())
}

// Adds the line of a tag of the roster, with this value if the tag is missing.
#[tactic(auto, unfolding(crate::specs::TagLines::roster_tag))]
fn write_roster_tag(
    out: &mut Vec<u8>,
    tags: &Tags,
    name: &[u8],
    missing: &[u8],
) -> Result<(), NoMemory>
    ensures { OnOk result (out.new.items ≡ out.old.items ++ tag_lines.tag_line (tag_lines.roster_tag tags.now (name.now, missing.now))) }
{
    write_tag(out, name, tags.get(name).unwrap_or(missing))
}

// Adds the line of a tag.
#[tactic(auto, unfolding(crate::specs::TagLines::tag_line))]
fn write_tag(out: &mut Vec<u8>, name: &[u8], value: &[u8]) -> Result<(), NoMemory>
    ensures { OnOk result (out.new.items ≡ out.old.items ++ tag_lines.tag_line (name.now, value.now)) }
{
    out.extend_from_slice(b"[")?;
    out.extend_from_slice(name)?;
    out.extend_from_slice(b" \"")?;
    write_escaped(out, value)?;
    out.extend_from_slice(b"\"]\n")?;
    Ok(())
}

// Adds a value, with a backslash before each quote and backslash.
fn write_escaped(out: &mut Vec<u8>, value: &[u8]) -> Result<(), NoMemory>
    ensures { OnOk result (out.new.items ≡ out.old.items ++ tag_lines.escaped value.now) }
{
    for byte in value {
        write_escaped_byte(out, *byte)?;
    }
    Ok(())
}

fn write_escaped_byte(out: &mut Vec<u8>, byte: u8) -> Result<(), NoMemory>
    ensures { OnOk result (out.new.items ≡ out.old.items ++ tag_lines.escaped_byte byte) }
{
    if byte == b'"' || byte == b'\\' {
        out.push(b'\\')?;
    }
    out.push(byte)?;
    Ok(())
}

// Adds the lines of the tags that are not of the roster.
fn write_others(out: &mut Vec<u8>, alloc: Global, tags: &Tags) -> Result<(), NoMemory>
    ensures { OnOk result (out.new.items ≡ out.old.items ++ flat_map tag_lines.tag_line (tag_lines.other_tags tags.now)) }
{
    let others = other_tags(alloc, tags)?;
    for (name, value) in others.iter() {
        write_tag(out, name.as_slice(), value.as_slice())?;
    }
    Ok(())
}

// The tags that are not of the roster, in the order of their names; with FEN the tag SetUp is 1.
#[tactic(auto, unfolding(crate::specs::TagLines::other_tags))]
fn other_tags(alloc: Global, tags: &Tags) -> Result<BTreeMap<Vec<u8>, Bytes>, NoMemory>
    ensures { IfOk result (λ others. plain others.entries ≡ tag_lines.other_tags tags.now) }
{
    let mut others = plain_tags(alloc, tags)?;
    if tags.get(b"FEN").is_some() {
        put(&mut others, alloc, b"SetUp", b"1")?;
    }
    Ok(others)
}

// The tags that are not of the roster, in the order of their names.
fn plain_tags(alloc: Global, tags: &Tags) -> Result<BTreeMap<Vec<u8>, Bytes>, NoMemory>
    ensures { IfOk result (λ others. plain others.entries ≡ tag_lines.sorted (filter (λ t. not (tag_lines.is_in_roster t.0)) tags.now)) }
{
    let mut others = BTreeMap::new(alloc);
    for i in 0..tags.len() {
        put_other(&mut others, alloc, tags.name(i), tags.value(i))?;
    }
    Ok(others)
}

// Puts a tag in its place, unless it is of the roster.
fn put_other(
    others: &mut BTreeMap<Vec<u8>, Bytes>,
    alloc: Global,
    name: &[u8],
    value: &[u8],
) -> Result<(), NoMemory>
    ensures { OnOk result (plain others.new.entries ≡ tag_lines.put_other (plain others.old.entries) (name.now, value.now)) }
{
    if is_in_roster(name) {
        return Ok(());
    }
    put(others, alloc, name, value)
}

// Puts a tag in its place; a name that is present takes the new value.
fn put(
    others: &mut BTreeMap<Vec<u8>, Bytes>,
    alloc: Global,
    name: &[u8],
    value: &[u8],
) -> Result<(), NoMemory>
    ensures { OnOk result (plain others.new.entries ≡ tag_lines.put (plain others.old.entries) (name.now, value.now)) }
{
    let name = Vec::from_slice(alloc, name)?;
    let value = Bytes::from_slice(alloc, value)?;
    others.insert(name, value)?;
    Ok(())
}

// True if a name is one of the roster.
fn is_in_roster(name: &[u8]) -> bool
    ensures { result ≡ tag_lines.is_in_roster name.now }
{
    name == b"Event".as_slice()
        || name == b"Site".as_slice()
        || name == b"Date".as_slice()
        || name == b"Round".as_slice()
        || name == b"White".as_slice()
        || name == b"Black".as_slice()
        || name == b"Result".as_slice()
}
