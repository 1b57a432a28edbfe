//! Texts as JSON strings (RFC 8259, section 7).
ghost use Rattle.std.specs.Prelude.{◌≡◌, ◌<◌, ◌++◌, OnOk};
ghost use Rattle.std.specs.Char.{digit_char};
ghost use Rattle.std.specs.List.{flat_map, list_any};
ghost use Rattle.std.specs.Prelude.{IsUtf8};
ghost use Rattle.pgn_json.specs.Internal.Bytes.{byte_text};
ghost use Rattle.pgn_json.specs.Strings.{character_text, characters, escape, needs_escape, string_text};

use cq_common::{Bytes, NoMemory};
use std::str;

/// Adds a text as a string: its characters in UTF-8, with a backslash before those that need an escape.
pub(crate) fn push_string(line: &mut Bytes, text: &[u8]) -> Result<(), NoMemory>
    ensures { OnOk result (line.new ≡ line.old ++ string_text text.now) }
{
    line.push_all(b"\"")?;
    push_characters(line, text)?;
    line.push_all(b"\"")
}

// Adds the characters of a text: those of its UTF-8, or else a letter of Latin-1 for each byte.
#[tactic(auto, unfolding(crate::specs::Strings::characters), using(crate::proofs::Characters::spelled, crate::proofs::Characters::latin))]
fn push_characters(line: &mut Bytes, text: &[u8]) -> Result<(), NoMemory>
    ensures { OnOk result (line.new ≡ line.old ++ flat_map character_text (characters text.now)) }
{
    match str::from_utf8(text) {
        Ok(_) => push_utf8(line, text),
        Err(_) => push_latin(line, text),
    }
}

// Adds the bytes of UTF-8. Most texts have none that need an escape.
#[tactic(auto, using(crate::proofs::Characters::unescaped))]
fn push_utf8(line: &mut Bytes, text: &[u8]) -> Result<(), NoMemory>
    ensures { OnOk result (line.new ≡ line.old ++ flat_map byte_text text.now) }
{
    if has_escaped(text) {
        push_bytes(line, text)
    } else {
        line.push_all(text)
    }
}

// Returns true if a byte of a text needs an escape.
fn has_escaped(text: &[u8]) -> bool
    ensures { result ≡ list_any needs_escape text.now }
{
    text.iter().any(|b| needs_escape(*b))
}

// Adds the bytes of UTF-8 one after the other.
fn push_bytes(line: &mut Bytes, text: &[u8]) -> Result<(), NoMemory>
    ensures { OnOk result (line.new ≡ line.old ++ flat_map byte_text text.now) }
{
    for b in text {
        push_byte(line, *b)?;
    }
    Ok(())
}

// Adds a byte of UTF-8.
fn push_byte(line: &mut Bytes, b: u8) -> Result<(), NoMemory>
    ensures { OnOk result (line.new ≡ line.old ++ byte_text b) }
{
    if needs_escape(b) {
        push_escape(line, b)
    } else {
        line.push_all(&[b])
    }
}

// Adds letters of Latin-1.
fn push_latin(line: &mut Bytes, text: &[u8]) -> Result<(), NoMemory>
    ensures { OnOk result (line.new ≡ line.old ++ flat_map character_text text.now) }
{
    for b in text {
        push_letter(line, *b)?;
    }
    Ok(())
}

// Adds a letter of Latin-1.
#[tactic(auto, unfolding(std::specs::Prelude::encode_utf8))]
fn push_letter(line: &mut Bytes, b: u8) -> Result<(), NoMemory>
    ensures { OnOk result (line.new ≡ line.old ++ character_text b) }
{
    if needs_escape(b) {
        push_escape(line, b)
    } else if b < 0x80 {
        line.push_all(&[b])
    } else {
        line.push_all(&[0xc0 + b / 64, 0x80 + b % 64])
    }
}

// Returns true if a character needs an escape: a quote, a backslash, or a control character.
fn needs_escape(b: u8) -> bool
    ensures { result ≡ needs_escape b }
{
    b < b' ' || b == b'"' || b == b'\\'
}

// Adds a character that is escaped.
fn push_escape(line: &mut Bytes, b: u8) -> Result<(), NoMemory>
    ensures { OnOk result (line.new ≡ line.old ++ escape b) }
{
    match b {
        b'"' => line.push_all(b"\\\""),
        b'\\' => line.push_all(b"\\\\"),
        0x08 => line.push_all(b"\\b"),
        b'\t' => line.push_all(b"\\t"),
        b'\n' => line.push_all(b"\\n"),
        0x0c => line.push_all(b"\\f"),
        b'\r' => line.push_all(b"\\r"),
        _ => line.push_all(&[
            b'\\',
            b'u',
            b'0',
            b'0',
            hex_digit(b / 16),
            hex_digit(b % 16),
        ]),
    }
}

// Returns the hexadecimal digit of a number.
fn hex_digit(n: u8) -> u8
    requires { n < 16 }
    ensures { result ≡ digit_char n }
{
    if n < 10 { b'0' + n } else { b'a' + (n - 10) }
}
