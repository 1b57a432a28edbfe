//! The meanings of the bytes of a token.
ghost use Rattle.std.specs.Prelude.{◌≡◌, ◌<◌, ◌≤◌, ◌+◌, ◌-◌, ◌∷◌, length, take, drop, slice_index, IfOk};
ghost use Rattle.std.specs.List.{list_all};
ghost use Rattle.std.specs.Char.{is_ascii_digit};
ghost use Rattle.pgn_reader.specs.Words.{result_of_text};
ghost use Rattle.pgn_reader.specs.Tags.{unescaped, value_of};

use cq_common::NoMemory;
use cq_position::GameResult;
use std::alloc::Global;

/// Returns true if all bytes are digits.
pub fn are_digits(text: &[u8]) -> bool
    ensures { result ≡ list_all is_ascii_digit text.now }
{
    text.iter().all(|b| b.is_ascii_digit())
}

/// Returns the result with this text.
#[tactic(auto, unfolding(crate::specs::Words::result_of_text))]
pub fn result_of_text(text: &[u8]) -> Option<GameResult>
    ensures { result ≡ result_of_text text.now }
{
    if text == b"1-0".as_slice() {
        Some(GameResult::White)
    } else if text == b"0-1".as_slice() {
        Some(GameResult::Black)
    } else if text == b"1/2-1/2".as_slice() {
        Some(GameResult::Draw)
    } else if text == b"*".as_slice() {
        Some(GameResult::Open)
    } else {
        None
    }
}

/// Returns the bytes between the first one and the last.
pub fn inside(text: &[u8]) -> &[u8]
    ensures { result.now ≡ take (length text.now - 2) (drop 1 text.now) }
{
    if text.len() < 2 {
        b""
    } else {
        &text[1..text.len() - 1]
    }
}

/// Returns the bytes after the first one.
pub fn after_first(text: &[u8]) -> &[u8]
    ensures { result.now ≡ drop 1 text.now }
{
    if text.is_empty() { b"" } else { &text[1..] }
}

// The place of the next byte of the value: a backslash before a quote or a backslash is skipped.
#[tactic(auto, unfolding(crate::specs::Tags::unescaped))]
fn next_byte(text: &[u8], at: usize) -> usize
    requires { at < length text.now }
    ensures within { result < length text.now }
    ensures from { at ≤ result }
    ensures value { unescaped (drop at text.now) ≡ slice_index text.now result ∷ unescaped (drop (result + 1) text.now) }
{
    match text.get(at + 1) {
        Some(b'"' | b'\\') if text[at] == b'\\' => at + 1,
        _ => at,
    }
}

/// Returns the value of a string: the bytes between its quotes, without the backslashes before quotes and backslashes.
///
/// # Errors
///
/// Fails only if out of memory.
#[tactic(auto, unfolding(crate::specs::Tags::value_of))]
pub fn value_of(alloc: Global, text: &[u8]) -> Result<Vec<u8>, NoMemory>
    ensures { IfOk result (λ v. v.items ≡ value_of text.now) }
{
    unescaped(alloc, inside(text))
}

fn unescaped(alloc: Global, text: &[u8]) -> Result<Vec<u8>, NoMemory>
    ensures { IfOk result (λ v. v.items ≡ unescaped text.now) }
{
    let mut value = Vec::with_capacity(alloc, text.len())?;
    let mut at = 0;
    while at < text.len() {
        let next = next_byte(text, at);
        value.push(text[next])?;
        at = next + 1;
    }
    Ok(value)
}
