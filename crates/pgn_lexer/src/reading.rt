//! The longest reading at a place.
ghost use Rattle.std.specs.Prelude.{◌≡◌, false, ◌+◌, ◌-◌, ◌<◌, ◌≤◌, ◌==◌, length, drop, slice_index};
ghost use Rattle.std.specs.List.{prefix_len, position_or_len};
ghost use Rattle.std.specs.Char.{is_ascii_alphanumeric};
ghost use Rattle.pgn_lexer.specs.Bytes.{backslash, continues_symbol};
ghost use Rattle.pgn_lexer.specs.Readings.{token, comment, line_comment, escape_line, is_special, body_len, text, symbol, nag, good_suffix, poor_suffix, null_move, single, reading};

use crate::token::{LexemeKind, Reading, TokenKind};
use cq_common::{decimal_up_to, digits_len};
use memchr::{memchr, memchr3};

/// For each of the 256 bytes, true if it continues a symbol.
const CONTINUES_SYMBOL: [bool; 256] = [
    false, false, false, false, false, false, false, false, false, false, false, false, false,
    false, false, false, false, false, false, false, false, false, false, false, false, false,
    false, false, false, false, false, false, false, false, false, true, false, false, false,
    false, false, false, false, true, false, true, false, true, true, true, true, true, true, true,
    true, true, true, true, true, false, false, true, false, false, false, true, true, true, true,
    true, true, true, true, true, true, true, true, true, true, true, true, true, true, true, true,
    true, true, true, true, true, true, false, false, false, false, true, false, true, true, true,
    true, true, true, true, true, true, true, true, true, true, true, true, true, true, true, true,
    true, true, true, true, true, true, true, false, false, false, false, false, false, false,
    false, false, false, false, false, false, false, false, false, false, false, false, false,
    false, false, false, false, false, false, false, false, false, false, false, false, false,
    false, false, false, false, false, false, false, false, false, false, false, false, false,
    false, false, false, false, false, false, false, false, false, false, false, false, false,
    false, false, false, false, false, false, false, false, false, false, false, false, false,
    false, false, false, false, false, false, false, false, false, false, false, false, false,
    false, false, false, false, false, false, false, false, false, false, false, false, false,
    false, false, false, false, false, false, false, false, false, false, false, false, false,
    false, false, false, false, false, false, false, false, false, false, false, false, false,
    false, false, false, false, false, false, false, false, false,
];

/// Returns true if this byte continues a symbol.
#[inline]
#[tactic(auto, using(crate::proofs::Tables::symbol_table))]
pub fn continues_symbol(b: u8) -> bool
    ensures { result ≡ continues_symbol b }
{
    CONTINUES_SYMBOL[b as usize]
}

// A token of `len` bytes.
fn token(kind: TokenKind, len: usize) -> Reading
    ensures { result ≡ token kind len }
{
    Reading {
        kind: LexemeKind::Token(kind),
        len,
    }
}

/// Returns the place of the first such byte, or the length if there is none.
pub fn place_of(byte: u8, bytes: &[u8]) -> usize
    ensures value { result ≡ position_or_len (λ b. b == byte) bytes.now }
    ensures within { result ≤ length bytes.now }
{
    memchr(byte, bytes).unwrap_or(bytes.len())
}

// The number of bytes at the start that continue a symbol.
#[inline(always)]
fn symbol_len(bytes: &[u8]) -> usize
    ensures value { result ≡ prefix_len continues_symbol bytes.now }
    ensures within { result ≤ length bytes.now }
{
    bytes.iter().take_while(|b| continues_symbol(**b)).count()
}

// A comment from its brace; `rest` is the bytes after that.
#[tactic(auto, unfolding(crate::specs::Readings::comment))]
fn comment(rest: &[u8]) -> Reading
    ensures { result ≡ comment rest.now }
{
    let body = place_of(b'}', rest);
    if body < rest.len() {
        token(TokenKind::Comment, body + 2)
    } else {
        token(TokenKind::UnclosedComment, body + 1)
    }
}

// A comment from its semicolon.
#[tactic(auto, unfolding(crate::specs::Readings::line_comment))]
fn line_comment(rest: &[u8]) -> Reading
    ensures { result ≡ line_comment rest.now }
{
    token(TokenKind::LineComment, place_of(b'\n', rest) + 1)
}

// An escape line from its percent sign.
#[tactic(auto, unfolding(crate::specs::Readings::escape_line))]
fn escape_line(rest: &[u8]) -> Reading
    ensures { result ≡ escape_line rest.now }
{
    Reading {
        kind: LexemeKind::EscapeLine,
        len: place_of(b'\n', rest) + 1,
    }
}

/// Returns the number of plain bytes at the start of a string: those before a quote, a backslash or LF.
pub fn plain_len(bytes: &[u8]) -> usize
    ensures value { result ≡ position_or_len is_special bytes.now }
    ensures within { result ≤ length bytes.now }
{
    memchr3(b'"', b'\\', b'\n', bytes).unwrap_or(bytes.len())
}

// The place after a backslash of a string and the byte that it takes with it, which is never LF.
#[tactic(auto, using(crate::proofs::Bodies::escape_at_end, crate::proofs::Bodies::escape_of_line, crate::proofs::Bodies::escape_of_byte))]
fn after_backslash(rest: &[u8], at: usize) -> usize
    requires { at < length rest.now }
    ensures within { (at < result) × (result ≤ length rest.now) }
    ensures goes_on { slice_index rest.now at ≡ backslash →
        body_len false (drop at rest.now) ≡ (result - at) + body_len false (drop result rest.now) }
{
    match rest.get(at + 1) {
        None | Some(b'\n') => at + 1,
        Some(_) => at + 2,
    }
}

// The number of bytes of a string before its closing quote or its line's end.
fn body_len(rest: &[u8]) -> usize
    ensures value { result ≡ body_len false rest.now }
    ensures within { result ≤ length rest.now }
{
    let mut at = plain_len(rest);
    while at < rest.len() && rest[at] == b'\\' {
        let after = after_backslash(rest, at);
        at = after + plain_len(&rest[after..]);
    }
    at
}

// A string from its quote.
#[tactic(auto, unfolding(crate::specs::Readings::text))]
fn text(rest: &[u8]) -> Reading
    ensures { result ≡ text rest.now }
{
    let body = body_len(rest);
    if body < rest.len() && rest[body] == b'"' {
        token(TokenKind::Text, body + 2)
    } else {
        token(TokenKind::UnclosedText, body + 1)
    }
}

// A symbol from its first letter or digit.
#[tactic(auto, unfolding(crate::specs::Readings::symbol))]
#[inline(always)]
fn symbol(rest: &[u8]) -> Reading
    ensures { result ≡ symbol rest.now }
{
    token(TokenKind::Symbol, symbol_len(rest) + 1)
}

/// The number of every glyph above the standard's range.
const BEYOND_GLYPHS: u32 = 256;

// A glyph from its dollar sign.
#[tactic(auto, unfolding(crate::specs::Readings::nag))]
fn nag(rest: &[u8]) -> Reading
    ensures { result ≡ nag rest.now }
{
    let digits = digits_len(rest);
    if digits == 0 {
        token(TokenKind::BadByte, 1)
    } else {
        let glyph = decimal_up_to(BEYOND_GLYPHS, &rest[..digits]);
        token(TokenKind::Nag(glyph), digits + 1)
    }
}

// The glyph of a suffix that begins with an exclamation mark.
#[tactic(auto, unfolding(crate::specs::Readings::good_suffix))]
fn good_suffix(rest: &[u8]) -> Reading
    ensures { result ≡ good_suffix rest.now }
{
    match rest.first() {
        Some(b'!') => token(TokenKind::Nag(3), 2),
        Some(b'?') => token(TokenKind::Nag(5), 2),
        _ => token(TokenKind::Nag(1), 1),
    }
}

// The glyph of a suffix that begins with a question mark.
#[tactic(auto, unfolding(crate::specs::Readings::poor_suffix))]
fn poor_suffix(rest: &[u8]) -> Reading
    ensures { result ≡ poor_suffix rest.now }
{
    match rest.first() {
        Some(b'?') => token(TokenKind::Nag(4), 2),
        Some(b'!') => token(TokenKind::Nag(6), 2),
        _ => token(TokenKind::Nag(2), 1),
    }
}

// A null move from its first hyphen.
#[tactic(auto, unfolding(crate::specs::Readings::null_move))]
fn null_move(rest: &[u8]) -> Reading
    ensures { result ≡ null_move rest.now }
{
    match rest.first() {
        Some(b'-') => token(TokenKind::Null, 2),
        _ => token(TokenKind::BadByte, 1),
    }
}

// A token of one byte.
#[tactic(auto, unfolding(crate::specs::Readings::single))]
fn single(b: u8) -> Reading
    ensures { result ≡ single b }
{
    let kind = match b {
        b'[' => TokenKind::Open,
        b']' => TokenKind::Close,
        b'(' => TokenKind::LeftParen,
        b')' => TokenKind::RightParen,
        b'.' => TokenKind::Period,
        b'*' => TokenKind::Star,
        _ => TokenKind::BadByte,
    };
    token(kind, 1)
}

// The reading of a byte, which is not white space, by its kind. Symbols, which are most, are read first and inline.
#[tactic(auto, unfolding(crate::specs::Readings::reading))]
#[inline(always)]
fn read(b: u8, rest: &[u8], first: bool) -> Reading
    ensures { result ≡ reading first b rest.now }
{
    if b.is_ascii_alphanumeric() {
        symbol(rest)
    } else {
        read_sign(b, rest, first)
    }
}

// The reading of a byte that begins no symbol.
#[tactic(auto, unfolding(crate::specs::Readings::reading))]
#[inline(never)]
fn read_sign(b: u8, rest: &[u8], first: bool) -> Reading
    requires { is_ascii_alphanumeric b ≡ false }
    ensures { result ≡ reading first b rest.now }
{
    match b {
        b'{' => comment(rest),
        b';' => line_comment(rest),
        b'%' if first => escape_line(rest),
        b'"' => text(rest),
        b'$' => nag(rest),
        b'!' => good_suffix(rest),
        b'?' => poor_suffix(rest),
        b'-' => null_move(rest),
        _ => single(b),
    }
}

/// Returns the longest reading of a byte that is not white space and the bytes after it. `first` is true if the byte is
/// in the first column.
#[tactic(auto, using(crate::proofs::Within::reading_some, crate::proofs::Within::reading_within))]
#[inline(always)]
pub fn longest_reading(b: u8, rest: &[u8], first: bool) -> Reading
    ensures value { result ≡ reading first b rest.now }
    ensures some { 0 < result.len }
    ensures within { result.len ≤ length rest.now + 1 }
{
    read(b, rest, first)
}
