//! One token at the front of a text, by the first rule that applies.
ghost use Rattle.std.specs.Prelude.{◌≡◌, ◌<◌, ◌≤◌, length, IfOk, IfSome, IsTrue, Some};
ghost use Rattle.cq_common.specs.Refusals.{Gives};
ghost use Rattle.std.specs.Char.{is_ascii_digit};
ghost use Rattle.cql_syntax.specs.Words.{marks};
ghost use Rattle.cql_lexer.specs.Characters.{begins, begins_name_or_squares};
ghost use Rattle.cql_lexer.specs.Lexemes.{IsFront, file_name, outcome, quoted, number, named, named_or_squares, mark_number, mark, first_lexeme};
ghost use Rattle.cql_lexer.specs.Longest.{front, longest};

use crate::characters::{file_name_len, find, name_len};
use crate::designators::designator_at;
use crate::expected::Expected;
use cq_common::{Bytes, NoMemory, Refusal, decimal_up_to, digits_len};
use cql_syntax::{Outcome, QueryReason, QueryTokenKind, is_reserved, mark_number, word_number};
use std::alloc::Global;

// The greatest number in a query.
const NUMBER_LIMIT: u32 = 999_999_999;

/// A token, and the number of its bytes.
#[derive(Drop)]
pub struct Lexeme {
    pub kind: QueryTokenKind,
    pub len: usize,
}

// The name of a file.
#[tactic(auto, unfolding(crate::specs::Lexemes::file_name))]
fn file_name(alloc: Global, expected: Expected, text: &[u8]) -> Result<Option<Lexeme>, NoMemory>
    ensures value { IfOk result (λ found. found ≡ file_name expected text.now) }
    ensures front { IfOk result (λ found. IfSome found (λ lexeme. IsFront lexeme text.now)) }
{
    if expected != Expected::FileName {
        return Ok(None);
    }
    let len = file_name_len(text);
    if len == 0 {
        return Ok(None);
    }
    let kind = QueryTokenKind::FileName(Bytes::from_slice(alloc, &text[..len])?);
    Ok(Some(Lexeme { kind, len }))
}

// A result.
#[tactic(auto, unfolding(crate::specs::Lexemes::outcome))]
fn outcome(expected: Expected, text: &[u8]) -> Option<Lexeme>
    ensures value { result ≡ outcome expected text.now }
    ensures front { IfSome result (λ lexeme. IsFront lexeme text.now) }
{
    if expected != Expected::Outcome {
        return None;
    }
    let (outcome, len) = if text.starts_with(b"1/2-1/2".as_slice()) {
        (Outcome::Draw, 7)
    } else if text.starts_with(b"1-0".as_slice()) {
        (Outcome::White, 3)
    } else if text.starts_with(b"0-1".as_slice()) {
        (Outcome::Black, 3)
    } else if text.starts_with(b"*".as_slice()) {
        (Outcome::Unfinished, 1)
    } else {
        return None;
    };
    Some(Lexeme {
        kind: QueryTokenKind::Outcome(outcome),
        len,
    })
}

// The text between two quotes.
#[tactic(auto, unfolding(crate::specs::Lexemes::quoted))]
fn quoted(alloc: Global, text: &[u8]) -> Result<Lexeme, Refusal<QueryReason>>
    requires { 0 < length text.now }
    ensures value { Gives (λ lexeme. lexeme) result (quoted text.now) }
    ensures front { IfOk result (λ lexeme. IsFront lexeme text.now) }
{
    let inside = &text[1..];
    match find(b'"', inside) {
        Some(end) => Ok(Lexeme {
            kind: QueryTokenKind::Text(Bytes::from_slice(alloc, &inside[..end])?),
            len: end + 2,
        }),
        None => Err(Refusal::Fault(QueryReason::UnclosedText)),
    }
}

// A number.
#[tactic(auto, unfolding(crate::specs::Lexemes::number))]
fn number(text: &[u8]) -> Result<Lexeme, QueryReason>
    requires { IsTrue (begins is_ascii_digit text.now) }
    ensures value { result ≡ number text.now }
    ensures front { IfOk result (λ lexeme. IsFront lexeme text.now) }
{
    let len = digits_len(text);
    let number = decimal_up_to(NUMBER_LIMIT + 1, &text[..len]);
    if number > NUMBER_LIMIT {
        return Err(QueryReason::NumberTooLarge);
    }
    Ok(Lexeme {
        kind: QueryTokenKind::Number(number),
        len,
    })
}

// A word, a reserved name or another name.
#[tactic(auto, unfolding(crate::specs::Lexemes::named))]
fn named(alloc: Global, name: &[u8]) -> Result<QueryTokenKind, NoMemory>
    ensures { IfOk result (λ kind. kind ≡ named name.now) }
{
    if let Some(word) = word_number(name) {
        return Ok(QueryTokenKind::Word(word));
    }
    let bytes = Bytes::from_slice(alloc, name)?;
    if is_reserved(name) {
        Ok(QueryTokenKind::Reserved(bytes))
    } else {
        Ok(QueryTokenKind::Name(bytes))
    }
}

// The number of the mark that is the whole text.
#[tactic(auto, unfolding(crate::specs::Lexemes::mark_number))]
fn mark_of(text: &[u8]) -> Option<u8>
    ensures value { result ≡ mark_number text.now }
    ensures bound { IfSome result (λ mark. mark < length marks) }
{
    mark_number(text)
}

// The mark that is the first so many bytes.
fn mark_front(len: usize, text: &[u8]) -> Option<(u8, usize)>
    ensures value { result ≡ front mark_number len text.now }
    ensures bound { IfSome result (λ found. found.0 < length marks) }
{
    Some((mark_of(text.get(..len)?)?, len))
}

// The longest mark at the front.
#[tactic(auto, using(crate::proofs::Marks::mark_longest, crate::proofs::Marks::mark_fits))]
fn mark_at(text: &[u8]) -> Option<(u8, usize)>
    ensures value { result ≡ longest mark_number text.now }
    ensures bound { IfSome result (λ found. found.0 < length marks) }
    ensures front { IfSome result (λ found. (0 < found.1) × (found.1 ≤ length text.now)) }
{
    mark_front(3, text)
        .or(mark_front(2, text))
        .or(mark_front(1, text))
}

// A mark.
#[tactic(auto, unfolding(crate::specs::Lexemes::mark))]
fn mark(text: &[u8]) -> Option<Lexeme>
    ensures value { result ≡ mark text.now }
    ensures front { IfSome result (λ lexeme. IsFront lexeme text.now) }
{
    let (mark, len) = mark_at(text)?;
    Some(Lexeme {
        kind: QueryTokenKind::Mark(mark),
        len,
    })
}

// A designator, or a name of any kind.
#[tactic(auto, unfolding(crate::specs::Lexemes::named_or_squares))]
fn named_or_squares(alloc: Global, text: &[u8]) -> Result<Option<Lexeme>, NoMemory>
    ensures value { IfOk result (λ found. found ≡ named_or_squares text.now) }
    ensures front { IfOk result (λ found. IfSome found (λ lexeme. IsFront lexeme text.now)) }
{
    if !begins_name_or_squares(text) {
        return Ok(None);
    }
    let run = name_len(text);
    match designator_at(text) {
        Some((designator, len)) if run <= len => Ok(Some(Lexeme {
            kind: QueryTokenKind::Squares(designator),
            len,
        })),
        _ if run > 0 => Ok(Some(Lexeme {
            kind: named(alloc, &text[..run])?,
            len: run,
        })),
        _ => Ok(None),
    }
}

// True if a name or a designator may begin at the front.
fn begins_name_or_squares(text: &[u8]) -> bool
    ensures { result ≡ begins begins_name_or_squares text.now }
{
    match text.first() {
        Some(first) => first.is_ascii_alphabetic() || matches!(*first, b'_' | b'.' | b'['),
        None => false,
    }
}

/// Returns the token at the front of a text, by the first rule that applies.
///
/// # Errors
///
/// Returns a `Refusal::Fault` with the reason if the front has no token: a bad byte, an unclosed
/// text or a number too large. Returns `Refusal::NoMemory` if memory runs out.
#[tactic(auto, unfolding(crate::specs::Lexemes::first_lexeme))]
pub fn first_lexeme(
    alloc: Global,
    expected: Expected,
    text: &[u8],
) -> Result<Lexeme, Refusal<QueryReason>>
    requires { 0 < length text.now }
    ensures value { Gives (λ lexeme. lexeme) result (first_lexeme expected text.now) }
    ensures front { IfOk result (λ lexeme. IsFront lexeme text.now) }
{
    if let Some(found) = file_name(alloc, expected, text)? {
        return Ok(found);
    }
    if let Some(found) = outcome(expected, text) {
        return Ok(found);
    }
    if text[0] == b'"' {
        return quoted(alloc, text);
    }
    if text[0].is_ascii_digit() {
        return number(text).map_err(Refusal::Fault);
    }
    if let Some(found) = named_or_squares(alloc, text)? {
        return Ok(found);
    }
    mark(text).ok_or(Refusal::Fault(QueryReason::BadByte))
}
