//! The line of a faulty query.
ghost use Rattle.std.specs.Prelude.{◌≡◌, ◌++◌, IfOk, OnOk};
ghost use Rattle.cql_syntax.specs.declared.fault.QueryReason.TheVariants as reasons;
ghost use Rattle.cq_report.specs.Queries as lines;

use cq_common::{Bytes, NoMemory};
use cql_syntax::{Kind, QueryFault, QueryReason};
use itoa::Buffer;
use std::alloc::Global;

/// Returns the line of a query's fault: its byte, from 0, and the reason.
///
/// # Errors
///
/// `NoMemory`: out of memory for the line.
pub fn query_line(alloc: Global, fault: &QueryFault) -> Result<Bytes, NoMemory>
    ensures { IfOk result (λ line. line ≡ lines.query_line fault.now) }
{
    let mut line = Bytes::from_slice(alloc, b"query byte ")?;
    line.push_all(Buffer::new().format(fault.byte).as_bytes())?;
    line.push_all(b": ")?;
    push_reason(&mut line, &fault.reason)?;
    line.push_all(b"\n")?;
    Ok(line)
}

/// Returns the same line in a file of queries: the query's number, from 1, its byte within the query, from 0, and the reason.
///
/// # Errors
///
/// `NoMemory`: out of memory for the line.
pub fn numbered_query_line(
    alloc: Global,
    number: u32,
    fault: &QueryFault,
) -> Result<Bytes, NoMemory>
    ensures { IfOk result (λ line. line ≡ lines.numbered_query_line number fault.now) }
{
    let mut digits = Buffer::new();
    let mut line = Bytes::from_slice(alloc, b"query ")?;
    line.push_all(digits.format(number).as_bytes())?;
    line.push_all(b" byte ")?;
    line.push_all(digits.format(fault.byte).as_bytes())?;
    line.push_all(b": ")?;
    push_reason(&mut line, &fault.reason)?;
    line.push_all(b"\n")?;
    Ok(line)
}

// Adds the text of a reason.
fn push_reason(line: &mut Bytes, reason: &QueryReason) -> Result<(), NoMemory>
    ensures { OnOk result (line.new ≡ line.old ++ lines.query_reason_text reason.now) }
{
    match reason {
        QueryReason::BadByte => line.push_all(b"bad byte"),
        QueryReason::UnclosedText => line.push_all(b"unclosed text"),
        QueryReason::UnexpectedToken => line.push_all(b"unexpected token"),
        QueryReason::UnexpectedEnd => line.push_all(b"unexpected end"),
        QueryReason::OutsideProfile(name) => push_name(line, b"outside profile ", name),
        QueryReason::KindMismatch(wanted, found) => push_kinds(line, *wanted, *found),
        QueryReason::UnknownName(name) => push_name(line, b"unknown name ", name),
        QueryReason::TextHoldsBrace => line.push_all(b"text holds brace"),
        QueryReason::NumberTooLarge => line.push_all(b"number too large"),
        QueryReason::TooDeep => line.push_all(b"too deep"),
        QueryReason::LineTooLong => line.push_all(b"line too long"),
        QueryReason::TooManyMembers => line.push_all(b"too many members"),
        QueryReason::QueryTooLong => line.push_all(b"query too long"),
        QueryReason::NotAtTop => line.push_all(b"not at top"),
        QueryReason::TooManySorts => line.push_all(b"too many sorts"),
        QueryReason::TooManySquares => line.push_all(b"too many squares"),
    }
}

// Adds a reason and the name that it is about.
fn push_name(line: &mut Bytes, reason: &[u8], name: &Bytes) -> Result<(), NoMemory>
    ensures { OnOk result (line.new ≡ line.old ++ (reason.now ++ name.now)) }
{
    line.push_all(reason)?;
    line.push_all(name.as_slice())
}

// Adds the reason of a filter that has another kind than its place requires.
fn push_kinds(line: &mut Bytes, wanted: Kind, found: Kind) -> Result<(), NoMemory>
    ensures { OnOk result (line.new ≡ line.old ++ lines.query_reason_text (reasons.KindMismatch wanted found)) }
{
    push_kind(line, b"kind mismatch, wanted ", wanted)?;
    push_kind(line, b", found ", found)
}

// Adds a text and the name of a kind.
fn push_kind(line: &mut Bytes, text: &[u8], kind: Kind) -> Result<(), NoMemory>
    ensures { OnOk result (line.new ≡ line.old ++ (text.now ++ lines.kind_text kind)) }
{
    line.push_all(text)?;
    line.push_all(kind_text(kind))
}

// The name of a kind.
fn kind_text(kind: Kind) -> &'static [u8]
    ensures { result.now ≡ lines.kind_text kind }
{
    match kind {
        Kind::Position => b"position",
        Kind::Set => b"set",
        Kind::Number => b"number",
    }
}
