//! The lines of a report over games.
ghost use Rattle.std.specs.Prelude.{◌≡◌, ◌++◌, IfOk, OnOk};
ghost use Rattle.cq_report.specs.Games as lines;

use cq_common::{Bytes, NoMemory};
use itoa::Buffer;
use pgn_reader::{GameFault, Reason};
use std::alloc::Global;

// The text of a reason.
fn reason_text(reason: Reason) -> &'static [u8]
    ensures { result.now ≡ lines.reason_text reason }
{
    match reason {
        Reason::BadByte => b"bad byte",
        Reason::UnclosedComment => b"unclosed comment",
        Reason::UnclosedString => b"unclosed string",
        Reason::BadTag => b"bad tag",
        Reason::BadFen => b"bad FEN",
        Reason::NagRange => b"NAG out of range",
        Reason::NotAMove => b"not a move",
        Reason::IllegalMove => b"illegal move",
        Reason::AmbiguousMove => b"ambiguous move",
        Reason::VariationWithoutMove => b"variation without move",
        Reason::EmptyVariation => b"empty variation",
        Reason::UnopenedVariation => b"unopened variation",
        Reason::UnclosedVariation => b"unclosed variation",
        Reason::TooDeep => b"too deep",
        Reason::TooManyPositions => b"too many positions",
        Reason::GameTooLong => b"game too long",
    }
}

/// Returns the line of a faulty game: its number, from 1, the byte of its fault, from 0, and the reason.
///
/// # Errors
///
/// `NoMemory`: out of memory for the line.
pub fn fault_line(alloc: Global, game: u64, fault: &GameFault) -> Result<Bytes, NoMemory>
    ensures { IfOk result (λ line. line ≡ lines.fault_line game fault.now) }
{
    let mut digits = Buffer::new();
    let mut line = Bytes::from_slice(alloc, b"game ")?;
    line.push_all(digits.format(game).as_bytes())?;
    line.push_all(b" byte ")?;
    line.push_all(digits.format(fault.byte).as_bytes())?;
    line.push_all(b": ")?;
    line.push_all(reason_text(fault.reason))?;
    line.push_all(b"\n")?;
    Ok(line)
}

/// Returns the last line of a report: the numbers of all games, of those that match, and of the faulty ones.
///
/// # Errors
///
/// `NoMemory`: out of memory for the line.
pub fn summary_line(
    alloc: Global,
    games: u64,
    matched: u64,
    refused: u64,
) -> Result<Bytes, NoMemory>
    ensures { IfOk result (λ line. line ≡ lines.summary_line games matched refused) }
{
    let mut line = Bytes::new(alloc);
    push_counts(&mut line, games, matched, refused)?;
    line.push_all(b"\n")?;
    Ok(line)
}

/// Returns the line of a made archive that was searched: the number of its bytes, the counts of its games, and the number of bytes of the
/// exports.
///
/// # Errors
///
/// `NoMemory`: out of memory for the line.
pub fn made_line(
    alloc: Global,
    bytes: u64,
    games: u64,
    matched: u64,
    refused: u64,
    written: u128,
) -> Result<Bytes, NoMemory>
    ensures { IfOk result (λ line. line ≡ lines.made_line bytes games matched refused written) }
{
    let mut digits = Buffer::new();
    let mut line = Bytes::from_slice(alloc, b"bytes ")?;
    line.push_all(digits.format(bytes).as_bytes())?;
    line.push_all(b" ")?;
    push_counts(&mut line, games, matched, refused)?;
    line.push_all(b" written ")?;
    line.push_all(digits.format(written).as_bytes())?;
    line.push_all(b"\n")?;
    Ok(line)
}

/// Returns the line over the exports of one of several queries: its number, from 1, and their length in bytes.
///
/// # Errors
///
/// `NoMemory`: out of memory for the line.
pub fn head_line(alloc: Global, query: u64, bytes: u128) -> Result<Bytes, NoMemory>
    ensures { IfOk result (λ line. line ≡ lines.head_line query bytes) }
{
    let mut digits = Buffer::new();
    let mut line = Bytes::from_slice(alloc, b"query ")?;
    line.push_all(digits.format(query).as_bytes())?;
    line.push_all(b" bytes ")?;
    line.push_all(digits.format(bytes).as_bytes())?;
    line.push_all(b"\n")?;
    Ok(line)
}

// Adds the numbers of all games, of those that match, and of the faulty ones.
fn push_counts(line: &mut Bytes, games: u64, matched: u64, refused: u64) -> Result<(), NoMemory>
    ensures { OnOk result (line.new ≡ line.old ++ lines.counts games matched refused) }
{
    let mut digits = Buffer::new();
    line.push_all(b"games ")?;
    line.push_all(digits.format(games).as_bytes())?;
    line.push_all(b" matched ")?;
    line.push_all(digits.format(matched).as_bytes())?;
    line.push_all(b" refused ")?;
    line.push_all(digits.format(refused).as_bytes())
}
