//! The reading of the tokens of a game.
ghost use Rattle.std.specs.Prelude.{◌≡◌, ◌<◌, ◌≤◌, ◌^◌, ℕ, Bool, List, length, IfOk, MatchOption};
ghost use Rattle.pgn_reader.specs.Limits.{longest, most_moves};
ghost use Rattle.pgn_reader.specs.ReadingPlace.{fault_at_end};
ghost use Rattle.pgn_reader.specs.Internal.GameAssembly.{reading_place_of};
ghost use Rattle.pgn_reader.specs.Internal.ReaderView.{state_of, moves_in, IsLow, StepsOver};
ghost use Rattle.pgn_reader.specs.Internal.Machine.{first as start_state};
ghost use Rattle.pgn_reader.specs.Internal.Reading.{IsReading, IsWhole};
ghost use Rattle.pgn_reader.specs.Verdict.{HasTokenFault};
ghost use Rattle.pgn_reader.specs.Words.{words_of};

use crate::fault::{GameFault, Reason};
use crate::token_machine::{Phase, Reader};
use cq_common::{NoMemory, Refusal};
use pgn_lexer::{Lexeme, LexemeKind, next_lexeme};
use std::alloc::Global;

// The reason of the fault at the end, if it is one.
fn fault_at_end(reader: &Reader) -> Option<Reason>
    ensures { result ≡ fault_at_end (reading_place_of (state_of reader.now)) }
{
    match reader.phase {
        Phase::Movetext => {
            if reader.around.is_empty() {
                None
            } else {
                Some(Reason::UnclosedVariation)
            }
        }
        Phase::AfterResult(_) => None,
        Phase::AfterBracket | Phase::AfterName | Phase::AfterValue => Some(Reason::BadTag),
    }
}

// Reads a lexeme; an escape line is skipped.
fn read_lexeme(reader: &mut Reader, alloc: Global, lexeme: &Lexeme) -> Result<(), Refusal<Reason>>
    requires low { IsLow (state_of reader.old) }
    requires few { moves_in (state_of reader.old) ≤ most_moves }
    ensures { StepsOver (state_of reader.old) lexeme.now.kind lexeme.now.text.now (state_of reader.new) result }
{
    match lexeme.kind {
        LexemeKind::EscapeLine => Ok(()),
        LexemeKind::Token(kind) => reader.feed(alloc, kind, lexeme.text),
    }
}

/// Returns the reader after the tokens of a game, or their first fault. Each token is read off the bytes as it is
/// needed.
///
/// # Errors
///
/// Fails only if out of memory.
pub fn read_tokens(
    alloc: Global,
    bytes: &[u8],
    start: u64,
    first: bool,
) -> Result<Result<Reader, GameFault>, NoMemory>
    requires size { length bytes.now ≤ longest }
    requires place { start < 2 ^ 62 }
    ensures { IfOk result (IsReading start first bytes.now) }
{
    let mut reader = Reader::new(alloc);
    let fault = read_all(&mut reader, alloc, bytes, start, first);
    game_or_fault(reader, fault)
}

// A reader, or its fault.
fn game_or_fault(
    reader: Reader,
    fault: Result<Option<GameFault>, NoMemory>,
) -> Result<Result<Reader, GameFault>, NoMemory>
    ensures { (start : ℕ) (first : Bool) (bytes : List ℕ)
        → IfOk fault (λ fault. MatchOption fault (IsWhole (words_of start first bytes) reader) (λ f. HasTokenFault start first bytes f))
        → IfOk result (IsReading start first bytes) }
{
    match fault? {
        Some(fault) => Ok(Err(fault)),
        None => Ok(Ok(reader)),
    }
}

// Reads the tokens of a game up to their first fault, with a reader that has read none. Returns the fault, if there is
// one.
fn read_all(
    reader: &mut Reader,
    alloc: Global,
    bytes: &[u8],
    start: u64,
    first: bool,
) -> Result<Option<GameFault>, NoMemory>
    requires size { length bytes.now ≤ longest }
    requires place { start < 2 ^ 62 }
    requires new { state_of reader.old ≡ start_state }
    ensures { IfOk result (λ fault. MatchOption fault (IsWhole (words_of start first bytes.now) reader.new)
        (λ f. HasTokenFault start first bytes.now f)) }
{
    let mut at = 0;
    while let Some(lexeme) = next_lexeme(bytes, at, first) {
        match read_lexeme(reader, alloc, &lexeme) {
            Ok(()) => at = lexeme.at + lexeme.text.len(),
            Err(Refusal::Fault(reason)) => {
                let byte = start + lexeme.at as u64;
                return Ok(Some(GameFault { byte, reason }));
            }
            Err(Refusal::NoMemory) => return Err(NoMemory),
        }
    }
    match fault_at_end(reader) {
        Some(reason) => {
            let byte = start + bytes.len() as u64;
            Ok(Some(GameFault { byte, reason }))
        }
        None => Ok(None),
    }
}
