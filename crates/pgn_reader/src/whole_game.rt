//! The reading of a whole game.
ghost use Rattle.std.specs.Prelude.{◌≡◌, ◌<◌, ◌+◌, ◌^◌, List, length, Err, IfOk};
ghost use Rattle.pgn_reader.specs.Words.{Word};
ghost use Rattle.pgn_reader.specs.Tags.{result_of_tags};
ghost use Rattle.pgn_reader.specs.Internal.Reading.{IsWhole, ending_by, game_of};
ghost use Rattle.cq_common.specs.declared.faults.Refusal.TheVariants.{Fault as IsFault};
ghost use Rattle.pgn_reader.specs.declared.fault.Reason.TheVariants.{GameTooLong as IsTooLong};
ghost use Rattle.pgn_reader.specs.Limits.{longest};
ghost use Rattle.pgn_reader.specs.Verdict.{IsReadOrNoMemory};

use crate::all_tokens::read_tokens;
use crate::build::game_of_rows;
use crate::fault::{GameFault, Reason};
use crate::text::result_of_text;
use crate::token_machine::{Phase, Reader};
use cq_common::{NoMemory, Refusal};
use cq_position::GameResult;
use pgn_tree::{Game, Tags};
use std::alloc::Global;

/// The largest size of a game in bytes.
const LONGEST: usize = 1 << 24;

// The result of the marker, or without one that of the tags.
fn ending_of(reader: &Reader) -> GameResult
    ensures { result ≡ ending_by reader.now.phase reader.now.tag_section.tags }
{
    match reader.phase {
        Phase::AfterResult(ending) => ending,
        _ => result_of_tags(reader.tag_section.tags()),
    }
}

// The result of the tag Result, if it is the text of one.
#[tactic(auto, unfolding(crate::specs::Tags::result_of_tags))]
fn result_of_tags(tags: &Tags) -> GameResult
    ensures { result ≡ result_of_tags tags.now }
{
    match tags.get(b"Result") {
        Some(text) => result_of_text(text).unwrap_or(GameResult::Open),
        None => GameResult::Open,
    }
}

// The game of which all tokens were read.
fn into_game(alloc: Global, reader: Reader) -> Result<Game, NoMemory>
    requires { (ts : List Word) × IsWhole ts reader }
    ensures { IfOk result (λ g. g ≡ game_of reader) }
{
    let ending = ending_of(&reader);
    // A property of every position: the moves of the game lead from it.
    prove!(reader.tag_section.start().is_position());
    let rows = reader.line.into_rows()?;
    game_of_rows(alloc, reader.tag_section.into_tags(), ending, rows)
}

/// Returns the game that the bytes spell (PGN standard, sections 8.1 and 8.2).
///
/// `start` is the place of the first byte in the archive, from which the place of a fault counts. `first` is true
/// if that byte is in the first column. Bytes that spell a game spell no other. The nodes of the game are in preorder:
/// a move, the moves played after it, and then the variations that replace it.
///
/// # Errors
///
/// - A [`GameFault`]: the first fault of the bytes. It is at the first token such that no game begins with the tokens
///   up to it, or at the move that makes one position too many. It is at the game's end if the tokens only begin a
///   game. A game of more than 2^24 bytes has the fault of its length before all others, as this takes no memory.
/// - `NoMemory`: out of memory.
pub fn read_game(
    alloc: Global,
    bytes: &[u8],
    start: u64,
    first: bool,
) -> Result<Game, Refusal<GameFault>>
    requires { start < 2 ^ 62 }
    ensures verdict { IsReadOrNoMemory start first bytes.now result }
    ensures long { longest < length bytes.now → result ≡ Err (IsFault (record { byte = start + longest; reason = IsTooLong })) }
{
    if bytes.len() > LONGEST {
        return Err(Refusal::Fault(GameFault {
            byte: start + LONGEST as u64,
            reason: Reason::GameTooLong,
        }));
    }
    match read_tokens(alloc, bytes, start, first)? {
        Ok(reader) => Ok(into_game(alloc, reader)?),
        Err(fault) => Err(Refusal::Fault(fault)),
    }
}
