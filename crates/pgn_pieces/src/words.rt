//! From the words to a job.
ghost use Rattle.std.specs.Prelude.{◌≡◌, ◌≤◌, IfOk, IfSome, MatchResult, map, option_map, true};
ghost use Rattle.std.specs.String.{string_bytes};
ghost use Rattle.clap.specs.Words.{first_of, found_of, matches_of, rows_of, takes};
ghost use Rattle.pgn_pieces.specs.Line.{line};
ghost use Rattle.pgn_pieces.specs.Jobs.{Answers, HasMatches, IsRefused, job_of_words, job_in, number_of};

use crate::job::{BYTES_LIMIT, Job, WordsRefused};
use crate::line;
use clap::ArgMatches;
use clap::error::ErrorKind;
use cq_common::{Bytes, Refusal};
use std::alloc::Global;

// Returns the text of an argument, if it is given.
fn text_of<'a>(matches: &ArgMatches<'a>, id: &str) -> Option<&'a str>
    ensures { option_map (λ text. text.now) result ≡ first_of id.now (rows_of (found_of matches.now)) }
{
    matches.get_str(id)
}

// Returns the number that a text spells, or none if it spells no number from 1 to 2^40.
fn number_of(text: &str) -> Option<u64>
    ensures value { result ≡ number_of text.now }
    ensures bounds { IfSome result (λ number. (1 ≤ number) × (number ≤ 1099511627776)) }
{
    match text.parse::<u64>() {
        Ok(number) if 1 <= number && number <= BYTES_LIMIT => Some(number),
        _ => None,
    }
}

// Returns the matches that `clap` finds in the words.
fn matched<'a>(alloc: Global, words: &'a [String]) -> Result<ArgMatches<'a>, Refusal<WordsRefused>>
    ensures { MatchResult result (HasMatches (map string_bytes words.now)) (IsRefused (map string_bytes words.now)) }
{
    match line::line(alloc)?.try_get_matches_from(words) {
        Ok(matches) => Ok(matches),
        Err(error) if error.kind() == ErrorKind::OutOfMemory => Err(Refusal::NoMemory),
        Err(_) => Err(Refusal::Fault(WordsRefused)),
    }
}

// Returns the job of matches.
fn job_in(alloc: Global, matches: &ArgMatches<'_>) -> Result<Job, Refusal<WordsRefused>>
    ensures value { Answers (job_in (rows_of (found_of matches.now))) result }
    ensures range { IfOk result (λ job. (1 ≤ job.least) × (job.least ≤ 1099511627776)) }
{
    let (Some(archive), Some(bytes)) = (text_of(matches, "archive"), text_of(matches, "bytes"))
    else {
        return Err(Refusal::Fault(WordsRefused));
    };
    let Some(least) = number_of(bytes) else {
        return Err(Refusal::Fault(WordsRefused));
    };
    let archive = Bytes::from_slice(alloc, archive.as_bytes())?;
    Ok(Job { archive, least })
}

/// Returns the job of the words after the program's name.
///
/// # Errors
///
/// - `Fault`: `clap` finds a fault in the words.
/// - `NoMemory`: out of memory.
pub fn read_words(alloc: Global, words: &[String]) -> Result<Job, Refusal<WordsRefused>>
    ensures value { Answers (job_of_words (map string_bytes words.now)) result }
    ensures taken { takes line (map string_bytes words.now) ≡ true
        → Answers (job_in (matches_of line (map string_bytes words.now))) result }
    ensures range { IfOk result (λ job. (1 ≤ job.least) × (job.least ≤ 1099511627776)) }
{
    let matches = matched(alloc, words)?;
    job_in(alloc, &matches)
}
