//! From the words to a job.
ghost use Rattle.std.specs.Prelude.{◌≡◌, ◌≤◌, IfOk, IfSome, MatchResult, map, option_map, true};
ghost use Rattle.std.specs.String.{string_bytes};
ghost use Rattle.clap.specs.Words.{first_of, found_of, matches_of, rows_of, takes};
ghost use Rattle.pgn_json.specs.Line.{line};
ghost use Rattle.pgn_json.specs.Jobs.{Answers, HasMatches, IsInRange, IsRefused, archive_in, job_of_words, job_in, mark_in, number_of, number_or};

use crate::job::{BYTES_LIMIT, Job, WORKERS_LIMIT, WordsRefused};
use crate::line;
use clap::ArgMatches;
use clap::error::ErrorKind;
use cq_common::{Bytes, NoMemory, Refusal};
use std::alloc::Global;

// Returns the text of an argument, if it is given.
fn text_of<'a>(matches: &ArgMatches<'a>, id: &str) -> Option<&'a str>
    ensures { option_map (λ text. text.now) result ≡ first_of id.now (rows_of (found_of matches.now)) }
{
    matches.get_str(id)
}

// Returns the number that a text spells, or none if it spells no number from `least` to `most`.
fn number_of(text: &str, least: u64, most: u64) -> Option<u64>
    ensures value { result ≡ number_of least most text.now }
    ensures bounds { IfSome result (λ number. (least ≤ number) × (number ≤ most)) }
{
    match text.parse::<u64>() {
        Ok(number) if least <= number && number <= most => Some(number),
        _ => None,
    }
}

// Returns the number of an option, or its default. Returns none if its text spells no number from 1 to `most`.
fn number_in(matches: &ArgMatches<'_>, id: &str, most: u64, default: u64) -> Option<u64>
    requires { (1 ≤ default) × (default ≤ most) }
    ensures value { result ≡ number_or default most (first_of id.now (rows_of (found_of matches.now))) }
    ensures bounds { IfSome result (λ number. (1 ≤ number) × (number ≤ most)) }
{
    match text_of(matches, id) {
        Some(text) => number_of(text, 1, most),
        None => Some(default),
    }
}

// Returns the name of the archive, which is standard input if no word gives one.
fn archive_in(alloc: Global, matches: &ArgMatches<'_>) -> Result<Bytes, NoMemory>
    ensures { IfOk result (λ name. name ≡ archive_in (rows_of (found_of matches.now))) }
{
    let name = text_of(matches, "archive").unwrap_or("-");
    Bytes::from_slice(alloc, name.as_bytes())
}

// Returns the comment that marks.
fn mark_in(alloc: Global, matches: &ArgMatches<'_>) -> Result<Bytes, NoMemory>
    ensures { IfOk result (λ mark. mark ≡ mark_in (rows_of (found_of matches.now))) }
{
    let mark = text_of(matches, "mark").unwrap_or("CQL");
    Bytes::from_slice(alloc, mark.as_bytes())
}

// Returns the matches that `clap` finds in the words.
fn matched<'a>(alloc: Global, words: &'a [String]) -> Result<ArgMatches<'a>, Refusal<WordsRefused>>
    ensures { MatchResult result (HasMatches (map string_bytes words.now)) (IsRefused (map string_bytes words.now)) }
{
    match line::line(alloc)?.try_get_matches_from(words) {
        Ok(matches) => Ok(matches),
        Err(error) if error.kind() == ErrorKind::OutOfMemory => Err(Refusal::NoMemory),
        Err(_) => Err(Refusal::Fault(WordsRefused)),
    }
}

// Returns the job of matches.
fn job_in(alloc: Global, matches: &ArgMatches<'_>) -> Result<Job, Refusal<WordsRefused>>
    ensures value { Answers (job_in (rows_of (found_of matches.now))) result }
    ensures range { IfOk result IsInRange }
{
    let Some(workers) = number_in(matches, "workers", WORKERS_LIMIT, 4) else {
        return Err(Refusal::Fault(WordsRefused));
    };
    let Some(limit) = number_in(matches, "limit", BYTES_LIMIT, BYTES_LIMIT) else {
        return Err(Refusal::Fault(WordsRefused));
    };
    Ok(Job {
        archive: archive_in(alloc, matches)?,
        mark: mark_in(alloc, matches)?,
        workers: workers as u32,
        limit,
    })
}

/// Returns the job of the words after the program's name.
///
/// # Errors
///
/// - `Fault`: `clap` finds a fault in the words.
/// - `NoMemory`: out of memory.
pub fn read_words(alloc: Global, words: &[String]) -> Result<Job, Refusal<WordsRefused>>
    ensures value { Answers (job_of_words (map string_bytes words.now)) result }
    ensures taken { takes line (map string_bytes words.now) ≡ true
        → Answers (job_in (matches_of line (map string_bytes words.now))) result }
    ensures range { IfOk result IsInRange }
{
    let matches = matched(alloc, words)?;
    job_in(alloc, &matches)
}
