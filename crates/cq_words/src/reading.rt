//! From the words to a job.
ghost use Rattle.std.specs.Prelude.{◌≡◌, IfOk, MatchResult, map, true};
ghost use Rattle.std.specs.String.{string_bytes};
ghost use Rattle.clap.specs.Words.{found_of, matches_of, rows_of, takes};
ghost use Rattle.cq_words.specs.declared.mode.Mode.TheVariants as modes;
ghost use Rattle.cq_words.specs.Jobs.{Answers, IsInRange, job_of_words, job_by, job_in};
ghost use Rattle.cq_words.specs.Line.{line};
ghost use Rattle.cq_words.specs.Internal.Promises.{HasMatches, IsRefused};

use crate::job::{Job, WordsRefused};
use crate::line;
use crate::mode::{Mode, mode_of};
use crate::options::{
    archive_in, has_more, many_settings_in, self_run_settings_in, settings_in, text_of,
};
use clap::ArgMatches;
use clap::error::ErrorKind;
use cq_common::{Bytes, Refusal};
use std::alloc::Global;

// Returns the matches that `clap` finds in the words.
fn matched<'a>(alloc: Global, words: &'a [String]) -> Result<ArgMatches<'a>, Refusal<WordsRefused>>
    ensures { MatchResult result (HasMatches (map string_bytes words.now)) (IsRefused (map string_bytes words.now)) }
{
    match line::line(alloc)?.try_get_matches_from(words) {
        Ok(matches) => Ok(matches),
        Err(error) if error.kind() == ErrorKind::OutOfMemory => Err(Refusal::NoMemory),
        Err(_) => Err(Refusal::Fault(WordsRefused)),
    }
}

// The job of `run`.
fn run_job(
    alloc: Global,
    query: &str,
    matches: &ArgMatches<'_>,
) -> Result<Job, Refusal<WordsRefused>>
    ensures value { Answers (job_by modes.Run query.now (rows_of (found_of matches.now))) result }
    ensures ranges { IfOk result IsInRange }
{
    let Some(settings) = settings_in(matches) else {
        return Err(Refusal::Fault(WordsRefused));
    };
    Ok(Job::Run {
        query: Bytes::from_slice(alloc, query.as_bytes())?,
        archive: archive_in(alloc, matches)?,
        settings,
    })
}

// The job of `eval`.
fn eval_job(
    alloc: Global,
    query: &str,
    matches: &ArgMatches<'_>,
) -> Result<Job, Refusal<WordsRefused>>
    ensures value { Answers (job_by modes.Eval query.now (rows_of (found_of matches.now))) result }
    ensures ranges { IfOk result IsInRange }
{
    let Some(settings) = settings_in(matches) else {
        return Err(Refusal::Fault(WordsRefused));
    };
    Ok(Job::Eval {
        text: Bytes::from_slice(alloc, query.as_bytes())?,
        archive: archive_in(alloc, matches)?,
        settings,
    })
}

// The job of `check`.
fn check_job(
    alloc: Global,
    query: &str,
    matches: &ArgMatches<'_>,
) -> Result<Job, Refusal<WordsRefused>>
    ensures value { Answers (job_by modes.Check query.now (rows_of (found_of matches.now))) result }
    ensures ranges { IfOk result IsInRange }
{
    if has_more(matches) {
        return Err(Refusal::Fault(WordsRefused));
    }
    let query = Bytes::from_slice(alloc, query.as_bytes())?;
    Ok(Job::Check { query })
}

// The job of `explain`.
fn explain_job(
    alloc: Global,
    query: &str,
    matches: &ArgMatches<'_>,
) -> Result<Job, Refusal<WordsRefused>>
    ensures value { Answers (job_by modes.Explain query.now (rows_of (found_of matches.now))) result }
    ensures ranges { IfOk result IsInRange }
{
    if has_more(matches) {
        return Err(Refusal::Fault(WordsRefused));
    }
    let query = Bytes::from_slice(alloc, query.as_bytes())?;
    Ok(Job::Explain { query })
}

// The job of `selfrun`.
fn self_run_job(
    alloc: Global,
    query: &str,
    matches: &ArgMatches<'_>,
) -> Result<Job, Refusal<WordsRefused>>
    ensures value { Answers (job_by modes.SelfRun query.now (rows_of (found_of matches.now))) result }
    ensures ranges { IfOk result IsInRange }
{
    let Some(settings) = self_run_settings_in(matches) else {
        return Err(Refusal::Fault(WordsRefused));
    };
    Ok(Job::SelfRun {
        text: Bytes::from_slice(alloc, query.as_bytes())?,
        settings,
    })
}

// The job of `many`.
fn many_job(
    alloc: Global,
    queries: &str,
    matches: &ArgMatches<'_>,
) -> Result<Job, Refusal<WordsRefused>>
    ensures value { Answers (job_by modes.Many queries.now (rows_of (found_of matches.now))) result }
    ensures ranges { IfOk result IsInRange }
{
    let Some(settings) = many_settings_in(matches) else {
        return Err(Refusal::Fault(WordsRefused));
    };
    Ok(Job::Many {
        queries: Bytes::from_slice(alloc, queries.as_bytes())?,
        archive: archive_in(alloc, matches)?,
        settings,
    })
}

// The job of a mode and a query, or a file of queries.
fn job_by(
    alloc: Global,
    mode: Mode,
    query: &str,
    matches: &ArgMatches<'_>,
) -> Result<Job, Refusal<WordsRefused>>
    ensures value { Answers (job_by mode query.now (rows_of (found_of matches.now))) result }
    ensures ranges { IfOk result IsInRange }
{
    match mode {
        Mode::Run => run_job(alloc, query, matches),
        Mode::Eval => eval_job(alloc, query, matches),
        Mode::Check => check_job(alloc, query, matches),
        Mode::Explain => explain_job(alloc, query, matches),
        Mode::SelfRun => self_run_job(alloc, query, matches),
        Mode::Many => many_job(alloc, query, matches),
    }
}

// Returns the job of matches that keep the rules.
fn job_in(alloc: Global, matches: &ArgMatches<'_>) -> Result<Job, Refusal<WordsRefused>>
    ensures value { Answers (job_in (rows_of (found_of matches.now))) result }
    ensures ranges { IfOk result IsInRange }
{
    let (Some(word), Some(query)) = (text_of(matches, "mode"), text_of(matches, "query")) else {
        return Err(Refusal::Fault(WordsRefused));
    };
    match mode_of(word) {
        Some(mode) => job_by(alloc, mode, query, matches),
        None => Err(Refusal::Fault(WordsRefused)),
    }
}

/// Returns the job of the words after the program's name.
///
/// # Errors
///
/// - `Fault`: `clap` finds a fault in the words, or its matches break a rule: on the mode, the archive, or the options of a mode.
/// - `NoMemory`: out of memory.
pub fn read_words(alloc: Global, words: &[String]) -> Result<Job, Refusal<WordsRefused>>
    ensures value { Answers (job_of_words (map string_bytes words.now)) result }
    ensures taken { takes line (map string_bytes words.now) ≡ true
        → Answers (job_in (matches_of line (map string_bytes words.now))) result }
    ensures ranges { IfOk result IsInRange }
{
    let matches = matched(alloc, words)?;
    job_in(alloc, &matches)
}
