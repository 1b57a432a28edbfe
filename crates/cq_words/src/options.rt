//! The values of each argument, from the matches.
ghost use Rattle.std.specs.Prelude.{◌≡◌, ◌≤◌, IfSome, IfOk, option_map};
ghost use Rattle.clap.specs.Words.{first_of, found_of, rows_of};
ghost use Rattle.cq_words.specs.Jobs.{AreInRange, archive_in, has_more, is_given, is_set, many_settings_in, number_of, number_or, self_run_settings_in, settings_in, workers_in};

use crate::job::{
    BYTES_LIMIT, DEFAULT_GAMES, DEFAULT_SEED, DEFAULT_WORKERS, GAMES_LIMIT, SEED_LIMIT,
    SelfRunSettings, Settings, WORKERS_LIMIT,
};
use clap::ArgMatches;
use cq_common::{Bytes, NoMemory};
use std::alloc::Global;

// Returns the text of an argument, if it is given.
pub(crate) fn text_of<'a>(matches: &ArgMatches<'a>, id: &str) -> Option<&'a str>
    ensures { option_map (λ text. text.now) result ≡ first_of id.now (rows_of (found_of matches.now)) }
{
    matches.get_str(id)
}

// Returns true if an argument is given.
fn is_given(matches: &ArgMatches<'_>, id: &str) -> bool
    ensures { result ≡ is_given (rows_of (found_of matches.now)) id.now }
{
    text_of(matches, id).is_some()
}

// Returns true if an option without a value is given.
fn is_set(matches: &ArgMatches<'_>, id: &str) -> bool
    ensures { result ≡ is_set (rows_of (found_of matches.now)) id.now }
{
    match text_of(matches, id) {
        Some(text) => text == "true",
        None => false,
    }
}

// Returns the number that a text spells, or none if it spells no number from `least` to `most`.
fn number_of(text: &str, least: u64, most: u64) -> Option<u64>
    ensures value { result ≡ number_of least most text.now }
    ensures bounds { IfSome result (λ number. (least ≤ number) × (number ≤ most)) }
{
    match text.parse::<u64>() {
        Ok(number) if least <= number && number <= most => Some(number),
        _ => None,
    }
}

// Returns the number of an option, or its default. Returns none if its text spells no number from `least` to `most`.
fn number_in(matches: &ArgMatches<'_>, id: &str, least: u64, most: u64, default: u64) -> Option<u64>
    requires { (least ≤ default) × (default ≤ most) }
    ensures value { result ≡ number_or default least most (first_of id.now (rows_of (found_of matches.now))) }
    ensures bounds { IfSome result (λ number. (least ≤ number) × (number ≤ most)) }
{
    match text_of(matches, id) {
        Some(text) => number_of(text, least, most),
        None => Some(default),
    }
}

// Returns the number of workers.
fn workers_in(matches: &ArgMatches<'_>) -> Option<u32>
    ensures value { result ≡ workers_in (rows_of (found_of matches.now)) }
    ensures bounds { IfSome result (λ number. (1 ≤ number) × (number ≤ 64)) }
{
    Some(number_in(matches, "workers", 1, WORKERS_LIMIT, DEFAULT_WORKERS)? as u32)
}

// Returns the settings of `run` and `eval`, or none if an option is given that they don't take.
pub(crate) fn settings_in(matches: &ArgMatches<'_>) -> Option<Settings>
    ensures value { result ≡ settings_in (rows_of (found_of matches.now)) }
    ensures bounds { IfSome result AreInRange }
{
    if is_given(matches, "seed") || is_given(matches, "games") {
        return None;
    }
    let workers = workers_in(matches)?;
    let limit = number_in(matches, "limit", 1, BYTES_LIMIT, BYTES_LIMIT)?;
    let first = is_set(matches, "first");
    Some(Settings {
        workers,
        limit,
        first,
    })
}

// Returns the settings of `many`, or none if an option is given that it doesn't take.
pub(crate) fn many_settings_in(matches: &ArgMatches<'_>) -> Option<Settings>
    ensures value { result ≡ many_settings_in (rows_of (found_of matches.now)) }
    ensures bounds { IfSome result AreInRange }
{
    if is_set(matches, "first") {
        return None;
    }
    settings_in(matches)
}

// Returns the settings of `selfrun`, or none if an archive is given, or an option that it doesn't take.
pub(crate) fn self_run_settings_in(matches: &ArgMatches<'_>) -> Option<SelfRunSettings>
    ensures value { result ≡ self_run_settings_in (rows_of (found_of matches.now)) }
    ensures bounds { IfSome result (λ m. (m.seed ≤ 4294967295) × (m.games ≤ 100000) × (1 ≤ m.workers) × (m.workers ≤ 64)) }
{
    if is_given(matches, "archive") || is_given(matches, "limit") || is_set(matches, "first") {
        return None;
    }
    let workers = workers_in(matches)?;
    let seed = number_in(matches, "seed", 0, SEED_LIMIT, DEFAULT_SEED)? as u32;
    let games = number_in(matches, "games", 0, GAMES_LIMIT, DEFAULT_GAMES)? as u32;
    Some(SelfRunSettings {
        seed,
        games,
        workers,
    })
}

// Returns true if an archive or an option is given.
pub(crate) fn has_more(matches: &ArgMatches<'_>) -> bool
    ensures { result ≡ has_more (rows_of (found_of matches.now)) }
{
    is_given(matches, "archive")
        || is_given(matches, "workers")
        || is_given(matches, "seed")
        || is_given(matches, "games")
        || is_given(matches, "limit")
        || is_set(matches, "first")
}

// Returns the name of the archive, which is standard input if no word gives one.
pub(crate) fn archive_in(alloc: Global, matches: &ArgMatches<'_>) -> Result<Bytes, NoMemory>
    ensures { IfOk result (λ name. name ≡ archive_in (rows_of (found_of matches.now))) }
{
    let name = text_of(matches, "archive").unwrap_or("-");
    Bytes::from_slice(alloc, name.as_bytes())
}
