//! The command line, for `clap`.
ghost use Rattle.std.specs.Prelude.{◌≡◌, IfOk, false};
ghost use Rattle.clap.specs.Words.{app_of, rule_of};
ghost use Rattle.pgn_json.specs.Line.{line, number_option, text_option, words_line};

use crate::job::{BYTES_LIMIT, WORKERS_LIMIT};
use clap::builder::ValueParser;
use clap::{Arg, Command};
use cq_common::NoMemory;
use std::alloc::Global;

// An option with a text.
fn text_option<'a>(alloc: Global, id: &'a str) -> Arg<'a>
    ensures rule { rule_of result ≡ text_option id.now }
    ensures local { result.global ≡ false }
{
    Arg::new(alloc, id).long(id)
}

// An option with one number from 1 to `most`.
fn number_option<'a>(alloc: Global, id: &'a str, most: u64) -> Arg<'a>
    ensures rule { rule_of result ≡ number_option id.now most }
    ensures local { result.global ≡ false }
{
    Arg::new(alloc, id)
        .long(id)
        .value_parser(ValueParser::Unsigned(1, most))
}

// The command line with its word by place.
fn words<'a>(alloc: Global) -> Result<Command<'a>, NoMemory>
    ensures { IfOk result (λ command. app_of command ≡ words_line) }
{
    let command = Command::new(alloc, "pgnjson")
        .no_binary_name(true)
        .disable_help_flag(true)
        .disable_version_flag(true)
        .arg(Arg::new(alloc, "archive"))?;
    Ok(command)
}

// The whole command line: the word by place and the options.
pub(crate) fn line<'a>(alloc: Global) -> Result<Command<'a>, NoMemory>
    ensures { IfOk result (λ command. app_of command ≡ line) }
{
    let command = words(alloc)?
        .arg(text_option(alloc, "mark"))?
        .arg(number_option(alloc, "workers", WORKERS_LIMIT))?
        .arg(number_option(alloc, "limit", BYTES_LIMIT))?;
    Ok(command)
}
