//! The command line, for `clap`.
ghost use Rattle.std.specs.Prelude.{◌≡◌, IfOk, false};
ghost use Rattle.clap.specs.Words.{App, app_of, rule_of, with_rule};
ghost use Rattle.clap.specs.Walk.{Rule};
ghost use Rattle.cq_words.specs.Line.{flag, line, number_option, required_word, words_line};

use crate::job::{BYTES_LIMIT, GAMES_LIMIT, SEED_LIMIT, WORKERS_LIMIT};
use clap::builder::ValueParser;
use clap::{Arg, ArgAction, Command};
use std::alloc::{AllocError, Global};

// A required word, by its place.
fn required_word<'a>(alloc: Global, id: &'a str) -> Arg<'a>
    ensures rule { rule_of result ≡ required_word id.now }
    ensures local { result.global ≡ false }
{
    Arg::new(alloc, id).required(true)
}

// An option with one number from `least` to `most`.
fn number_option<'a>(alloc: Global, id: &'a str, least: u64, most: u64) -> Arg<'a>
    ensures rule { rule_of result ≡ number_option id.now least most }
    ensures local { result.global ≡ false }
{
    Arg::new(alloc, id)
        .long(id)
        .value_parser(ValueParser::Unsigned(least, most))
}

// An option without a value.
fn flag<'a>(alloc: Global, id: &'a str) -> Arg<'a>
    ensures rule { rule_of result ≡ flag id.now }
    ensures local { result.global ≡ false }
{
    Arg::new(alloc, id).long(id).action(ArgAction::SetTrue)
}

// Adds an argument to a command, unless out of memory. A command is large, so no function returns early while the line is made.
fn with_arg<'a>(
    command: Result<Command<'a>, AllocError>,
    arg: Arg<'a>,
) -> Result<Command<'a>, AllocError>
    requires { arg.global ≡ false }
    ensures { (app : App) (rule : Rule) → rule_of arg.entry ≡ rule → IfOk command.entry (λ was. app_of was ≡ app)
        → IfOk result (λ more. app_of more ≡ with_rule app rule) }
{
    command?.arg(arg)
}

// The command line with its words by place.
fn words<'a>(alloc: Global) -> Result<Command<'a>, AllocError>
    ensures { IfOk result (λ command. app_of command ≡ words_line) }
{
    let command = Command::new(alloc, "cqlpgn")
        .no_binary_name(true)
        .disable_help_flag(true)
        .disable_version_flag(true);
    let command = with_arg(Ok(command), required_word(alloc, "mode"));
    let command = with_arg(command, required_word(alloc, "query"));
    with_arg(command, Arg::new(alloc, "archive"))
}

// The whole command line: the words by place and the options.
pub(crate) fn line<'a>(alloc: Global) -> Result<Command<'a>, AllocError>
    ensures { IfOk result (λ command. app_of command ≡ line) }
{
    let command = words(alloc);
    let command = with_arg(command, number_option(alloc, "workers", 1, WORKERS_LIMIT));
    let command = with_arg(command, number_option(alloc, "seed", 0, SEED_LIMIT));
    let command = with_arg(command, number_option(alloc, "games", 0, GAMES_LIMIT));
    let command = with_arg(command, number_option(alloc, "limit", 1, BYTES_LIMIT));
    with_arg(command, flag(alloc, "first"))
}
