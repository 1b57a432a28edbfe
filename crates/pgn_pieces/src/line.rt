//! The command line, for `clap`.
ghost use Rattle.std.specs.Prelude.{◌≡◌, IfOk, false};
ghost use Rattle.clap.specs.Words.{app_of, rule_of};
ghost use Rattle.pgn_pieces.specs.Line.{line, number_word, word};

use crate::job::BYTES_LIMIT;
use clap::builder::ValueParser;
use clap::{Arg, Command};
use std::alloc::{AllocError, Global};

// A required word, by its place.
fn word<'a>(alloc: Global, id: &'a str) -> Arg<'a>
    ensures rule { rule_of result ≡ word id.now }
    ensures local { result.global ≡ false }
{
    Arg::new(alloc, id).required(true)
}

// The same with a number from 1 to `most`.
fn number_word<'a>(alloc: Global, id: &'a str, most: u64) -> Arg<'a>
    ensures rule { rule_of result ≡ number_word id.now most }
    ensures local { result.global ≡ false }
{
    Arg::new(alloc, id)
        .required(true)
        .value_parser(ValueParser::Unsigned(1, most))
}

// The whole command line.
pub(crate) fn line<'a>(alloc: Global) -> Result<Command<'a>, AllocError>
    ensures { IfOk result (λ command. app_of command ≡ line) }
{
    Command::new(alloc, "pgnpieces")
        .no_binary_name(true)
        .disable_help_flag(true)
        .disable_version_flag(true)
        .arg(word(alloc, "archive"))?
        .arg(number_word(alloc, "bytes", BYTES_LIMIT))
}
