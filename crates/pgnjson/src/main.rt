//! `pgnjson`: the games of an archive as lines of JSON.
#![tactic(auto)]

use cq_outside::system::{Words, WordsFault};
use cq_outside::{FileDesk, StdSink, command_words};
use pgn_json::{answer_command, refuse_command};
use std::process::ExitCode;

// The desk and the sinks of the system are made here and handed over. The contract of `answer_command` says the rest.
fn main(rt: HostRuntime) -> ExitCode {
    let alloc = rt.alloc();
    let mut desk = FileDesk::new(alloc, rt, rt.stdin()).unwrap();
    let mut out = StdSink::new(alloc, rt.stdout()).unwrap();
    let mut err = StdSink::new(alloc, rt.stderr()).unwrap();
    if let Err(WordsFault::NoText) = rt.words_once() {
        return ExitCode::from(refuse_command(&mut err));
    }
    let words = command_words(&rt);
    ExitCode::from(answer_command(&rt, alloc, words, &mut desk, &mut out, &mut err))
}
