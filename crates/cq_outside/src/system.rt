//! The system calls of the real edge: one read, one write, one opening of a file, and the words of the process. The results of such a call
//! are a relation that only the call itself provides. Code generic over these traits therefore can't pretend that the system failed, opened
//! another file, or gave other words.
ghost use Rattle.std.specs.Prelude.{◌≤◌, List, ℕ, None, Option, Result, length, map, Ok, Err, IfOk, OnErr, MatchResult};
ghost use Rattle.std.specs.Io.KnownBytes.{ReadConsumes, WriteAppends};
ghost use Rattle.std.specs.String.{string_bytes};
ghost use Rattle.std.specs.Vec.Iter.{into_iter_items};
ghost use Rattle.cq_outside.specs.Edge.{IsOneMore, Stream};
ghost use Rattle.cq_common.specs.declared.faults.Failed.{Failed as Failure};
ghost use Rattle.cq_outside.specs.declared.system.WordsFault.{WordsFault as Fault};

use cq_common::Failed;
use std::env::Args;
use std::io::{ErrorKind, Read, Write};
use std::rt::{Env, Files};
use std::{env, fs};

/// A stream of the system for reading.
pub trait Reader: Drop {
    /// The bytes left, if the reader tells them.
    ghost left: { Self → Option (List ℕ) };

    /// The number of reads, if the reader tells it.
    ghost reads: { Self → Option ℕ };

    /// The possible results of one read of a reader in this state.
    ghost gave: { Stream → Result ℕ Failure → Type 0 };

    /// Reads once, some bytes to the start of `buf`.
    ///
    /// # Errors
    ///
    /// Returns `Failed` on any error of the system, an interrupted read among them.
    fn read_once(&mut self, buf: &mut [u8]) -> Result<usize, Failed>
        ensures bound { IfOk result (λ n. n ≤ length buf.old) }
        ensures bytes { ReadConsumes (left self.old) (left self.new) result buf.new }
        ensures gave { gave (record { left = left self.old; reads = reads self.old }) result }
        ensures counted { IsOneMore (reads self.old) (reads self.new) };
}

impl<I: Read + Drop> Reader for I {
    ghost left = { I.remaining };

    ghost reads = { λ _. None };

    ghost gave = { λ _ _. Unit {0} };

    fn read_once(&mut self, buf: &mut [u8]) -> Result<usize, Failed> {
        self.read(buf).map_err(|_| Failed)
    }
}

/// A stream of the system for writing.
pub trait Writer: Drop {
    /// The bytes that the stream holds, if the writer tells them.
    ghost holds: { Self → Option (List ℕ) };

    /// The possible results of one write of some bytes, by the bytes that the writer held.
    ghost gave: { Option (List ℕ) → List ℕ → Result ℕ Failure → Type 0 };

    /// Writes once, some bytes from the start of `bytes`.
    ///
    /// # Errors
    ///
    /// Returns `Failed` on any error of the system, an interrupted write among them.
    fn write_once(&mut self, bytes: &[u8]) -> Result<usize, Failed>
        ensures bound { IfOk result (λ n. n ≤ length bytes.now) }
        ensures bytes { WriteAppends (holds self.old) (holds self.new) result bytes.now }
        ensures gave { gave (holds self.old) bytes.now result };
}

impl<W: Write + Drop> Writer for W {
    ghost holds = { W.contents };

    ghost gave = { λ _ _ _. Unit {0} };

    fn write_once(&mut self, bytes: &[u8]) -> Result<usize, Failed> {
        self.write(bytes).map_err(|_| Failed)
    }
}

/// The files of the system by name.
pub trait FileSystem: Drop {
    type File: Reader;

    /// A file of this name was opened, in this state.
    ghost opened: { List ℕ → Stream → Type 0 };

    /// No file of this name could be opened.
    ghost refused: { List ℕ → Type 0 };

    /// The number of openings, if the system tells it.
    ghost openings: { Self → Option ℕ };

    /// Opens the file of this name for reading.
    ///
    /// # Errors
    ///
    /// Returns `Failed` if the system can't open the file.
    fn open_file(&mut self, name: &str) -> Result<Self::File, Failed>
        ensures opened { IfOk result (λ file. opened name.now (record { left = Self.File.left file; reads = Self.File.reads file })) }
        ensures refused { OnErr result (refused name.now) }
        ensures counted { IsOneMore (openings self.old) (openings self.new) };
}

impl<R: Files + Drop> FileSystem for R {
    type File = R::File;

    ghost opened = { λ _ _. Unit {0} };

    ghost refused = { λ _. Unit {0} };

    ghost openings = { λ _. None };

    fn open_file(&mut self, name: &str) -> Result<R::File, Failed> {
        fs::open(self, name).map_err(|_| Failed)
    }
}

/// The reasons for which the system gives no words.
#[derive(Clone, Copy, Debug, PartialEq, Eq)]
pub enum WordsFault {
    /// A word is not UTF-8.
    NoText,
    /// Memory ran out.
    NoMemory,
}

/// The words of the process.
pub trait Words {
    /// The possible results of one call: the program's name with the words after it, or a fault.
    ghost gave: { Result (List (List ℕ)) Fault → Type 0 };

    /// The program's name, and then the words after it.
    ///
    /// # Errors
    ///
    /// Returns `WordsFault::NoText` if a word is not UTF-8, and `WordsFault::NoMemory` if memory runs out.
    fn words_once(&self) -> Result<Args, WordsFault>
        ensures gave { MatchResult result (λ words. gave (Ok (map string_bytes (into_iter_items words)))) (λ fault. gave (Err fault)) };
}

impl<R: Env + AllocGlobal> Words for R {
    ghost gave = { λ _. Unit {0} };

    fn words_once(&self) -> Result<Args, WordsFault> {
        env::args(self).map_err(|fault| match fault.kind() {
            ErrorKind::OutOfMemory => WordsFault::NoMemory,
            _ => WordsFault::NoText,
        })
    }
}
