//! The trusted edge: a desk over the real files, and a sink over a real stream. They tell their bytes as far as their readers and their
//! writer tell them. Each call returns the result of one call of the system.
ghost use Rattle.std.specs.Prelude.{◌≡◌, ◌≤◌, ◌<◌, ◌↔◌, None, length, codes, IsTrue, IfOk, IfSome, IsOk, IsNone, OnOk, OnErr, IsUtf8};
ghost use Rattle.std.specs.Io.KnownBytes.{ReadConsumes, WriteAppends};
ghost use Rattle.cq_outside.specs.Edge.{bytes_left, open_stream, with_stream, CountsOpening, IsOneMore, IsOpened, IsReadOf, IsOpenedBy, IsWriteOf, ReadsOn};
ghost use Rattle.cq_outside.specs.Faults.{HasCause, counted};
ghost use Rattle.cq_outside.specs.declared.edge.OpenInput.TheVariants.{Nothing};

use crate::desk::Desk;
use crate::sink::Sink;
use crate::source::Source;
use crate::system::{FileSystem, Reader, Writer};
use cq_common::{Failed, NoMemory, OpenFault};
use std::alloc::Global;
use std::marker::Model;
use std::str;

/// The name of standard input.
const STANDARD_INPUT: &[u8] = b"-";

/// The open input of the desk.
#[derive(Drop)]
enum OpenInput<F> {
    Nothing,
    Input,
    File(F),
}

impl<F: Drop> OpenInput<F> {
    // Replaces the open input.
    fn set(&mut self, next: OpenInput<F>)
        ensures { self.new ≡ next }
    {
        *self = next;
    }
}

/// A desk over the real files. It opens the name `-` as standard input. A name that is not UTF-8 has no file.
///
/// Contracts see its counts of faults, each of which stops at the last value of a `u64`, and the open input. They also see the number of
/// openings, and of standard input and the open input the bytes left and the number of reads, as far as these are told.
#[derive(Drop)]
pub struct FileDesk<R: FileSystem, I: Reader> {
    files: R,
    input: I,
    current: OpenInput<R::File>,
    read_faults: u64,
    open_faults: u64,
}

impl<R: FileSystem, I: Reader> Model for FileDesk<R, I> {
    ghost use Rattle.cq_outside.specs.Edge.{RealDesk};
    ghost use Rattle.cq_outside.specs.declared.edge.OpenInput.TheVariants.{Nothing, Input, File};

    ghost Value = { RealDesk };

    ghost view = { λ d. record {
      read_faults = d.read_faults;
      open_faults = d.open_faults;
      openings = R.openings d.files;
      input = record { left = I.left d.input; reads = I.reads d.input };
      current = elim d.current [
        | Nothing ↦ Nothing
        | Input ↦ Input
        | File file ↦ File (record { left = R.File.left file; reads = R.File.reads file })
      ];
    } };
}

impl<R: FileSystem, I: Reader> FileDesk<R, I> {
    /// A desk on which nothing is open, over the runtime's files and its standard input. It takes no memory.
    ///
    /// # Errors
    ///
    /// None: the result is always `Ok`.
    pub fn new(_alloc: Global, files: R, input: I) -> Result<FileDesk<R, I>, NoMemory>
        ensures { result ≡ Ok (record {
          read_faults = 0;
          open_faults = 0;
          openings = R.openings files;
          input = record { left = I.left input; reads = I.reads input };
          current = Nothing;
        }) }
    {
        Ok(FileDesk {
            files,
            input,
            current: OpenInput::Nothing,
            read_faults: 0,
            open_faults: 0,
        })
    }
}

impl<R: FileSystem, I: Reader> Source for FileDesk<R, I> {
    ghost left = { bytes_left };

    ghost faults = { λ d. d.read_faults };

    ghost follows = { ReadsOn };

    fn read(&mut self, buf: &mut [u8]) -> Result<usize, Failed>
        ensures bound { IfOk result (λ n. n ≤ length buf.old) }
        ensures bytes { ReadConsumes (bytes_left self.old) (bytes_left self.new) result buf.new }
        ensures cause { HasCause self.old.read_faults self.new.read_faults result }
        ensures same { self.new
            ≡ with_stream (record self.old { read_faults = counted self.old.read_faults result }) (open_stream self.new) }
        ensures asked { IsOneMore (open_stream self.old).reads (open_stream self.new).reads }
        ensures gave { IsReadOf I.gave R.File.gave self.old result }
    {
        let moved = match &mut self.current {
            OpenInput::Nothing => Ok(0),
            OpenInput::Input => self.input.read_once(buf),
            OpenInput::File(file) => file.read_once(buf),
        };
        if let Ok(n) = moved {
            return Ok(n);
        }
        self.read_faults = self.read_faults.saturating_add(1);
        Err(Failed)
    }

    ghost use Rattle.cq_outside.specs.EdgeLaws.{follows_itself, follows_on};

    ghost follows_same = { follows_itself };

    ghost follows_on = { follows_on };

    ghost never_falls = { λ s t f. f.0 };
}

impl<R: FileSystem, I: Reader> Desk for FileDesk<R, I> {
    ghost told = { λ _. None };

    ghost open_faults = { λ d. d.open_faults };

    fn open(&mut self, _alloc: Global, name: &[u8]) -> Result<(), OpenFault>
        ensures input { name.now ≡ codes "-" → IsOk result }
        ensures text { OnOk result (IsUtf8 name.now) }
        ensures failed { OnErr result (result ≡ Err OpenFault.Failed) }
        ensures cause { HasCause self.old.open_faults self.new.open_faults result }
        ensures opened { OnOk result (IsOpened name.now self.new.current) }
        ensures same { self.new ≡ record self.old {
          open_faults = counted self.old.open_faults result;
          openings = self.new.openings;
          current = self.new.current;
        } }
        ensures asked { CountsOpening name.now self.old.openings self.new.openings }
        ensures kept { OnErr result (self.new.current ≡ self.old.current) }
        ensures gave { IsOpenedBy R.opened R.refused name.now self.new result }
    {
        if is_standard_input(name) {
            self.current.set(OpenInput::Input);
            return Ok(());
        }
        if let Some(file) = file_named(&mut self.files, name) {
            self.current.set(OpenInput::File(file));
            return Ok(());
        }
        self.open_faults = self.open_faults.saturating_add(1);
        Err(OpenFault::Failed)
    }

    ghost use Rattle.std.proofs.Common.{refl};
    ghost use Rattle.cq_outside.specs.EdgeLaws.{same_open_faults};

    ghost keeps_told = { λ s t f. refl };

    ghost keeps_open_faults = { same_open_faults };
}

// Returns true for the name of standard input.
fn is_standard_input(name: &[u8]) -> bool
    ensures { IsTrue result ↔ (name.now ≡ codes "-") }
{
    name == STANDARD_INPUT
}

// The file of this name, opened for reading. A name that is not UTF-8 has none.
fn file_named<R: FileSystem>(files: &mut R, name: &[u8]) -> Option<R::File>
    ensures opened { IfSome result (λ file. IsUtf8 name.now
        × R.opened name.now (record { left = R.File.left file; reads = R.File.reads file })) }
    ensures refused { IsNone result → IsUtf8 name.now → R.refused name.now }
    ensures text { IsUtf8 name.now → IsOneMore (R.openings files.old) (R.openings files.new) }
    ensures no_text { (IsUtf8 name.now → ⊥) → R.openings files.new ≡ R.openings files.old }
{
    let path = str::from_utf8(name).ok()?;
    files.open_file(path).ok()
}

/// A sink over a real stream. Contracts see its count of faults, which stops at the last value of a `u64`. They also see the bytes that the
/// stream holds, if it tells them.
#[derive(Drop)]
pub struct StdSink<W: Writer> {
    stream: W,
    faults: u64,
}

impl<W: Writer> Model for StdSink<W> {
    ghost use Rattle.cq_outside.specs.Edge.{RealSink};

    ghost Value = { RealSink };

    ghost view = { λ s. record { faults = s.faults; contents = W.holds s.stream } };
}

impl<W: Writer> StdSink<W> {
    /// A sink over this stream. It takes no memory.
    ///
    /// # Errors
    ///
    /// None: the result is always `Ok`.
    pub fn new(_alloc: Global, stream: W) -> Result<StdSink<W>, NoMemory>
        ensures { result ≡ Ok (record { faults = 0; contents = W.holds stream }) }
    {
        Ok(StdSink { stream, faults: 0 })
    }
}

impl<W: Writer> Sink for StdSink<W> {
    ghost taken = { λ _. None };

    ghost faults = { λ s. s.faults };

    /// Writes once.
    ///
    /// # Errors
    ///
    /// Returns `Failed` if the stream fails, or takes none of at least one byte.
    fn write(&mut self, bytes: &[u8]) -> Result<usize, Failed>
        ensures bound { IfOk result (λ n. n ≤ length bytes.now) }
        ensures moves { IfOk result (λ n. 0 < length bytes.now → 0 < n) }
        ensures bytes { WriteAppends self.old.contents self.new.contents result bytes.now }
        ensures cause { HasCause self.old.faults self.new.faults result }
        ensures counts { self.new.faults ≡ counted self.old.faults result }
        ensures gave { IsWriteOf W.gave self.old bytes.now result }
    {
        match self.stream.write_once(bytes) {
            Ok(n) if n > 0 || bytes.is_empty() => Ok(n),
            _ => {
                self.faults = self.faults.saturating_add(1);
                Err(Failed)
            }
        }
    }
}
