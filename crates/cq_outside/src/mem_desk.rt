//! A desk of files in memory that gives its bytes in pieces, and fails at listed calls.
ghost use Rattle.std.specs.Prelude.{◌≡◌, ◌≤◌, ◌↔◌, ◌||◌, [], Some, Err, true, false, is_none, length, Contains, IfOk, IfSome, IfNone, OnOk, OnErr, IsErr, IsErrOf};
ghost use Rattle.std.specs.Io.KnownBytes.{ReadConsumes};
ghost use Rattle.std.specs.FinMap as map;
ghost use Rattle.cq_outside.specs.Calls.{one_more, is_listed};
ghost use Rattle.cq_outside.specs.Faults.{HasCause, Rose};
ghost use Rattle.cq_outside.specs.DeskFiles.{Opens};
ghost use Rattle.cq_outside.specs.MemSource.{after_read, result_of};
ghost use Rattle.cq_outside.specs.MemDesk.{FailingDesk, ReadsOn, files_of, desk_files_of, fails_next, just_opened, after_open};
ghost use Rattle.cq_common.specs.declared.faults.OpenFault.TheVariants.{Failed as failed, NoMemory as no_memory};

use crate::calls::Calls;
use crate::desk::Desk;
use crate::mem_source::MemSource;
use crate::name_map::{place_of, push_name, put};
use crate::source::Source;
use cq_common::{Bytes, Failed, NoMemory, OpenFault};
use std::alloc::Global;
use std::marker::Model;

/// A file of the desk.
#[derive(Drop, Debug)]
struct StoredFile {
    bytes: Bytes,
    piece: usize,
    fails: Calls,
}

impl Model for StoredFile {
    ghost use Rattle.std.specs.Prelude.{◌≤◌};
    ghost use Rattle.cq_outside.specs.MemDesk.{FailingFile, file_code};

    ghost Value = { FailingFile };

    ghost coded = { file_code };

    ghost view = { λ f. record { bytes = f.bytes; piece = f.piece; fails = f.fails } };

    ghost invariant = { λ f. 1 ≤ f.piece };
}

impl StoredFile {
    // A file of copies of these bytes and these numbers.
    fn new(alloc: Global, bytes: &[u8], piece: usize, fails: &[u64]) -> Result<StoredFile, NoMemory>
        requires { 1 ≤ piece }
        ensures { IfOk result (λ file. file ≡ record { bytes = bytes.now; piece = piece; fails = fails.now }) }
    {
        Ok(StoredFile {
            bytes: Bytes::from_slice(alloc, bytes)?,
            piece,
            fails: Calls::of(alloc, fails)?,
        })
    }

    // The file just after its opening, at a desk with this count of failed reads.
    fn opened(&self, alloc: Global, faults: u64) -> Result<MemSource, NoMemory>
        ensures { IfOk result (λ source. source ≡ just_opened faults self.now) }
    {
        let source = MemSource::new(
            alloc,
            self.bytes.as_slice(),
            self.piece,
            self.fails.as_slice(),
        )?;
        Ok(source.with_faults(faults))
    }
}

/// A desk of given files. A name without a file can't be opened. Each file has the most bytes that one read gives, and the numbers of the
/// reads that fail, counted from its opening. The desk has the numbers of the openings that fail. The first call has the number 1. Its
/// counts stop at the last value of a `u64`.
#[derive(Drop, Debug)]
pub struct MemDesk {
    alloc: Global,
    files: Vec<(Bytes, StoredFile)>,
    opened: Vec<Bytes>,
    current: MemSource,
    fails: Calls,
    opens: u64,
    open_faults: u64,
}

impl Model for MemDesk {
    ghost use Rattle.std.specs.FinMap as map;
    ghost use Rattle.cq_outside.specs.MemDesk.{FailingDesk, desk_code};

    ghost Value = { FailingDesk };

    ghost coded = { desk_code };

    ghost view = { λ d. record {
      files = map.from_entries d.files.items;
      opened = d.opened.items;
      current = d.current;
      fails = d.fails;
      opens = d.opens;
      open_faults = d.open_faults;
    } };
}

impl MemDesk {
    /// A desk without files, on which no file is open and no bytes are left. Its openings with the numbers in `fails` fail. It takes no
    /// memory.
    pub fn new(alloc: Global, fails: Calls) -> MemDesk
        ensures { result ≡ record {
          files = map.empty;
          opened = [];
          current = record { left = []; piece = 1; fails = []; reads = 0; faults = 0 };
          fails = fails;
          opens = 0;
          open_faults = 0;
        } }
    {
        MemDesk {
            alloc,
            files: Vec::new(alloc),
            opened: Vec::new(alloc),
            current: MemSource::empty(alloc),
            fails,
            opens: 0,
            open_faults: 0,
        }
    }

    /// Gives a name these bytes, in place of its file if it had one. One read gives at most `piece` bytes, and the reads with the numbers
    /// in `fails` fail. The open file stays as it is.
    ///
    /// # Errors
    ///
    /// Returns `NoMemory` if memory runs out.
    pub fn add(
        &mut self,
        name: &[u8],
        bytes: &[u8],
        piece: usize,
        fails: &[u64],
    ) -> Result<(), NoMemory>
        requires { 1 ≤ piece }
        ensures ok { OnOk result (self.new ≡ record self.old {
          files =
              map.insert self.old.files name.now (record { bytes = bytes.now; piece = piece; fails = fails.now });
        }) }
        ensures err { OnErr result (self.new ≡ self.old) }
    {
        let file = StoredFile::new(self.alloc, bytes, piece, fails)?;
        put(self.alloc, &mut self.files, name, file)
    }
}

// The file of this name, if it exists and the opening with this number does not fail.
#[tactic(auto, using(crate::proofs::Entries::entry_at, crate::proofs::Entries::no_entry))]
fn file_to_open<'a>(
    files: &'a [(Bytes, StoredFile)],
    fails: &Calls,
    number: u64,
    name: &[u8],
) -> Option<&'a StoredFile>
    ensures none { IfNone result ((is_listed fails.now number || is_none (map.get (files_of files.now) name.now)) ≡ true) }
    ensures some { IfSome result (λ file. (is_listed fails.now number ≡ false)
        × (map.get (files_of files.now) name.now ≡ Some file.now)) }
{
    if fails.has(number) {
        return None;
    }
    let place = place_of(files, name)?;
    Some(&files[place].1)
}

impl Source for MemDesk {
    ghost left = { λ d. Some d.current.left };

    ghost faults = { λ d. d.current.faults };

    ghost follows = { ReadsOn };

    /// Moves as many bytes as are left, fit `buf` and make up a piece at most.
    ///
    /// # Errors
    ///
    /// Returns `Failed` if the number of this read since the file was opened is listed with the file.
    fn read(&mut self, buf: &mut [u8]) -> Result<usize, Failed>
        ensures answer { result ≡ result_of self.old.current (length buf.old) }
        ensures listed { IsErr result ↔ Contains self.old.current.fails (one_more self.old.current.reads) }
        ensures state { self.new ≡ record self.old { current = after_read self.old.current (length buf.old) } }
        ensures bound { IfOk result (λ n. n ≤ length buf.old) }
        ensures bytes { ReadConsumes (Some self.old.current.left) (Some self.new.current.left) result buf.new }
        ensures cause { HasCause self.old.current.faults self.new.current.faults result }
        ensures next { ReadsOn self.old self.new }
    {
        self.current.read(buf)
    }

    ghost use Rattle.std.proofs.Common.{refl, ap, ◌∙◌};
    ghost use Rattle.cq_outside.specs.ReadLaws.{follows_itself, follows_on, faults_never_fall};

    ghost follows_same = { λ s. (refl, follows_itself s.current) };

    ghost follows_on = { λ s t u f g.
        (g.0 ∙ ap (λ (d : FailingDesk). record d { current = u.current }) f.0, follows_on s.current t.current u.current f.1 g.1) };

    ghost never_falls = { λ s t f. faults_never_fall s.current t.current f.1 };
}

impl Desk for MemDesk {
    ghost told = { λ d. Some (desk_files_of d) };

    ghost open_faults = { λ d. d.open_faults };

    /// Opens the file of this name.
    ///
    /// # Errors
    ///
    /// Returns `OpenFault::Failed` if the number of this opening is listed or there is no file of this name, and `OpenFault::NoMemory` if
    /// memory runs out.
    fn open(&mut self, alloc: Global, name: &[u8]) -> Result<(), OpenFault>
        ensures fails { (result ≡ Err failed) ↔ (fails_next self.old name.now ≡ true) }
        ensures state { (result ≡ Err no_memory → ⊥) → self.new ≡ after_open self.old name.now }
        ensures refused { result ≡ Err no_memory → self.new ≡ record self.old { opens = one_more self.old.opens } }
        ensures opened { OnOk result (Opens (Some (desk_files_of self.old)) (Some (desk_files_of self.new)) name.now (Some self.new.current.left)) }
        ensures told { OnErr result (desk_files_of self.new ≡ desk_files_of self.old) }
        ensures current { OnErr result (self.new.current ≡ self.old.current) }
        ensures reads { self.new.current.faults ≡ self.old.current.faults }
        ensures later { self.old.open_faults ≤ self.new.open_faults }
        ensures rose { IsErrOf result failed → Rose self.old.open_faults self.new.open_faults }
        ensures same { (IsErrOf result failed → ⊥) → self.new.open_faults ≡ self.old.open_faults }
    {
        self.opens = self.opens.saturating_add(1);
        let Some(file) = file_to_open(self.files.as_slice(), &self.fails, self.opens, name) else {
            self.open_faults = self.open_faults.saturating_add(1);
            return Err(OpenFault::Failed);
        };
        let source = file.opened(alloc, self.current.faults())?;
        push_name(alloc, &mut self.opened, name)?;
        self.current = source;
        Ok(())
    }

    ghost use Rattle.std.proofs.Common.{refl, ap};

    ghost keeps_told = { λ s t f. ap (λ (d : FailingDesk). Some (desk_files_of d)) f.0 };

    ghost keeps_open_faults = { λ s t f. ap (λ (d : FailingDesk). d.open_faults) f.0 };
}
