//! A desk of files in memory that never fails.
ghost use Rattle.std.specs.Prelude.{◌≡◌, ◌≤◌, ◌++◌, List, [], ℕ, Some, length, min, IfOk, OnOk, OnErr};
ghost use Rattle.std.specs.Io.KnownBytes.{ReadConsumes};
ghost use Rattle.std.specs.FinMap as map;
ghost use Rattle.cq_outside.specs.Faults.{HasCause};
ghost use Rattle.cq_outside.specs.DeskFiles.{KnownDesk, desk_files_of, bytes_of};

use crate::desk::Desk;
use crate::name_map::{place_of, push_name, put};
use crate::source::Source;
use crate::sure_source::SureSource;
use cq_common::{Bytes, Failed, NoMemory, OpenFault};
use std::alloc::Global;
use std::marker::Model;

/// A desk of given files. It opens a name without a file as an empty file.
#[derive(Drop, Debug)]
pub struct SureDesk {
    alloc: Global,
    files: Vec<(Bytes, Bytes)>,
    opened: Vec<Bytes>,
    current: SureSource,
}

impl Model for SureDesk {
    ghost use Rattle.std.specs.FinMap as map;
    ghost use Rattle.cq_outside.specs.DeskFiles.{KnownDesk, known_desk_code};

    ghost Value = { KnownDesk };

    ghost coded = { known_desk_code };

    ghost view = { λ d. record { files = map.from_entries d.files.items; opened = d.opened.items; left = d.current } };
}

impl SureDesk {
    /// A desk without files, on which no file is open and no bytes are left. It takes no memory.
    pub fn new(alloc: Global) -> SureDesk
        ensures { result ≡ record { files = map.empty; opened = []; left = [] } }
    {
        SureDesk {
            alloc,
            files: Vec::new(alloc),
            opened: Vec::new(alloc),
            current: SureSource::new(Bytes::new(alloc)),
        }
    }

    /// Gives a name these bytes, in place of its former ones. The open file stays as it is.
    ///
    /// # Errors
    ///
    /// Returns `NoMemory` if memory runs out.
    pub fn add(&mut self, name: &[u8], bytes: &[u8]) -> Result<(), NoMemory>
        ensures ok { OnOk result (self.new ≡ record self.old { files = map.insert self.old.files name.now bytes.now }) }
        ensures err { OnErr result (self.new ≡ self.old) }
    {
        let bytes = Bytes::from_slice(self.alloc, bytes)?;
        put(self.alloc, &mut self.files, name, bytes)
    }
}

// A copy of the bytes of a name. It is empty if there is no such file.
fn copy_of(alloc: Global, files: &[(Bytes, Bytes)], name: &[u8]) -> Result<Bytes, NoMemory>
    ensures { IfOk result (λ bytes. bytes ≡ bytes_of (map.from_entries files.now) name.now) }
{
    match place_of(files, name) {
        Some(place) => Bytes::from_slice(alloc, files[place].1.as_slice()),
        None => Ok(Bytes::new(alloc)),
    }
}

impl Source for SureDesk {
    ghost left = { λ d. Some d.left };

    ghost faults = { λ _. 0 };

    ghost follows = { λ s t. (desk_files_of t ≡ desk_files_of s) × ((bytes : List ℕ) × (s.left ≡ bytes ++ t.left)) };

    /// Moves as many bytes as are left and fit `buf`.
    ///
    /// # Errors
    ///
    /// None: the result is always `Ok`.
    fn read(&mut self, buf: &mut [u8]) -> Result<usize, Failed>
        ensures fills { result ≡ Ok (min (length self.old.left) (length buf.old)) }
        ensures bound { IfOk result (λ n. n ≤ length buf.old) }
        ensures bytes { ReadConsumes (Some self.old.left) (Some self.new.left) result buf.new }
        ensures cause { HasCause 0 0 result }
        ensures same { self.new ≡ record self.old { left = self.new.left } }
        ensures next { (bytes : List ℕ) × (self.old.left ≡ bytes ++ self.new.left) }
    {
        self.current.read(buf)
    }

    ghost use Rattle.std.proofs.Common.{refl, sym, ◌∙◌, ap, append_assoc, lit≤};

    ghost follows_same = { λ s. (refl, ([], refl)) };

    ghost follows_on = { λ s t u f g.
        (g.0 ∙ f.0, (f.1.0 ++ g.1.0, f.1.1 ∙ ap (λ l. f.1.0 ++ l) g.1.1 ∙ sym (append_assoc f.1.0 g.1.0 u.left))) };

    ghost never_falls = { λ s t f. lit≤ tt };
}

impl Desk for SureDesk {
    ghost told = { λ d. Some (desk_files_of d) };

    ghost open_faults = { λ _. 0 };

    fn open(&mut self, alloc: Global, name: &[u8]) -> Result<(), OpenFault> {
        let bytes = copy_of(alloc, self.files.as_slice(), name)?;
        push_name(alloc, &mut self.opened, name)?;
        self.current = SureSource::new(bytes);
        Ok(())
    }

    ghost use Rattle.std.proofs.Common.{refl, ap};

    ghost keeps_told = { λ s t f. ap (λ x. Some x) f.0 };

    ghost keeps_open_faults = { λ s t f. refl };
}
