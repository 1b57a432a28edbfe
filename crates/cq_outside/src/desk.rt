//! Files that are opened by name, one at a time.
ghost use Rattle.std.specs.Prelude.{◌≡◌, ◌≤◌, List, ℕ, Option, OnOk, OnErr, IsErrOf};
ghost use Rattle.cq_outside.specs.Faults.{Rose};
ghost use Rattle.cq_outside.specs.DeskFiles.{DeskFiles, Opens};
ghost use Rattle.cq_common.specs.declared.faults.OpenFault.TheVariants.{Failed};

use crate::source::Source;
use cq_common::OpenFault;
use std::alloc::Global;

/// A source whose file is opened by name.
pub trait Desk: Source {
    /// The files by name and the names opened, if the desk tells them.
    ghost told: { Self → Option DeskFiles };

    /// The number of times that a file could not be opened.
    ghost open_faults: { Self → ℕ };

    /// Opens the file of this name in place of the open one. The name `-` is standard input at the real desk. A call that fails changes
    /// nothing but the count of open faults.
    ///
    /// # Errors
    ///
    /// Returns `OpenFault::Failed` if the desk can't open the file, and `OpenFault::NoMemory` if memory runs out.
    fn open(&mut self, alloc: Global, name: &[u8]) -> Result<(), OpenFault>
        ensures opened { OnOk result (Opens (told self.old) (told self.new) name.now (Self.left self.new)) }
        ensures told { OnErr result (told self.new ≡ told self.old) }
        ensures left { OnErr result (Self.left self.new ≡ Self.left self.old) }
        ensures reads { Self.faults self.new ≡ Self.faults self.old }
        ensures later { open_faults self.old ≤ open_faults self.new }
        ensures failed { IsErrOf result Failed → Rose (open_faults self.old) (open_faults self.new) }
        ensures same { (IsErrOf result Failed → ⊥) → open_faults self.new ≡ open_faults self.old };

    ghost keeps_told: { (s t : Self) → Self.follows s t → told t ≡ told s };

    ghost keeps_open_faults: { (s t : Self) → Self.follows s t → open_faults t ≡ open_faults s };
}
