//! The top call over a desk whose results are given.
ghost use Rattle.std.specs.Prelude.{◌≡◌, ◌≤◌, None};

use crate::calls::status_of;
use cq_common::{Failed, NoMemory, OpenFault};
use cq_outside::{Desk, OpenGate, Source, SureSink};
use cq_run::Status;
use std::alloc::Global;
use std::process::Abort;
use std::test::Fail;
use std::thread::Threads;

/// A desk without bytes, with these results of each call.
#[derive(Drop)]
struct FailingDesk {
    open: Result<(), OpenFault>,
    read: Result<(), Failed>,
    open_faults: u64,
    read_faults: u64,
}

impl FailingDesk {
    fn new(open: Result<(), OpenFault>, read: Result<(), Failed>) -> FailingDesk {
        FailingDesk {
            open,
            read,
            open_faults: 0,
            read_faults: 0,
        }
    }
}

impl Source for FailingDesk {
    ghost left = { λ _. None };

    ghost faults = { λ d. d.read_faults };

    ghost follows = { λ s t. (s.read_faults ≤ t.read_faults) × (t.open_faults ≡ s.open_faults) };

    fn read(&mut self, _buf: &mut [u8]) -> Result<usize, Failed> {
        if self.read.is_ok() {
            return Ok(0);
        }
        self.read_faults = self.read_faults.saturating_add(1);
        Err(Failed)
    }

    ghost use Rattle.std.proofs.Common.{refl, ◌∙◌, le_refl, le_trans};

    ghost follows_same = { λ s. (le_refl s.read_faults, refl) };

    ghost follows_on = { λ s t u f g. (le_trans f.0 g.0, g.1 ∙ f.1) };

    ghost never_falls = { λ s t f. f.0 };
}

impl Desk for FailingDesk {
    ghost told = { λ _. None };

    ghost open_faults = { λ d. d.open_faults };

    fn open(&mut self, _alloc: Global, _name: &[u8]) -> Result<(), OpenFault> {
        match self.open {
            Ok(()) => Ok(()),
            Err(OpenFault::NoMemory) => Err(OpenFault::NoMemory),
            Err(OpenFault::Failed) => {
                self.open_faults = self.open_faults.saturating_add(1);
                Err(OpenFault::Failed)
            }
        }
    }

    ghost use Rattle.std.proofs.Common.{refl};

    ghost keeps_told = { λ s t f. refl };

    ghost keeps_open_faults = { λ s t f. f.1 };
}

/// The results of openings and reads, and the status of `eval` over standard input.
type FailureCase = (Result<(), OpenFault>, Result<(), Failed>, Status);

static ROWS: [FailureCase; 4] = [
    (Err(OpenFault::Failed), Ok(()), Status::OpenFault),
    (Err(OpenFault::NoMemory), Ok(()), Status::NoMemory),
    (Ok(()), Err(Failed), Status::ReadFault),
    (Ok(()), Ok(()), Status::Done),
];

// Returns the status of `eval` over a desk and a first sink.
fn status_of_eval<R: Threads + Sync>(
    rt: &R,
    alloc: Global,
    desk: &mut FailingDesk,
    out: &mut SureSink,
) -> Result<Status, NoMemory> {
    let mut err = SureSink::new(alloc, 64)?;
    let words = &["eval", "cql() Ka1"];
    status_of(rt, alloc, words, desk, out, &mut err, &OpenGate)
}

// Returns the same over the desk of a row.
fn answered_by<R: Threads + Sync>(
    rt: &R,
    alloc: Global,
    row: &FailureCase,
    out: &mut SureSink,
) -> Result<Status, NoMemory> {
    let mut desk = FailingDesk::new(row.0, row.1);
    status_of_eval(rt, alloc, &mut desk, out)
}

// Fails unless a row has its status, and no game is written.
fn expect<R: Threads + Sync + Abort>(rt: &R, alloc: Global, row: &FailureCase) -> Result<(), Fail> {
    let mut out = SureSink::new(alloc, 64)?;
    let status = answered_by(rt, alloc, row, &mut out)?;
    assert!(rt; status == row.2 && out.taken() == Some(b"".as_slice()));
    Ok(())
}

#[test]
fn each_failure_of_a_desk_has_its_status(rt: HostRuntime) -> Result<(), Fail> {
    for row in ROWS.iter() {
        expect(&rt, rt.alloc(), row)?;
    }
    Ok(())
}
