//! A source in memory that gives its bytes in pieces, and fails at listed reads.
ghost use Rattle.std.specs.Prelude.{◌≡◌, ◌≤◌, ◌↔◌, [], Some, length, Contains, IfOk, IsErr};
ghost use Rattle.std.specs.Io.KnownBytes.{ReadConsumes};
ghost use Rattle.cq_outside.specs.Faults.{HasCause};
ghost use Rattle.cq_outside.specs.Calls.{one_more};
ghost use Rattle.cq_outside.specs.MemSource.{Follows, after_read, result_of};

use crate::calls::{Calls, fails_next};
use crate::source::Source;
use crate::sure_source::SureSource;
use cq_common::{Bytes, Failed, NoMemory};
use std::alloc::Global;
use std::marker::Model;

/// A source of given bytes that gives at most a piece of them in one read. The reads with given numbers fail. The first read has the number
/// 1. The counts of its reads and of its faults stop at the last value of a `u64`.
#[derive(Drop, Debug)]
pub struct MemSource {
    rest: SureSource,
    piece: usize,
    fails: Calls,
    reads: u64,
    faults: u64,
}

impl Model for MemSource {
    ghost use Rattle.std.specs.Prelude.{◌≤◌};
    ghost use Rattle.cq_outside.specs.MemSource.{FailingSource};

    ghost Value = { FailingSource };

    ghost view = { λ s. record { left = s.rest; piece = s.piece; fails = s.fails; reads = s.reads; faults = s.faults } };

    ghost invariant = { λ s. 1 ≤ s.piece };
}

impl MemSource {
    /// A source that has these bytes left. It gives at most `piece` of them in one read, and fails at the reads with the numbers in
    /// `fails`.
    ///
    /// # Errors
    ///
    /// Returns `NoMemory` if memory runs out.
    pub fn new(
        alloc: Global,
        bytes: &[u8],
        piece: usize,
        fails: &[u64],
    ) -> Result<MemSource, NoMemory>
        requires { 1 ≤ piece }
        ensures { IfOk result (λ source. source ≡ record { left = bytes.now; piece = piece; fails = fails.now; reads = 0; faults = 0 }) }
    {
        Ok(MemSource {
            rest: SureSource::new(Bytes::from_slice(alloc, bytes)?),
            piece,
            fails: Calls::of(alloc, fails)?,
            reads: 0,
            faults: 0,
        })
    }

    // A source with no bytes. It takes no memory.
    pub(crate) fn empty(alloc: Global) -> MemSource
        ensures { result ≡ record { left = []; piece = 1; fails = []; reads = 0; faults = 0 } }
    {
        MemSource {
            rest: SureSource::new(Bytes::new(alloc)),
            piece: 1,
            fails: Calls::none(alloc),
            reads: 0,
            faults: 0,
        }
    }

    // The same source with this count of failed reads.
    pub(crate) fn with_faults(self, faults: u64) -> MemSource
        ensures { result ≡ record self { faults = faults } }
    {
        MemSource {
            rest: self.rest,
            piece: self.piece,
            fails: self.fails,
            reads: self.reads,
            faults,
        }
    }

    // The number of reads that failed.
    pub(crate) fn faults(&self) -> u64
        ensures { result ≡ self.now.faults }
    {
        self.faults
    }
}

impl Source for MemSource {
    ghost left = { λ s. Some s.left };

    ghost faults = { λ s. s.faults };

    ghost follows = { Follows };

    /// Moves as many bytes as are left, fit `buf` and make up a piece at most.
    ///
    /// # Errors
    ///
    /// Returns `Failed` if the number of this read is listed.
    fn read(&mut self, buf: &mut [u8]) -> Result<usize, Failed>
        ensures answer { result ≡ result_of self.old (length buf.old) }
        ensures listed { IsErr result ↔ Contains self.old.fails (one_more self.old.reads) }
        ensures state { self.new ≡ after_read self.old (length buf.old) }
        ensures bound { IfOk result (λ n. n ≤ length buf.old) }
        ensures bytes { ReadConsumes (Some self.old.left) (Some self.new.left) result buf.new }
        ensures cause { HasCause self.old.faults self.new.faults result }
        ensures next { Follows self.old self.new }
    {
        if fails_next(&self.fails, &mut self.reads, &mut self.faults) {
            return Err(Failed);
        }
        let most = self.piece.min(buf.len());
        self.rest.read(&mut buf[..most])
    }

    ghost use Rattle.cq_outside.specs.ReadLaws.{follows_itself, follows_on, faults_never_fall};

    ghost follows_same = { follows_itself };

    ghost follows_on = { follows_on };

    ghost never_falls = { faults_never_fall };
}
