//! Reads until a batch is full.
ghost use Rattle.std.specs.Prelude.{◌≡◌, ◌+◌, [], ◌<◌, ◌≤◌, ℕ, List, length, OnOk, IfOk, OnErr, true, false};
ghost use Rattle.std.specs.Io.KnownBytes.{Consumes, IsAtEnd};
ghost use Rattle.cq_outside.specs.Faults.{HasRefusalCause};
ghost use Rattle.pgn_batches.specs.Streams.{Stands};
ghost use Rattle.pgn_batches.specs.Filling.{HasRead, HasReadLost, HasFilled, HasLost, IsPieceTaken, OnFault, OnMemory};
ghost use Rattle.pgn_batches.specs.NextBatch.{IsNextResult, HasBatchCause};

use crate::batch::Batch;
use crate::laws::batches_stay;
use crate::state::{BatchFault, Batches};
use cq_common::{Failed, NoMemory, Refusal};
use cq_outside::{Source, read_piece};
use std::alloc::Global;

/// The size in bytes of the longest buffer of one read.
const PIECE: usize = 65_536;

/// Reads at most `room` bytes and returns them; none are returned only at the end.
fn next_piece<S: Source>(
    alloc: Global,
    source: &mut S,
    room: usize,
) -> Result<Vec<u8>, Refusal<Failed>>
    requires { 0 < room }
    ensures takes { IfOk result (λ piece. Consumes (S.left source.old) (S.left source.new) piece.items) }
    ensures short { IfOk result (λ piece. length piece.items ≤ room) }
    ensures failed { OnFault result (Consumes (S.left source.old) (S.left source.new) []) }
    ensures at_end { IfOk result (λ piece. length piece.items ≡ 0 → IsAtEnd (S.left source.new)) }
    ensures memory { OnMemory result (Consumes (S.left source.old) (S.left source.new) []) }
    ensures cause { HasRefusalCause (S.faults source.old) (S.faults source.new) result }
    ensures next { S.follows source.old source.new }
{
    let mut buffer = vec![in alloc; 0u8; room]?;
    match read_piece(source, buffer.as_mut_slice()) {
        Ok(n) => {
            buffer.truncate(n);
            Ok(buffer)
        }
        Err(failed) => Err(Refusal::Fault(failed)),
    }
}

impl Batches {
    /// One read: takes a piece, or comes to the end.
    fn read_more<S: Source>(&mut self, source: &mut S) -> Result<(), Refusal<Failed>>
        requires stands { (front : List ℕ) × (m : ℕ) × Stands self.old front m }
        requires reads { self.old.ended ≡ false }
        requires room { self.old.taken ≤ self.old.limit }
        ensures read { OnOk result (HasRead self.old self.new (S.left source.old) (S.left source.new)) }
        ensures failed { OnFault result ((self.new ≡ self.old) × Consumes (S.left source.old) (S.left source.new) []) }
        ensures lost { OnMemory result (HasReadLost self.old self.new (S.left source.old) (S.left source.new)) }
        ensures cause { HasRefusalCause (S.faults source.old) (S.faults source.new) result }
        ensures next { S.follows source.old source.new }
    {
        let room = PIECE.min((self.limit + 1 - self.taken) as usize);
        let piece = match next_piece(self.alloc, source, room) {
            Ok(piece) => piece,
            Err(Refusal::Fault(failed)) => return Err(Refusal::Fault(failed)),
            Err(Refusal::NoMemory) => return Err(Refusal::NoMemory),
        };
        match self.take(piece.as_slice()) {
            Ok(()) => Ok(()),
            Err(_) => Err(Refusal::NoMemory),
        }
    }

    /// Takes a piece, which is empty at the end.
    fn take(&mut self, piece: &[u8]) -> Result<(), NoMemory>
        requires stands { (front : List ℕ) × (m : ℕ) × Stands self.old front m }
        requires reads { self.old.ended ≡ false }
        requires low { self.old.taken ≤ self.old.limit }
        requires room { self.old.taken + length piece.now ≤ self.old.limit + 1 }
        ensures took { OnOk result (IsPieceTaken self.old self.new piece.now) }
        ensures limit { self.new.limit ≡ self.old.limit }
        ensures lost { OnErr result (self.new.ended ≡ false) }
    {
        if piece.is_empty() {
            return self.end();
        }
        self.feed(piece)
    }

    /// Reads until a batch is full, or to the end, or until one byte more than the limit was taken.
    fn fill<S: Source>(&mut self, source: &mut S) -> Result<(), Refusal<Failed>>
        requires stands { (front : List ℕ) × (m : ℕ) × Stands self.old front m }
        requires at_end { self.old.ended ≡ true → IsAtEnd (S.left source.old) }
        ensures fills { OnOk result (HasFilled self.old self.new (S.left source.old) (S.left source.new)) }
        ensures failed { OnFault result (HasFilled self.old self.new (S.left source.old) (S.left source.new)
            × (self.new.queue.full.items ≡ []) × (self.new.ended ≡ false)) }
        ensures lost { OnMemory result (HasLost self.old self.new (S.left source.old) (S.left source.new)) }
        ensures low { OnFault result (self.new.taken ≤ self.new.limit) }
        ensures cause { HasRefusalCause (S.faults source.old) (S.faults source.new) result }
        ensures next { S.follows source.old source.new }
        ensures until { OnOk result (self.new.queue.full.items ≡ [] → self.new.ended ≡ false → self.new.limit < self.new.taken) }
    {
        batches_stay();
        while self.queue.has_none() && !self.ended && self.taken <= self.limit {
            match self.read_more(source) {
                Ok(()) => {}
                Err(Refusal::Fault(failed)) => return Err(Refusal::Fault(failed)),
                Err(Refusal::NoMemory) => return Err(Refusal::NoMemory),
            }
        }
        Ok(())
    }

    /// Returns the next batch, of games that follow those of the batches before. It has 1,024 games, or fewer of which
    /// 2^24 bytes are kept, or at the end of the archive all that are left. `None` means that the archive has ended and
    /// all its games were given.
    ///
    /// Nothing is read if a full batch is in the queue, or once the end was read. Else pieces of at most 65,536 bytes
    /// are read until a batch is full, the archive ends, or one byte more than the limit was taken. More is never
    /// taken.
    ///
    /// Conditions: no call failed before, and a source whose end was read is still at its end.
    ///
    /// # Errors
    ///
    /// After an error no batch may be requested.
    /// - `ReadFault`: a read failed, and the count of the source's faults rose. All full batches of the bytes taken
    ///   were given.
    /// - `ArchiveTooLong`: more bytes than the limit were taken, and all full batches of them were given. No read
    ///   failed.
    /// - `NoMemory`: out of memory, for a piece, for a game or for a batch. No read failed.
    pub fn next<S: Source>(&mut self, source: &mut S) -> Result<Option<Batch>, Refusal<BatchFault>>
        requires stands { (front : List ℕ) × (m : ℕ) × Stands self.old front m }
        requires at_end { self.old.ended ≡ true → IsAtEnd (S.left source.old) }
        ensures says { IsNextResult self.old self.new (S.left source.old) (S.left source.new) result }
        ensures cause { HasBatchCause (S.faults source.old) (S.faults source.new) result }
        ensures next { S.follows source.old source.new }
    {
        match self.fill(source) {
            Ok(()) => {}
            Err(Refusal::Fault(_)) => return Err(Refusal::Fault(BatchFault::ReadFault)),
            Err(Refusal::NoMemory) => return Err(Refusal::NoMemory),
        }
        if let Some(batch) = self.queue.take_full() {
            return Ok(Some(batch));
        }
        if !self.ended {
            return Err(Refusal::Fault(BatchFault::ArchiveTooLong));
        }
        Ok(self.queue.take_last(self.alloc))
    }
}
