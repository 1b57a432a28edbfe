//! A sink in memory that takes the bytes of a write in pieces, and fails at listed writes.
ghost use Rattle.std.specs.Prelude.{◌≡◌, ◌≤◌, ◌<◌, ◌↔◌, Some, length, Contains, IfOk, IsErr, []};
ghost use Rattle.std.specs.Option.{option_copied};
ghost use Rattle.cq_outside.specs.Faults.{HasCause};
ghost use Rattle.cq_outside.specs.Flow.{WriteTakes};
ghost use Rattle.cq_outside.specs.Calls.{one_more};
ghost use Rattle.cq_outside.specs.MemSink.{after_write, result_of};

use crate::calls::{Calls, fails_next};
use crate::sink::Sink;
use crate::sure_sink::SureSink;
use cq_common::{Failed, NoMemory};
use std::alloc::Global;
use std::marker::Model;

/// A sink that takes at most a piece of one write, and keeps the bytes as long as they fit its room. The writes with given numbers fail.
/// The first write has the number 1. The counts of its writes and of its faults stop at the last value of a `u64`.
#[derive(Drop, Debug)]
pub struct MemSink {
    kept: SureSink,
    piece: usize,
    fails: Calls,
    writes: u64,
    faults: u64,
}

impl Model for MemSink {
    ghost use Rattle.std.specs.Prelude.{◌≤◌};
    ghost use Rattle.cq_outside.specs.MemSink.{FailingSink};

    ghost Value = { FailingSink };

    ghost view = { λ s. record {
      room = s.kept.room;
      taken = s.kept.taken;
      piece = s.piece;
      fails = s.fails;
      writes = s.writes;
      faults = s.faults;
    } };

    ghost invariant = { λ s. 1 ≤ s.piece };
}

impl MemSink {
    /// A sink that has taken nothing, with room for `room` bytes. It takes at most `piece` bytes of one write, and fails at the writes with
    /// the numbers in `fails`. It takes all its memory here.
    ///
    /// # Errors
    ///
    /// Returns `NoMemory` if memory runs out.
    pub fn new(alloc: Global, room: usize, piece: usize, fails: Calls) -> Result<MemSink, NoMemory>
        requires { 1 ≤ piece }
        ensures { IfOk result (λ sink. sink ≡ record {
          room = room;
          taken = Some [];
          piece = piece;
          fails = fails;
          writes = 0;
          faults = 0;
        }) }
    {
        Ok(MemSink {
            kept: SureSink::new(alloc, room)?,
            piece,
            fails,
            writes: 0,
            faults: 0,
        })
    }

    /// The bytes taken, if they fit the room.
    pub fn taken(&self) -> Option<&[u8]>
        ensures { option_copied result ≡ self.now.taken }
    {
        self.kept.taken()
    }
}

impl Sink for MemSink {
    ghost taken = { λ s. s.taken };

    ghost faults = { λ s. s.faults };

    /// Takes a prefix of at most one piece.
    ///
    /// # Errors
    ///
    /// Returns `Failed` if the number of this write is listed.
    fn write(&mut self, bytes: &[u8]) -> Result<usize, Failed>
        ensures answer { result ≡ result_of self.old bytes.now }
        ensures listed { IsErr result ↔ Contains self.old.fails (one_more self.old.writes) }
        ensures state { self.new ≡ after_write self.old bytes.now }
        ensures bound { IfOk result (λ n. n ≤ length bytes.now) }
        ensures moves { IfOk result (λ n. 0 < length bytes.now → 0 < n) }
        ensures bytes { WriteTakes self.old.taken self.new.taken result bytes.now }
        ensures cause { HasCause self.old.faults self.new.faults result }
    {
        if fails_next(&self.fails, &mut self.writes, &mut self.faults) {
            return Err(Failed);
        }
        let most = self.piece.min(bytes.len());
        self.kept.write(&bytes[..most])
    }
}
