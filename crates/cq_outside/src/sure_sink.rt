//! A sink in memory that never fails.
ghost use Rattle.std.specs.Prelude.{◌≡◌, List, [], ◌++◌, ℕ, length, IfOk, Some};
ghost use Rattle.std.specs.Option.{option_copied};
ghost use Rattle.cq_outside.specs.BoundedBytes.{BoundedBytes, taken_with, bytes_if_fit};

use crate::sink::Sink;
use cq_common::{Failed, NoMemory};
use std::alloc::Global;
use std::marker::Model;

/// A sink that takes every byte, and keeps the bytes as long as they fit its room. A write that passes the room makes it keep none from
/// then on.
#[derive(Drop, Debug)]
pub struct SureSink {
    bytes: Vec<u8>,
    room: usize,
    is_past_room: bool,
}

impl Model for SureSink {
    ghost use Rattle.std.specs.Prelude.{◌≤◌, Some, None, vec_capacity, vec_len, if◌then◌else◌};
    ghost use Rattle.cq_outside.specs.BoundedBytes.{BoundedBytes};

    ghost Value = { BoundedBytes };

    ghost view = { λ s. record { room = s.room; taken = if s.is_past_room then None else Some s.bytes.items } };

    ghost invariant = { λ s. (s.room ≤ vec_capacity s.bytes) × (vec_len s.bytes ≤ s.room) };
}

impl SureSink {
    /// A sink that has taken nothing, with room for `room` bytes. It takes all its memory here.
    ///
    /// # Errors
    ///
    /// Returns `NoMemory` if memory runs out.
    pub fn new(alloc: Global, room: usize) -> Result<SureSink, NoMemory>
        ensures { IfOk result (λ sink. sink ≡ record { room = room; taken = Some [] }) }
    {
        Ok(SureSink {
            bytes: Vec::with_capacity(alloc, room)?,
            room,
            is_past_room: false,
        })
    }

    /// The bytes taken, if they fit the room.
    pub fn taken(&self) -> Option<&[u8]>
        ensures { option_copied result ≡ self.now.taken }
    {
        if self.is_past_room {
            None
        } else {
            Some(self.bytes.as_slice())
        }
    }
}

impl Sink for SureSink {
    ghost taken = { λ s. s.taken };

    ghost faults = { λ _. 0 };

    /// Takes all of `bytes`.
    ///
    /// # Errors
    ///
    /// None: the result is always `Ok`.
    fn write(&mut self, bytes: &[u8]) -> Result<usize, Failed>
        ensures all { result ≡ Ok (length bytes.now) }
        ensures within { (before : List ℕ) → self.old.taken ≡ bytes_if_fit self.old.room before
            → self.new.taken ≡ bytes_if_fit self.old.room (before ++ bytes.now) }
        ensures kept { self.new ≡ record { room = self.old.room; taken = taken_with self.old.room self.old.taken bytes.now } }
    {
        if self.is_past_room || bytes.len() > self.room - self.bytes.len() {
            self.is_past_room = true;
        } else {
            self.bytes.extend_from_slice(bytes).unwrap();
        }
        Ok(bytes.len())
    }
}
