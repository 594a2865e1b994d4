//! A sink in memory.
ghost use Rattle.std.specs.Prelude.{◌≡◌, ◌-◌, ◌<◌, ◌↔◌, ◌⊎◌, [], length, min, Some, IsErr, IfOk};
ghost use Rattle.hc_world.specs.Counts.{HasCause};
ghost use Rattle.hc_world.specs.Memory.{CountsCall, IsNextToFail};
ghost use Rattle.hc_world.specs.Written.{FlushKeeps, WriteAdds};

use crate::faults::Failed;
use crate::planned_calls::PlannedCalls;
use crate::sinks::Sink;
use std::alloc::{AllocError, Global};
use std::marker::Model;

/// A sink that keeps its bytes. Chosen writes and flushes fail, numbered together from 0.
/// The number of a call stays at `u64::MAX` from there on.
#[derive(Debug, Drop)]
pub struct MemSink {
    bytes: Vec<u8>,
    flushed: usize,
    room: usize,
    calls: PlannedCalls,
}

impl Model for MemSink {
    ghost use Rattle.std.specs.Prelude.{◌≤◌, vec_len, vec_capacity};
    ghost use Rattle.hc_world.specs.Memory.{SinkMemory};

    ghost Value = { SinkMemory };

    ghost view = { λ s. record {
      written = record { bytes = s.bytes.items; flushed = s.flushed };
      room = s.room;
      calls = s.calls;
    } };

    ghost invariant = { λ s. (vec_len s.bytes ≤ s.room) × (s.room ≤ vec_capacity s.bytes) };
}

impl MemSink {
    /// An empty sink with room for `room` bytes. A write takes as many bytes as there is room for.
    /// It fails at each call whose number is in `fails`, and at each write once the room is full.
    /// All memory is taken here, and none later.
    pub fn open(alloc: Global, room: usize, fails: Vec<u64>) -> Result<MemSink, AllocError>
        ensures { IfOk result (λ sink. sink ≡ record {
          written = record { bytes = []; flushed = 0 };
          room = room;
          calls = record { fails = fails.items; count = 0; faults = 0 };
        }) }
    {
        Ok(MemSink {
            bytes: Vec::with_capacity(alloc, room)?,
            flushed: 0,
            room,
            calls: PlannedCalls::new(fails),
        })
    }

    /// The bytes written so far.
    pub fn bytes(&self) -> &[u8]
        ensures { result.now ≡ self.now.written.bytes }
    {
        &self.bytes
    }
}

impl Sink for MemSink {
    ghost state = { λ s. record { told = Some s.written; faults = s.calls.faults } };

    fn write(&mut self, piece: &[u8]) -> Result<usize, Failed>
        requires { 0 < length piece.now }
        ensures bytes { WriteAdds (Some self.old.written) (Some self.new.written) result piece.now }
        ensures cause { HasCause self.old.calls.faults self.new.calls.faults result }

        // What holds in memory beyond any sink.
        ensures fails { IsErr result
            ↔ (IsNextToFail self.old.calls ⊎ (length self.old.written.bytes ≡ self.old.room)) }
        ensures amount { IfOk result
            (λ n. n ≡ min (length piece.now) (self.old.room - length self.old.written.bytes)) }
        ensures counts { CountsCall self.old.calls self.new.calls result }
        ensures room { self.new.room ≡ self.old.room }
    {
        let room_left = self.room - self.bytes.len();
        self.calls.count_call(room_left == 0)?;
        let count = piece.len().min(room_left);
        self.bytes.extend_from_slice(&piece[..count]).unwrap();
        Ok(count)
    }

    fn flush(&mut self) -> Result<(), Failed>
        ensures bytes { FlushKeeps (Some self.old.written) (Some self.new.written) result }
        ensures cause { HasCause self.old.calls.faults self.new.calls.faults result }

        // What holds in memory beyond any sink.
        ensures fails { IsErr result ↔ IsNextToFail self.old.calls }
        ensures counts { CountsCall self.old.calls self.new.calls result }
        ensures room { self.new.room ≡ self.old.room }
    {
        self.calls.count_call(false)?;
        self.flushed = self.bytes.len();
        Ok(())
    }
}
