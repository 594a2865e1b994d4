//! A source in memory.
ghost use Rattle.std.specs.Prelude.{◌≡◌, ◌+◌, ◌<◌, ◌≤◌, ◌↔◌, length, min, Some, IsErr, IfOk};
ghost use Rattle.std.specs.Io.{ReadsAtMost};
ghost use Rattle.std.specs.Io.KnownBytes.{ReadConsumes};
ghost use Rattle.hc_world.specs.Counts.{HasCause};
ghost use Rattle.hc_world.specs.Memory.{CountsCall, IsNextToFail};

use crate::faults::Failed;
use crate::planned_calls::PlannedCalls;
use crate::sources::Source;
use std::marker::Model;

/// A source of the bytes of a vector. Chosen reads fail, numbered from 0.
/// The number of a read stays at `u64::MAX` from there on.
#[derive(Debug, Drop)]
pub struct MemSource {
    bytes: Vec<u8>,
    at: usize,
    most: usize,
    calls: PlannedCalls,
}

impl Model for MemSource {
    ghost use Rattle.std.specs.Prelude.{◌<◌, ◌≤◌, drop, vec_len};
    ghost use Rattle.hc_world.specs.Memory.{SourceMemory};

    ghost Value = { SourceMemory };

    ghost view = { λ s. record { left = drop s.at s.bytes.items; most = s.most; calls = s.calls } };

    ghost invariant = { λ s. (0 < s.most) × (s.at ≤ vec_len s.bytes) };
}

impl MemSource {
    /// A source of these bytes, that gives at most `most` of them a read.
    /// It fails at each read whose number is in `fails`. No memory is taken, here or later.
    pub fn open(bytes: Vec<u8>, most: usize, fails: Vec<u64>) -> MemSource
        requires { 0 < most }
        ensures { result ≡ record {
          left = bytes.items;
          most = most;
          calls = record { fails = fails.items; count = 0; faults = 0 };
        } }
    {
        MemSource {
            bytes,
            at: 0,
            most,
            calls: PlannedCalls::new(fails),
        }
    }
}

impl Source for MemSource {
    ghost state = { λ s. record { left = Some s.left; faults = s.calls.faults; calls = s.calls.count } };

    fn read(&mut self, buffer: &mut [u8]) -> Result<usize, Failed>
        requires { 0 < length buffer.old }
        ensures bound { ReadsAtMost result buffer.new }
        ensures bytes { ReadConsumes (Some self.old.left) (Some self.new.left) result buffer.new }
        ensures cause { HasCause self.old.calls.faults self.new.calls.faults result }
        ensures call { self.new.calls.count ≤ self.old.calls.count + 1 }

        // What holds in memory beyond any source.
        ensures fails { IsErr result ↔ IsNextToFail self.old.calls }
        ensures amount { IfOk result
            (λ n. n ≡ min (min (length buffer.old) self.old.most) (length self.old.left)) }
        ensures counts { CountsCall self.old.calls self.new.calls result }
        ensures most { self.new.most ≡ self.old.most }
    {
        self.calls.count_call(false)?;
        let rest = &self.bytes[self.at..];
        let count = buffer.len().min(self.most).min(rest.len());
        buffer[..count].copy_from_slice(&rest[..count]);
        self.at += count;
        Ok(count)
    }
}
