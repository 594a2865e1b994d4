//! Where bytes come from.
ghost use Rattle.std.specs.Prelude.{◌≡◌, ◌+◌, ◌<◌, ◌≤◌, length, vec_len, IfOk, IsErrOf};
ghost use Rattle.std.specs.Io.{ReadsAtMost};
ghost use Rattle.std.specs.Io.KnownBytes.{ReadConsumes};
ghost use Rattle.hc_world.specs.Counts.{HasCause, Rose};
ghost use Rattle.hc_world.specs.Reading.{ReadsAll, ReadsPast, ReadsWithin};
ghost use Rattle.hc_world.specs.States.{SourceState};

use crate::faults::Failed;
use std::alloc::{AllocError, Global};

/// Something that gives bytes, and counts its faults.
pub trait Source {
    // the bytes that are left, where they are told, and its counts of faults and of reads
    ghost state: { Self → SourceState };

    /// Puts the next bytes at the front of `buffer`, and answers how many: 0 only at the end.
    /// A read that fails takes nothing.
    fn read(&mut self, buffer: &mut [u8]) -> Result<usize, Failed>
        requires { 0 < length buffer.old }
        ensures bound { ReadsAtMost result buffer.new }
        ensures bytes { ReadConsumes (state self.old).left (state self.new).left result buffer.new }
        ensures cause { HasCause (state self.old).faults (state self.new).faults result }
        ensures call { (state self.new).calls ≤ (state self.old).calls + 1 };
}

/// Why a source was not read to its end.
#[derive(Clone, Copy, Debug, PartialEq, Eq)]
pub enum ReadStop {
    /// A read failed.
    Failed,
    /// More bytes came than were asked for at most.
    TooLong,
    /// Memory ran out.
    Memory,
}

impl From<Failed> for ReadStop {
    ghost use Rattle.hc_world.specs.declared.sources.ReadStop.TheVariants.{Failed as read_failed};

    ghost from_gives = { λ _ stop. stop ≡ read_failed };

    fn from(_failed: Failed) -> ReadStop {
        ReadStop::Failed
    }
}

impl From<AllocError> for ReadStop {
    ghost use Rattle.hc_world.specs.declared.sources.ReadStop.TheVariants.{Memory};

    ghost from_gives = { λ _ stop. stop ≡ Memory };

    fn from(_error: AllocError) -> ReadStop {
        ReadStop::Memory
    }
}

/// Reads all bytes to the end, where there are at most `most`, by at most `most + 2` reads.
/// Where memory runs out, some bytes were read and are lost.
pub fn read_all<S: Source>(alloc: Global, source: &mut S, most: usize) -> Result<Vec<u8>, ReadStop>
    ensures all { IfOk result (λ bytes.
        ReadsAll (S.state source.old).left (S.state source.new).left bytes.items) }
    ensures fits { IfOk result (λ bytes. vec_len bytes ≤ most) }
    ensures long { IsErrOf result ReadStop.TooLong →
        ReadsPast (S.state source.old).left (S.state source.new).left most }

    // Once more than `most` bytes came, no later fault is answered.
    ensures failed { IsErrOf result ReadStop.Failed →
        Rose (S.state source.old).faults (S.state source.new).faults }
    ensures before_fault { IsErrOf result ReadStop.Failed →
        ReadsWithin (S.state source.old).left (S.state source.new).left most }
    ensures kept { ¬ IsErrOf result ReadStop.Failed →
        (S.state source.new).faults ≡ (S.state source.old).faults }
    ensures reads { (S.state source.new).calls ≤ (S.state source.old).calls + (most + 2) }
{
    let mut bytes = Vec::new(alloc);
    let mut buffer = [0; 4096];
    loop {
        let count = source.read(&mut buffer)?;
        if count == 0 {
            return Ok(bytes);
        }
        if count > most - bytes.len() {
            return Err(ReadStop::TooLong);
        }
        bytes.extend_from_slice(&buffer[..count])?;
    }
}
