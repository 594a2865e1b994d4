//! Where bytes go.
ghost use Rattle.std.specs.Prelude.{◌≡◌, ◌<◌, [], length, IsOk, OnOk, OnErr};
ghost use Rattle.hc_world.specs.Counts.{HasCause};
ghost use Rattle.hc_world.specs.States.{SinkState};
ghost use Rattle.hc_world.specs.Written.{Adds, AddsPart, FlushKeeps, WriteAdds};

use crate::faults::Failed;

/// Something that takes bytes, and counts its faults.
pub trait Sink {
    // its bytes, where they are told, and its count of faults
    ghost state: { Self → SinkState };

    /// Takes bytes from the front of `piece`, and answers how many: at least 1.
    /// A write that fails takes nothing.
    fn write(&mut self, piece: &[u8]) -> Result<usize, Failed>
        requires { 0 < length piece.now }
        ensures bytes { WriteAdds (state self.old).told (state self.new).told result piece.now }
        ensures cause { HasCause (state self.old).faults (state self.new).faults result };

    /// Hands on all bytes that were written.
    fn flush(&mut self) -> Result<(), Failed>
        ensures bytes { FlushKeeps (state self.old).told (state self.new).told result }
        ensures cause { HasCause (state self.old).faults (state self.new).faults result };
}

/// Writes all of `bytes`, by as many writes as the sink needs, and none where there are no bytes.
/// At the first write that fails a first part of them stands.
pub fn write_all<K: Sink>(sink: &mut K, bytes: &[u8]) -> Result<(), Failed>
    ensures all { OnOk result (Adds (K.state sink.old).told (K.state sink.new).told bytes.now) }
    ensures part { OnErr result (AddsPart (K.state sink.old).told (K.state sink.new).told bytes.now) }
    ensures cause { HasCause (K.state sink.old).faults (K.state sink.new).faults result }
    ensures nothing { bytes.now ≡ [] → IsOk result × (sink.new ≡ sink.old) }
{
    let mut at = 0;
    while at < bytes.len() {
        at += sink.write(&bytes[at..])?;
    }
    Ok(())
}
