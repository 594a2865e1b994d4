//! A text piece by piece.
ghost use Rattle.hc_world.specs.Pieces.{Finishes, PutsPiece};

use crate::faults::Failed;
use crate::sinks::{Sink, write_all};

/// Writes a piece of a text, which more pieces may follow before `finish`.
/// After an error nothing more is to be written.
pub fn put_piece<K: Sink>(sink: &mut K, piece: &[u8]) -> Result<(), Failed>
    ensures { PutsPiece K.state sink.old sink.new result piece.now }
{
    write_all(sink, piece)
}

/// Flushes a text whose last piece was written.
pub fn finish<K: Sink>(sink: &mut K) -> Result<(), Failed>
    ensures { Finishes K.state sink.old sink.new result }
{
    sink.flush()
}
