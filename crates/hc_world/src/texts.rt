//! A whole text at once.
ghost use Rattle.hc_world.specs.Sinks.{PutsWhole};

use crate::faults::Failed;
use crate::pieces::{finish, put_piece};
use crate::sinks::Sink;

/// Writes a whole text and flushes it. Where the text is empty nothing is called.
pub fn put<K: Sink>(out: &mut K, text: &[u8]) -> Result<(), Failed>
    ensures { PutsWhole K.state out.old out.new result text.now }
{
    if text.is_empty() {
        return Ok(());
    }
    put_piece(out, text)?;
    finish(out)
}
