//! The text of a run.

use hc_joint::Joint;
use hc_rows::on_one_line;
use hc_sim::write_history;
use hc_world::MemSink;
use std::alloc::{AllocError, Global};

/// So many bytes have room in a text.
const ROOM: usize = 65_536;

/// The sink on which the text of the run was written, as far as it has room; it stays empty where no stop stands.
fn written(alloc: Global, joint: &Joint) -> Result<MemSink, AllocError> {
    let mut sink = MemSink::open(alloc, ROOM, Vec::new(alloc))?;
    if joint.stop().is_some() {
        let _written = write_history(joint, &mut sink);
    }
    Ok(sink)
}

/// Whether both runs have the same text.
pub(crate) fn are_same_texts(
    alloc: Global,
    one: &Joint,
    other: &Joint,
) -> Result<bool, AllocError> {
    let one = written(alloc, one)?;
    let other = written(alloc, other)?;
    Ok(one.bytes() == other.bytes())
}

/// The text of the run on one line.
pub(crate) fn text_of(alloc: Global, joint: &Joint) -> Result<String, AllocError> {
    let sink = written(alloc, joint)?;
    on_one_line(alloc, sink.bytes())
}
