//! What the run without threads hands over on each channel.

use hc_det::channels_text;
use hc_joint::Joint;
use hc_rows::on_one_line;
use hc_term::Task;
use std::alloc::{AllocError, Global};

/// The text of what the task's run hands over on each channel, on one line, with `\n` for each newline.
pub(crate) fn channels_of(alloc: Global, task: &Task) -> Result<String, AllocError> {
    let mut joint = Joint::open(alloc, task.copy(alloc)?)?;
    joint.finish();
    let text = channels_text(alloc, &joint)?;
    on_one_line(alloc, text.as_slice())
}
