//! From a text to a task.

use hc_check::check;
use hc_frac::Frac;
use hc_limits::MOST_SOURCE_BYTES;
use hc_modules::expand;
use hc_parse::parse;
use hc_term::{System, Task};
use std::alloc::Global;

/// The number of steps to which runs are limited.
const LIMIT: u32 = 10_000;

/// The system of a text, or `None` where the text is refused.
fn system_of(alloc: Global, source: &[u8]) -> Option<System> {
    if source.len() > MOST_SOURCE_BYTES {
        return None;
    }
    let tree = parse(alloc, source).ok()?;
    let flat = expand(alloc, &tree).ok()?;
    check(alloc, &flat).ok()
}

/// The task of running the system of a text up to this horizon, a fraction, with the seed 0; `None` where the text or the
/// horizon is refused.
pub(crate) fn task_of(alloc: Global, horizon: &str, source: &[u8]) -> Option<Task> {
    let system = system_of(alloc, source)?;
    let horizon = Frac::read(horizon.as_bytes())?;
    if horizon.sign() <= 0 {
        return None;
    }
    Some(Task::new(system, 0, horizon, LIMIT))
}
