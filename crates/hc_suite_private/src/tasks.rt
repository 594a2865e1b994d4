//! From a text to a task.

use hc_check::{CheckStop, check};
use hc_frac::Frac;
use hc_limits::MOST_SOURCE_BYTES;
use hc_modules::{ModuleStop, expand};
use hc_parse::{ParseStop, parse};
use hc_term::{System, Task};
use std::alloc::{AllocError, Global};

/// The number of steps to which runs are limited; a body doesn't look at it.
const LIMIT: u32 = 10_000;

/// The system of a text, or `None` where the text is refused.
fn system_of(alloc: Global, source: &[u8]) -> Result<Option<System>, AllocError> {
    if source.len() > MOST_SOURCE_BYTES {
        return Ok(None);
    }
    let tree = match parse(alloc, source) {
        Ok(tree) => tree,
        Err(ParseStop::Memory) => return Err(AllocError),
        Err(_) => return Ok(None),
    };
    let flat = match expand(alloc, &tree) {
        Ok(flat) => flat,
        Err(ModuleStop::Memory) => return Err(AllocError),
        Err(_) => return Ok(None),
    };
    match check(alloc, &flat) {
        Ok(system) => Ok(Some(system)),
        Err(CheckStop::Memory) => Err(AllocError),
        Err(_) => Ok(None),
    }
}

/// A task over the system of a text, with this seed.
pub(crate) fn task_of(alloc: Global, seed: u64, source: &[u8]) -> Result<Option<Task>, AllocError> {
    let Some(system) = system_of(alloc, source)? else {
        return Ok(None);
    };
    let Some(horizon) = Frac::new(100, 1) else {
        return Ok(None);
    };
    if horizon.sign() <= 0 {
        return Ok(None);
    }
    Ok(Some(Task::new(system, seed, horizon, LIMIT)))
}
