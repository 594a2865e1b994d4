//! What a history leaves on a channel, or in the log of a process.

use hc_frac::Frac;
use hc_joint::Joint;
use hc_term::{Item, Step};
use std::alloc::{AllocError, Global};

/// Where to look.
#[derive(Clone, Copy)]
enum Spot {
    Channel(u32),
    LogOf(u32),
}

/// The value that the item leaves there, if it leaves one.
fn left_at(spot: Spot, item: &Item) -> Option<Frac> {
    match (spot, &item.step) {
        (Spot::Channel(here), Step::Comm { channel, value }) if *channel == here => Some(*value),
        (Spot::LogOf(here), Step::Silent { process, logged }) if *process == here => *logged,
        _ => None,
    }
}

/// All moments with what was left there then.
fn trail(alloc: Global, history: &[Item], spot: Spot) -> Result<Vec<(Frac, Frac)>, AllocError> {
    let mut trail = Vec::new(alloc);
    for item in history {
        if let Some(value) = left_at(spot, item) {
            trail.push((item.at, value))?;
        }
    }
    Ok(trail)
}

/// Whether both histories leave the same there.
fn agree_at(alloc: Global, one: &Joint, other: &Joint, spot: Spot) -> Result<bool, AllocError> {
    let one = trail(alloc, one.history(), spot)?;
    let other = trail(alloc, other.history(), spot)?;
    Ok(one.as_slice() == other.as_slice())
}

/// Whether both runs stop at the same moment in the same way, and leave the same on each channel and in each log.
pub(crate) fn agree(alloc: Global, one: &Joint, other: &Joint) -> Result<bool, AllocError> {
    if one.stop() != other.stop() || one.clock() != other.clock() {
        return Ok(false);
    }
    for channel in 0..one.task().system.channels.len() as u32 {
        if !agree_at(alloc, one, other, Spot::Channel(channel))? {
            return Ok(false);
        }
    }
    for process in 0..one.task().system.processes.len() as u32 {
        if !agree_at(alloc, one, other, Spot::LogOf(process))? {
            return Ok(false);
        }
    }
    Ok(true)
}
