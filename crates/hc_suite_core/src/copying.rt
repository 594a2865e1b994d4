//! Copies with ample memory. A copy of a system copies all its parts.

use hc_code::compile;
use hc_frac::Frac;
use hc_list::List;
use hc_term::{Configuration, Mark, ProcessState, System, Task};
use std::alloc::{AllocError, Global};

/// Whether the first processes of both have the same code.
fn is_same(alloc: Global, left: &System, right: &System) -> Result<bool, AllocError> {
    let Some(one) = left.processes.as_slice().first() else {
        return Ok(false);
    };
    let Some(other) = right.processes.as_slice().first() else {
        return Ok(false);
    };
    let code = compile(alloc, one)?;
    Ok(code.same(&compile(alloc, other)?))
}

/// A configuration in which each process stands at its beginning.
fn configuration_of(alloc: Global, system: &System) -> Result<Configuration, AllocError> {
    let mut processes = List::new(alloc);
    for process in system.processes.as_slice() {
        processes.push(ProcessState {
            todo: process.copy(alloc)?.body,
            store: List::from_slice(alloc, &[Frac::zero()])?,
            choices: 0,
            mark: Mark::Going,
        })?;
    }
    Ok(Configuration {
        clock: Frac::zero(),
        processes,
    })
}

/// Copies the system, a task of it and a configuration, and tells whether the codes are the same.
pub(crate) fn copies_of(alloc: Global, system: &System) -> Result<String, AllocError> {
    let Some(horizon) = Frac::new(1, 1) else {
        return String::from_str(alloc, "unknown");
    };
    if horizon.sign() <= 0 {
        return String::from_str(alloc, "unknown");
    }
    let task = Task::new(system.copy(alloc)?, 0, horizon, 1);
    let copy = task.copy(alloc)?.system;
    let state = configuration_of(alloc, &copy)?.copy(alloc)?;
    let is_whole = state.processes.len() == system.processes.len();
    if is_whole && is_same(alloc, system, &copy)? {
        String::from_str(alloc, "same")
    } else {
        String::from_str(alloc, "different")
    }
}
