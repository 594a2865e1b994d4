//! Expanded sources, and their systems.

use crate::expanding::flat_of;
use hc_check::check;
use hc_frac::Name;
use hc_rows::put_word;
use hc_term::System;
use std::alloc::{AllocError, Global};

fn push_names(text: &mut String, names: &[Name]) -> Result<(), AllocError> {
    for name in names {
        put_word(text, name.text())?;
    }
    Ok(())
}

/// The channels of a system in order, and the variables of each process in order.
fn numbered(alloc: Global, system: &System) -> Result<String, AllocError> {
    let mut text = String::from_str(alloc, "channels")?;
    push_names(&mut text, system.channels.as_slice())?;
    for process in system.processes.as_slice() {
        text.push_str(", variables")?;
        push_names(&mut text, process.variables.as_slice())?;
    }
    Ok(text)
}

/// How the names of an accepted source are numbered, or the refusal.
pub(crate) fn checked(alloc: Global, text: &[u8]) -> Result<String, AllocError> {
    let Some(Ok(flat)) = flat_of(alloc, text) else {
        return String::from_str(alloc, "no flat source");
    };
    match check(alloc, &flat) {
        Ok(system) => numbered(alloc, &system),
        Err(stop) => format!(in alloc; "{stop:?}"),
    }
}
