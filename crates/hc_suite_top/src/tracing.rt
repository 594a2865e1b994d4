//! Trace texts that are read.

use hc_frac::Name;
use hc_rows::put_word;
use hc_trace::{
    EndKind, Trace, TraceEnd, TraceEvent, TraceLine, TraceStop, Version, read_trace, split_text,
};
use std::alloc::{AllocError, Global};

fn push_name(text: &mut String, name: &Option<Name>) -> Result<(), AllocError> {
    match name {
        Some(name) => put_word(text, name.text()),
        None => Ok(()),
    }
}

fn push_line(text: &mut String, line: &TraceLine) -> Result<(), AllocError> {
    text.push_str(", ")?;
    text.push_str(line.at.text().as_str())?;
    match &line.event {
        TraceEvent::Delay { by } => {
            put_word(text, "delay")?;
            put_word(text, by.text().as_str())
        }
        TraceEvent::Comm {
            channel,
            sender,
            receiver,
            value,
        } => {
            put_word(text, "comm")?;
            put_word(text, channel.text())?;
            push_name(text, sender)?;
            push_name(text, receiver)?;
            put_word(text, value.text().as_str())
        }
        TraceEvent::Log { process, value } => {
            put_word(text, "log")?;
            put_word(text, process.text())?;
            put_word(text, value.text().as_str())
        }
    }
}

fn push_end(text: &mut String, end: &TraceEnd) -> Result<(), AllocError> {
    text.push_str(", end")?;
    let kind = match end.kind {
        EndKind::Terminated => "terminated",
        EndKind::Deadlock => "deadlock",
        EndKind::Horizon => "horizon",
        EndKind::Limit => "limit",
        EndKind::Overflow => "overflow",
    };
    put_word(text, kind)?;
    put_word(text, end.at.text().as_str())?;
    push_name(text, &end.who)
}

/// The version, the lines and the end of a trace, as they were read.
fn told(alloc: Global, trace: &Trace) -> Result<String, AllocError> {
    let version = match trace.version {
        Version::First => "version 1",
        Version::Second => "version 2",
    };
    let mut text = String::from_str(alloc, version)?;
    for line in trace.lines.as_slice() {
        push_line(&mut text, line)?;
    }
    if let Some(end) = &trace.end {
        push_end(&mut text, end)?;
    }
    Ok(text)
}

/// What is read of a text, or the first line that can't stand there.
pub(crate) fn trace_of(alloc: Global, bytes: &[u8]) -> Result<String, AllocError> {
    if bytes.len() > 100_000 {
        return String::from_str(alloc, "too long");
    }
    match read_trace(alloc, bytes) {
        Ok(trace) => told(alloc, &trace),
        Err(TraceStop::Line { number }) => format!(in alloc; "line {number}"),
        Err(TraceStop::Memory) => Err(AllocError),
    }
}

/// Where a trace begins in a text, if one does.
pub(crate) fn place_of(alloc: Global, bytes: &[u8]) -> Result<String, AllocError> {
    match split_text(bytes) {
        Some(place) => format!(in alloc; "{place}"),
        None => String::from_str(alloc, "none"),
    }
}
