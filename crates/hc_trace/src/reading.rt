//! Traces read from their texts.
ghost use Rattle.std.specs.Prelude.{◌≡◌, ◌<◌, ◌^◌, length, IfOk, IfErr};
ghost use Rattle.hc_trace.specs.Traces.{IsTraceText};
ghost use Rattle.hc_trace.specs.Stops as spec;

use crate::cut::cut;
use crate::rows::{end_of, line_of, version_of};
use crate::traces::Trace;
use hc_list::List;
use std::alloc::{AllocError, Global};

/// Why there is no trace.
#[derive(Clone, Copy, Debug, PartialEq, Eq)]
pub enum TraceStop {
    /// The line with this number, from 1, is the first that can't stand there.
    Line { number: u32 },
    /// Memory ran out.
    Memory,
}

impl From<AllocError> for TraceStop {
    ghost use Rattle.hc_trace.specs.declared.reading.TraceStop.TheVariants.{Memory};

    ghost from_gives = { λ _ stop. stop ≡ Memory };

    fn from(_: AllocError) -> TraceStop {
        TraceStop::Memory
    }
}

/// The trace that has this text, of version 1 or 2 and with or without its end line, or the first line that can't
/// stand there.
pub fn read_trace(alloc: Global, bytes: &[u8]) -> Result<Trace, TraceStop>
    requires { length bytes.now < 2 ^ 32 }
    ensures { spec.IsExact bytes.now result }
{
    read_lines(alloc, bytes)
}

/// Reads line by line.
fn read_lines(alloc: Global, bytes: &[u8]) -> Result<Trace, TraceStop>
    requires { length bytes.now < 2 ^ 32 }
    ensures trace { IfOk result (IsTraceText bytes.now) }
    ensures refusal { IfErr result (spec.IsStop bytes.now) }
{
    let Some((header, mut rest)) = cut(bytes, b'\n') else {
        return Err(TraceStop::Line { number: 1 });
    };
    let Some(version) = version_of(header) else {
        return Err(TraceStop::Line { number: 1 });
    };
    let mut lines = List::new(alloc);
    let mut number: u32 = 2;
    while !rest.is_empty() {
        let Some((row, after)) = cut(rest, b'\n') else {
            return Err(TraceStop::Line { number });
        };
        if let Some(end) = end_of(row) {
            if !after.is_empty() {
                return Err(TraceStop::Line { number: number + 1 });
            }
            return Ok(Trace {
                version,
                lines,
                end: Some(end),
            });
        }
        let Some(line) = line_of(version, row) else {
            return Err(TraceStop::Line { number });
        };
        lines.push(line)?;
        rest = after;
        number += 1;
    }
    Ok(Trace {
        version,
        lines,
        end: None,
    })
}
