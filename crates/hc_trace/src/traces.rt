//! A trace as data, as a text says it.

use hc_frac::{Frac, Name};
use hc_list::List;

/// The version of a trace text, told by its header: `hcsp-trace 1` or `hcsp-trace 2`.
#[derive(Clone, Copy, Debug, PartialEq, Eq)]
pub enum Version {
    First,
    Second,
}

/// A trace: its lines in order, and its end line where there is one.
#[derive(Drop)]
pub struct Trace {
    pub version: Version,
    pub lines: List<TraceLine>,
    pub end: Option<TraceEnd>,
}

/// A visible step with the clock before it, in time units.
#[derive(Drop)]
pub struct TraceLine {
    pub at: Frac,
    pub event: TraceEvent,
}

/// A visible step.
#[derive(Drop)]
pub enum TraceEvent {
    /// So many time units pass.
    Delay {
        by: Frac,
    },
    /// The value is handed over on the channel. Both names are there exactly in version 2.
    Comm {
        channel: Name,
        sender: Option<Name>,
        receiver: Option<Name>,
        value: Frac,
    },
    /// The process logs the value.
    Log {
        process: Name,
        value: Frac,
    },
}

/// How a run stops.
#[derive(Clone, Copy, Debug, PartialEq, Eq)]
pub enum EndKind {
    Terminated,
    Deadlock,
    Horizon,
    Limit,
    /// A working value doesn't fit a fraction.
    Overflow,
}

/// How the run stops, and the clock reached. At an overflow `who` is the process whose next step it is, or `None` for
/// the clock; at any other end it is `None`.
#[derive(Drop)]
pub struct TraceEnd {
    pub kind: EndKind,
    pub at: Frac,
    pub who: Option<Name>,
}
