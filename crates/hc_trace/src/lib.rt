//! The text of a run: its header, a line for each visible step, and the end line; and traces read from such texts.
#![tactic(auto)]

mod cut;
mod ends;
mod laws;
mod lines;
mod reading;
mod rows;
mod splitting;
mod traces;

pub use ends::ChannelEnds;
pub use laws::{range_laws, reading_laws};
pub use lines::{HEADER, end_line, event_line, header, line_of};
pub use reading::{TraceStop, read_trace};
pub use splitting::split_text;
pub use traces::{EndKind, Trace, TraceEnd, TraceEvent, TraceLine, Version};
