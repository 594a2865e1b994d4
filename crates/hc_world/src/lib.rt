//! The outside as values: sources of bytes, sinks for bytes, and the count of their faults.
#![tactic(auto)]

mod faults;
mod mem_sink;
mod mem_source;
mod pieces;
mod planned_calls;
mod sinks;
mod sources;
mod std_streams;
mod texts;

pub use faults::Failed;
pub use mem_sink::MemSink;
pub use mem_source::MemSource;
pub use pieces::{finish, put_piece};
pub use sinks::{Sink, write_all};
pub use sources::{ReadStop, Source, read_all};
pub use std_streams::{StdErr, StdOut, StdSource};
pub use texts::put;
