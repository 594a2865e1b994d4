//! The simulator: the canonical run of a task, written line by line as it goes on.
#![tactic(auto)]

mod simulating;
mod writing;

pub use simulating::simulate;
pub use writing::write_history;
