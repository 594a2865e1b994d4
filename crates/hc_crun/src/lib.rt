//! Runs of C programs under the schedule of a seed, written line by line.
#![tactic(auto)]

mod executing;
mod telling;

pub use executing::{ExecStop, exec, exec_by, exec_counted, exec_opened};
