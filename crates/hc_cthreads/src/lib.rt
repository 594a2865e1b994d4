//! The threads of a program of C that runs a task: what they promise under every schedule, and what of their parts gives that.
#![tactic(auto)]

mod laws;

pub use laws::section_laws;
