//! The flat code of a process: one instruction for each statement, and one last `End`.
#![tactic(auto)]

mod code;
mod count;
mod emit;
mod same;

pub use code::{Instr, ProcCode, Way};
pub use emit::compile;
