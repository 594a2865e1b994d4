//! The thread machine: what a C program of the subset does, under every schedule.
#![tactic(auto)]

mod exec_end;
mod kind;
mod laws;
mod moved;

pub use exec_end::ExecEnd;
pub use kind::Kind;
pub use laws::{items, schedules, two_threads};
pub use moved::Moved;
