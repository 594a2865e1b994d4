//! The runner: the processes of a task, shared among threads in virtual time.
#![tactic(auto)]

mod close;
mod deal;
mod drive;
mod find;
mod floor;
mod gate;
mod locked;
mod share;
mod wanted;

pub use close::Outcome;
pub use drive::{run, run_on};
pub use gate::{Gate, OpenGate};
