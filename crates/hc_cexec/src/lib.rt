//! The thread machine, run: a program made ready, its threads, and what they share.
#![tactic(auto)]

mod activation;
mod asked;
mod asking;
mod kernel;
mod machine;
mod opening;
mod row;
mod thread;
mod told;

pub use machine::Machine;
