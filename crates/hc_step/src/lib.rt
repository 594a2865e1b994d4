//! What a process keeps between its steps, and the steps of one process on its flat code.
#![tactic(auto)]

mod arrival;
mod delay;
mod laws;
mod local;
mod look;
mod meeting;
mod same;
mod stretch;
mod taking;

pub use laws::code_laws;
pub use local::Local;
pub use stretch::Stretch;
