//! The words of a call: what they ask for, or that they ask for nothing there is.
#![tactic(auto)]

mod actions;
mod laws;
mod line;
mod numbers;
mod requests;
mod running;
mod settings;

pub use laws::call_laws;
pub use requests::{Request, WordsStop, asked_for};
pub use running::asked_to_run;
pub use settings::{ExecutionRequest, Made, RunRequest, Settings};
