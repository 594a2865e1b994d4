//! Whether a trace is one of a behaviour of a task.
#![tactic(auto)]

mod ending;
mod following;
mod halting;
mod judge;
mod laws;
mod meeting;
mod names;
mod stops;
mod timing;
mod verdict;
mod walk;
mod words;

pub use judge::verify;
pub use laws::verdict_laws;
pub use verdict::Verdict;
pub use words::read_names;
