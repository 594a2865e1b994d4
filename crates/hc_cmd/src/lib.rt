//! The top call: from the words and the bytes that come in to the bytes that go out.
#![tactic(auto)]

mod accepting;
mod answering;
mod ending;
mod executing;
mod laws;
mod listing;
mod making;
mod prepared;
mod refusal;
mod replying;
mod report;
mod running;
mod simulation;
mod tracing;

pub use answering::{answer, answer_run};
pub use laws::acceptance_laws;
