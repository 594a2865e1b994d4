//! What time does of one pass of the core.
#![tactic(auto)]

mod laws;

pub use laws::time_laws;
