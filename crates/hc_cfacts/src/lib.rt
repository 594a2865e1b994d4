//! What the rules of the C grammar give to whoever runs a program.
#![tactic(auto)]

mod laws;

pub use laws::program_laws;
