//! One pass of the core's C is one pass of the language.
#![tactic(auto)]

mod laws;

pub use laws::pass_laws;
