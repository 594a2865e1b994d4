//! The private code of a thread with all its parts: values, tests, lines and end moments.
#![tactic(auto)]

mod blocks;
mod body;
mod laws;
mod pattern;

pub use body::{private_body, private_statements, thread_locals};
pub use laws::private_code_laws;
