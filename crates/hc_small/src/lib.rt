//! A small language that is read by the generic reader: names that are declared, used and dropped.
#![tactic(auto)]

mod names;
#[cfg(test)]
mod tests;
mod texts;
mod tokens;

pub use names::Names;
pub use texts::{is_ended, parse};
pub use tokens::Tokens;
