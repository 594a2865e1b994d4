//! The canonical spelling of a source tree.
#![tactic(auto)]

mod expr;
mod laws;
mod level;
mod sign;
mod stmt;
mod tree;
mod writer;

pub use laws::reading_back;
pub use tree::print;
