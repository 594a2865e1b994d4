//! The section of a thread in C: it enters its steps, and tests whether to wait.
#![tactic(auto)]

mod section;

pub use section::section_tree;
