//! A stretch of silent steps of one process, worked out beside the joint state and then handed in.
#![tactic(auto)]

mod advance;

pub use advance::Advance;
