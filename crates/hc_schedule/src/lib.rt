//! Threads under one mutex: what their steps do, and that every schedule reduces to whole sections.
#![tactic(auto)]

mod status;

pub use status::Status;
