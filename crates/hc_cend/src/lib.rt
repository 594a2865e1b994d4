//! The end moment of an evolution's domain in generated C.
#![tactic(auto)]

mod compared;
mod crossing;
mod ends;
mod laws;
mod places;
mod search;
mod sign;
mod tree;

pub use ends::push_ends;
pub use laws::{candidate_laws, end_moment_laws};
