//! How expressions move in an evolution, and when its domain turns false.
#![tactic(auto)]

mod ending;
mod gaps;
mod laws;
mod lines;
mod truth;

pub use ending::end_moment;
pub use laws::{end_moment_laws, line_laws};
pub use lines::{Linear, affine};
