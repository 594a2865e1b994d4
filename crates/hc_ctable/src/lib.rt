//! The table of the subset of C: what each phrase is before a token of each kind.
#![tactic(auto)]

mod head;
mod kinds;
mod rows;

pub use head::Head;
pub use kinds::takes;
pub use rows::{Rule, row_at};
