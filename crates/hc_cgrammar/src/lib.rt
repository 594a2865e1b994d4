//! What a unit of the subset of C is: its grammar, its program, its limits and its rules on names.
#![tactic(auto)]

mod flaw;
mod prelude_text;
mod role;

pub use flaw::{Flaw, Refusal};
pub use prelude_text::{PRELUDE, UNIT_PLACE, prelude, unit_place};
pub use role::{Mark, Role};
