//! Reads a text of the subset of C: its program, or the first place at which it is refused.
#![tactic(auto)]

mod expr_marks;
mod laws;
mod marks;
mod reading;
mod stmt_marks;
mod unit_marks;
mod unit_text;
mod values;
mod whole;

pub use laws::{text_laws, unit_laws};
pub use reading::{UnitStop, read_unit};
pub use whole::{CStop, c_read};
