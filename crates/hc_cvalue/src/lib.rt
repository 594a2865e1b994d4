//! The code of expressions, conditions and lines: what it is, and what it does.
#![tactic(auto)]

mod laws;
mod line;
mod truth;
mod value;

pub use laws::code_laws;
pub use line::push_line;
pub use truth::{push_test, push_truth};
pub use value::{negate, push_value};
