//! Reads a source: the tree of a text, or the first place at which it is refused.
#![tactic(auto)]

mod counts;
mod expr_marks;
mod laws;
mod marks;
mod parsing;
mod source_marks;
mod stmt_marks;
mod text;
mod values;

pub use laws::text_laws;
pub use parsing::{ParseStop, parse};
