//! Reading by a table: the theory of it, and the loop that serves every language whose next token
//! decides.
#![tactic(auto)]

mod language;
mod reading;
mod source;
mod stack;
mod symbol;
#[cfg(test)]
mod tests;
mod theorems;
mod whole;

pub use language::{Fault, Reader, Row};
pub use reading::Reading;
pub use source::Source;
pub use stack::Stack;
pub use symbol::Symbol;
pub use theorems::{has_one_answer, have_one_text, reads_exactly};
pub use whole::{Stop, read};
