//! Writing of C texts: the prelude and the canonical spelling of a program, which is read as that very program.
#![tactic(auto)]

mod laws;
mod text;

pub use laws::reading_back;
pub use text::{c_write, write_unit};
