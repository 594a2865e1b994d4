//! Programs made ready to run: names by their places, statements as nodes that name the places at which they go on.
#![tactic(auto)]

mod code;
mod emit;
mod formula;
mod leaf;
mod places;
mod program;

pub use code::{Case, Code, Entry, Formula, Node};
pub use program::prepare;
