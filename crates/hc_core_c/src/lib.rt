//! The core that threads of C share: its arrays and its functions, written as trees.
#![tactic(auto)]

mod arrays;
mod asking;
pub mod expr;
mod laws;
pub mod list;
mod meeting;
mod moving;
mod passing;
mod places;
pub mod stmt;
mod tree;

pub use arrays::core_arrays;
pub use laws::core_laws;
pub use tree::core_tree;
