//! The processes of a task with their code, each with what it keeps between its steps.
#![tactic(auto)]

mod ending;
mod member;
mod members;

pub use ending::are_ended;
pub use member::Member;
pub use members::{move_all, open_all};
