//! Lists and boxes that contracts see as plain data: a copy equals what it copies, and trees reach themselves.
#![tactic(auto)]

mod fixed;

pub use fixed::FixedList;
pub use sqlite_items::{Boxed, Items as List};
