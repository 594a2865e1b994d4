//! The board on which the processes of a system post what they show, where they meet, and on which time passes.
#![tactic(auto)]

mod able;
mod bits;
mod board;
mod deadlines;
mod delayed;
mod delays;
mod index;
mod laws;
mod meetings;
#[cfg(test)]
mod tests;

pub use board::Board;
pub use deadlines::Deadline;
pub use delayed::Delayed;
pub use laws::board_laws;
