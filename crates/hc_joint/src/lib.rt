//! The joint state of all processes of a task: what runs, on what it rests, and the history of the run.
#![tactic(auto)]

mod delay;
mod event;
mod handed;
mod joint;
mod scene;
mod turn;

pub use joint::Joint;
pub use turn::Turn;
