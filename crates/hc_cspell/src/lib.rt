//! The canonical spelling of a program of the subset of C.
#![tactic(auto)]

mod expr;
mod level;
mod stmt;
mod unit;
mod writer;

pub use unit::spell;
