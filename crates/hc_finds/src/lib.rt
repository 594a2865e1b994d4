//! What breaks a rule in an expanded source, and its names.
#![tactic(auto)]

mod collect;
mod exprs;
mod limits;
mod names;
mod parts;
mod phases;
mod rules;
mod stop;
mod tables;
mod uses;

pub use stop::{CheckStop, What};
pub use tables::{NameTables, unrefused};
