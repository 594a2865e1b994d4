//! Traces made new: version 2, with the names that a system has for the ends of its channels.
#![tactic(auto)]

mod event;
mod laws;
mod line;
mod routes;
mod whole;

pub use laws::upgrade_laws;
pub use whole::{UpgradeStop, upgrade};
