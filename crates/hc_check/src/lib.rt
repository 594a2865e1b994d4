//! The checks of an expanded source: its system with names as numbers, or its first refusal.
#![tactic(auto)]

mod checking;
mod laws;
mod numbering;

pub use checking::check;
pub use hc_finds::{CheckStop, What};
pub use laws::system_laws;
