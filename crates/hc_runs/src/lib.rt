//! How posts change in a delay and in a meeting, what every run keeps (rules, pairs of ends, fractions, and that what rests goes on), and
//! what follows where processes take turns.
#![tactic(auto)]

mod laws;
mod numbers;

pub use laws::{delay_laws, fraction_laws, meeting_laws, run_laws, turn_laws};
pub use numbers::read_numbers;
