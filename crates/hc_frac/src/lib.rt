//! Exact fractions with their text, decimal numbers as they are written, names and places.
#![tactic(auto)]

mod decimal;
mod frac;
mod lowest;
mod name;
mod place;
mod reading;

pub use decimal::Decimal;
pub use frac::{Frac, earlier};
pub use name::Name;
pub use place::Place;
