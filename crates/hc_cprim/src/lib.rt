//! Formulas and primitives: what they are worth, and what a thread asks for by them.
#![tactic(auto)]

mod arithmetic;
mod arrays;
mod deed;
mod ints;
mod laws;
mod numbers;
mod primitives;
mod rows;
mod value;

pub use arithmetic::{Plain, Primitives, Two};
pub use arrays::Arrays;
pub use deed::{Deed, Line, Seat, Way};
pub use laws::formulas;
pub use numbers::Numbers;
pub use primitives::{literal, primitive};
pub use value::{value_of, values_of};
