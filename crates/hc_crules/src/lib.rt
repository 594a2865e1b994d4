//! What stands so far in a unit of the subset of C, as far as limits and rules on names ask, and what is wrong with a token.
#![tactic(auto)]

mod call;
mod named;
mod owner;
mod shape;
mod standing;
mod strings;
mod switches;
mod walking;
mod word;

pub use standing::Standing;
