//! The tokens of a unit of the subset of C, read from a text one by one.
#![tactic(auto)]

mod fixed;
mod kind;
mod number;
mod piece;
mod quoted;
mod scanner;
mod token;
mod word;

pub use fixed::Fixed;
pub use kind::Kind;
pub use scanner::Scanner;
pub use token::{Lexeme, Token};
