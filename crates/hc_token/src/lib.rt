//! The tokens of the source language, read from a text one by one.
#![tactic(auto)]

mod fixed;
mod kind;
mod number;
mod piece;
mod scanner;
mod token;
mod word;

pub use fixed::Fixed;
pub use kind::Kind;
pub use scanner::Scanner;
pub use token::{Lexeme, Token};
