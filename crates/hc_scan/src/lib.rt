//! The tokens of a text, with their places, for every language that says what a text begins with.
#![tactic(auto)]

mod piece;
mod scanner;
mod spelling;

pub use piece::Piece;
pub use scanner::{Lexer, Scanner};
pub use spelling::{HasSpelling, in_front, spelled};
