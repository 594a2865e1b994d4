//! Rows of questions, as the programs that test read them from a line each, and what their answers are put together of.
#![tactic(auto)]

mod answers;
mod asked;
mod texts;
mod words;

pub use answers::{on_one_line, put_item, put_number, put_word};
pub use asked::Asked;
pub use texts::text_of;
pub use words::{Words, long_number, number, two_numbers};
