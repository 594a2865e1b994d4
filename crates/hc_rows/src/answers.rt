//! The text of an answer: items with a comma between them, each of some words.

use itoa::Buffer;
use std::alloc::{AllocError, Global};

/// Begins an item with this word.
pub fn put_item(text: &mut String, word: &str) -> Result<(), AllocError> {
    if !text.is_empty() {
        text.push_str(", ")?;
    }
    text.push_str(word)
}

/// Puts a word behind the last.
pub fn put_word(text: &mut String, word: &str) -> Result<(), AllocError> {
    text.push(' ')?;
    text.push_str(word)
}

/// Puts the number behind the last word.
pub fn put_number(text: &mut String, number: u64) -> Result<(), AllocError> {
    let mut buffer = Buffer::new();
    put_word(text, buffer.format(number))
}

/// A text on one line, with `\n` for each newline; `no text` where the bytes are none.
pub fn on_one_line(alloc: Global, bytes: &[u8]) -> Result<String, AllocError> {
    str::from_utf8(bytes)
        .unwrap_or("no text")
        .replace(alloc, "\n", "\\n")
}
