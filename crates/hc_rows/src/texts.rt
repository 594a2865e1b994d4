//! Texts as rows write them.

use std::alloc::{AllocError, Global};

/// What stands behind a backslash, and the byte that it means.
const ESCAPES: [(&str, u8); 8] = [
    ("n", b'\n'),
    ("r", b'\r'),
    ("t", b'\t'),
    ("x00", 0),
    ("x20", b' '),
    ("xa4", 0xa4),
    ("xc3", 0xc3),
    ("xff", 0xff),
];

/// The byte that such a part begins with, and what follows it.
fn unescaped(part: &str) -> (u8, &str) {
    for (name, byte) in ESCAPES {
        if let Some(rest) = part.strip_prefix(name) {
            return (byte, rest);
        }
    }
    (b'\\', part)
}

/// The bytes of a text with backslashes.
fn bytes_of(alloc: Global, text: &str) -> Result<Vec<u8>, AllocError> {
    let mut bytes = Vec::new(alloc);
    let mut parts = text.split('\\');
    if let Some(first) = parts.next() {
        bytes.extend_from_slice(first.as_bytes())?;
    }
    for part in parts {
        let (byte, rest) = unescaped(part);
        bytes.push(byte)?;
        bytes.extend_from_slice(rest.as_bytes())?;
    }
    Ok(bytes)
}

/// Puts a part so many times behind a text; `$` in it is 100 the first time, then 101, and so on.
fn push_times(alloc: Global, text: &mut String, times: u32, part: &str) -> Result<(), AllocError> {
    for number in 0..times {
        let number = format!(in alloc; "{}", number.saturating_add(100))?;
        let numbered = part.replace(alloc, "$", number.as_str())?;
        text.push_str(numbered.as_str())?;
    }
    Ok(())
}

/// The text in which what is to be repeated stands as often as it is to.
fn repeated(alloc: Global, row: &str) -> Result<String, AllocError> {
    let mut text = String::new(alloc);
    let mut is_repeated = false;
    for part in row.split('@') {
        match part.split_once(' ') {
            Some((times, part)) if is_repeated => {
                push_times(alloc, &mut text, times.parse::<u32>().unwrap_or(0), part)?;
            }
            _ => text.push_str(part)?,
        }
        is_repeated = !is_repeated;
    }
    Ok(text)
}

/// The bytes that a text of a row means: `\n`, `\r`, `\t` and some bytes as `\xff` are one byte, and `@64 (@` stands for 64
/// brackets. In what is repeated `$` is 100 the first time, then 101, and so on.
pub fn text_of(alloc: Global, row: &str) -> Result<Vec<u8>, AllocError> {
    let text = repeated(alloc, row)?;
    bytes_of(alloc, text.as_str())
}
