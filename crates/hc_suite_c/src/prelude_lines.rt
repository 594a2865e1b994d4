//! The prelude, line by line.

use hc_cgrammar::PRELUDE;
use hc_rows::number as number_in;
use std::alloc::{AllocError, Global};

/// A line of the prelude by its number, from 1.
pub(crate) fn prelude_line(alloc: Global, number: &[u8]) -> Result<String, AllocError> {
    let number = number_in(str::from_utf8(number).unwrap_or("")).unwrap_or(0);
    let text = str::from_utf8(PRELUDE).unwrap_or("");
    let mut at: u32 = 1;
    for line in text.split('\n') {
        if at == number {
            return String::from_str(alloc, line);
        }
        at = at.saturating_add(1);
    }
    String::from_str(alloc, "no line")
}
