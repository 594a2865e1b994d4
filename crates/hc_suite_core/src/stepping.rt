//! What a process does and then shows.

use crate::acts::act_of;
use crate::runner::Runner;
use hc_rows::{Words, put_item};
use hc_term::System;
use std::alloc::{AllocError, Global};

/// The answer to `NUMBER SEED ACTS`: what comes of each act with the first process of the system as the process of
/// this number, and what it shows to the others at the end.
pub(crate) fn steps_of(alloc: Global, words: &str, system: &System) -> Result<String, AllocError> {
    let mut words = Words::of(words);
    let (Some(number), Some(seed)) = (words.number(), words.long_number()) else {
        return String::from_str(alloc, "unknown");
    };
    let Some(mut runner) = Runner::start(alloc, system, number, seed)? else {
        return String::from_str(alloc, "not built");
    };
    let mut text = String::new(alloc);
    for word in words.rest().split_whitespace() {
        match act_of(word) {
            Some(act) => runner.put_act(&mut text, act)?,
            None => put_item(&mut text, "unknown")?,
        }
    }
    runner.put_end(&mut text)?;
    Ok(text)
}
