//! Traces that the program writes, given back to it.

use crate::calling::answer_of;
use std::alloc::{AllocError, Global};
use std::sync::Wait;
use std::thread::Threads;

/// The words of `hcsp verify` with the settings among these words: seed, horizon and limit.
fn words_to_verify(alloc: Global, words: &str) -> Result<String, AllocError> {
    let mut verify = String::from_str(alloc, "hcsp verify")?;
    let mut is_value = false;
    for word in words.split_whitespace() {
        let is_name = word == "--seed" || word == "--horizon" || word == "--limit";
        if is_name || is_value {
            verify.push_str(" ")?;
            verify.push_str(word)?;
        }
        is_value = is_name;
    }
    Ok(verify)
}

/// The part of an answer `STATUS | OUTPUT | ERROR` that stands on output.
fn output_of(answer: &str) -> &str {
    let rest = match answer.split_once(" | ") {
        Some((_, rest)) => rest,
        None => "",
    };
    match rest.split_once(" | ") {
        Some((output, _)) => output,
        None => rest,
    }
}

/// `verified` where the trace that the call by these words writes of a source is, as `hcsp verify` says with the same settings,
/// one of a behaviour of that source; else what `hcsp verify` answers.
pub(crate) fn verified<R: Threads + Wait + Sync>(
    rt: &R,
    alloc: Global,
    words: &str,
    source: &str,
) -> Result<String, AllocError> {
    let call = format!(in alloc; "hcsp {words}")?;
    let written = answer_of(rt, alloc, call.as_str(), "", source)?;
    let trace = output_of(written.as_str());
    let both = format!(in alloc; "{source}\\n{trace}")?;
    let verify = words_to_verify(alloc, words)?;
    let answer = answer_of(rt, alloc, verify.as_str(), "", both.as_str())?;
    if answer.as_str().starts_with("0 | verified ") {
        return String::from_str(alloc, "verified");
    }
    Ok(answer)
}
