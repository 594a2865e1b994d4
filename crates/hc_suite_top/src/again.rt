//! What is handed over on each channel, by many runs on threads beside the call that makes none.

use crate::calling::answer_of;
use hc_rows::Words;
use std::alloc::{AllocError, Global};
use std::sync::Wait;
use std::thread::Threads;

/// The answer to `hcsp channels`, and how many of so many calls of `hcsp run --channels` by so many workers answer the same:
/// the status, output and error. `numbers` are `TIMES WORKERS`.
pub(crate) fn again<R: Threads + Wait + Sync>(
    rt: &R,
    alloc: Global,
    numbers: &str,
    source: &str,
) -> Result<String, AllocError> {
    let mut words = Words::of(numbers);
    let times = words.number().unwrap_or(0);
    let workers = words.word();
    let run = format!(in alloc; "hcsp run --channels --workers {workers}")?;
    let plain = answer_of(rt, alloc, "hcsp channels", "", source)?;
    let mut alike = 0_u32;
    for _ in 0..times {
        let answer = answer_of(rt, alloc, run.as_str(), "", source)?;
        if answer.as_str() == plain.as_str() {
            alike = alike.saturating_add(1);
        }
    }
    format!(in alloc; "{plain} | {alike} alike")
}
