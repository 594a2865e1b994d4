//! Answers rows of calls of the top call, one a line: the status, and what stands on output and on error; and rows of
//! trace texts that are read.
#![tactic(auto)]

mod again;
mod calling;
mod reports;
mod tracing;
mod verified;
mod worlds;

use again::again;
use calling::{answer_of, source_of};
use std::alloc::{AllocError, Global};
use std::io;
use std::sync::Wait;
use std::thread::Threads;
use tracing::{place_of, trace_of};
use verified::verified;

/// The answer to a row `WORDS | WORLD | SOURCE`, or `channels_again TIMES WORKERS | | SOURCE`, `verified WORDS | | SOURCE`,
/// `read_trace | | TEXT` or `split_text | | TEXT`. Any other line stands for itself.
fn answer_to<R: Threads + Wait + Sync>(
    rt: &R,
    alloc: Global,
    line: &str,
) -> Result<String, AllocError> {
    let Some((words, rest)) = line.split_once('|') else {
        return String::from_str(alloc, line);
    };
    let Some((world, text)) = rest.split_once('|') else {
        return String::from_str(alloc, line);
    };
    match words.trim() {
        "read_trace" => trace_of(alloc, source_of(alloc, text)?.as_slice()),
        "split_text" => place_of(alloc, source_of(alloc, text)?.as_slice()),
        words => called(rt, alloc, words, world, text),
    }
}

/// The answer to a row of calls.
fn called<R: Threads + Wait + Sync>(
    rt: &R,
    alloc: Global,
    words: &str,
    world: &str,
    source: &str,
) -> Result<String, AllocError> {
    if let Some(numbers) = words.strip_prefix("channels_again ") {
        return again(rt, alloc, numbers, source);
    }
    match words.strip_prefix("verified ") {
        Some(words) => verified(rt, alloc, words, source),
        None => answer_of(rt, alloc, words, world, source),
    }
}

fn main(rt: HostRuntime) -> io::Result<()> {
    for line in rt.lines(rt.alloc()) {
        let line = line?;
        let answer = answer_to(&rt, rt.alloc(), line.as_str())?;
        println!(rt; "{answer}")?;
    }
    Ok(())
}
