//! Answers rows of questions to the core, one a line: the silent steps of a process, the run of a system, turns whose steps
//! are worked out beside it, the end moment of a domain, and copies.
#![tactic(auto)]

mod accepting;
mod acts;
mod copying;
mod ending;
mod handing;
mod runner;
mod running;
mod showing;
mod stepping;

use accepting::system_of;
use copying::copies_of;
use ending::{end_of, end_of_many};
use handing::hands_of;
use hc_term::System;
use running::run_of;
use std::alloc::{AllocError, Global};
use std::io;
use stepping::steps_of;

/// The answer to a question about a system.
fn answer_about(alloc: Global, question: &str, system: &System) -> Result<String, AllocError> {
    match question.split_once(' ') {
        Some(("steps", words)) => steps_of(alloc, words, system),
        Some(("run", words)) => run_of(alloc, words, system),
        Some(("hands", words)) => hands_of(alloc, words, system),
        Some(("end", _)) => end_of(alloc, system),
        Some(("many", count)) => end_of_many(alloc, count),
        Some(("copy", _)) => copies_of(alloc, system),
        _ => String::from_str(alloc, "unknown"),
    }
}

/// The answer to a row `KIND WORDS | SOURCE`. A line without a source stands for itself.
fn answer_to(alloc: Global, line: &str) -> Result<String, AllocError> {
    let Some((question, source)) = line.split_once('|') else {
        return String::from_str(alloc, line);
    };
    match system_of(alloc, source.as_bytes())? {
        Some(system) => answer_about(alloc, question, &system),
        None => String::from_str(alloc, "refused"),
    }
}

fn main(rt: HostRuntime) -> io::Result<()> {
    for line in rt.lines(rt.alloc()) {
        let line = line?;
        let answer = answer_to(rt.alloc(), line.as_str())?;
        println!(rt; "{answer}")?;
    }
    Ok(())
}
