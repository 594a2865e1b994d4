//! Answers rows of questions about texts, one a line: whether they are sources and have the same trees, how they are
//! printed, what they expand to, whether they are accepted, and where they are refused; and about made sources.
#![tactic(auto)]

mod checking;
mod expanding;
mod making;
mod reading;

use checking::checked;
use expanding::{expanded, expanded_as};
use hc_rows::Asked;
use making::made_as;
use reading::{compared, parsed, printed};
use std::alloc::{AllocError, Global};
use std::io;

/// The answer to a question about one text, or about two.
fn answer_to_question(alloc: Global, kind: &str, asked: &Asked) -> Result<String, AllocError> {
    match (kind, &asked.other) {
        ("parse", None) => parsed(alloc, &asked.text),
        ("print", None) => printed(alloc, &asked.text),
        ("expand", None) => expanded(alloc, &asked.text),
        ("check", None) => checked(alloc, &asked.text),
        ("same", Some(other)) => compared(alloc, &asked.text, other),
        ("expand", Some(other)) => expanded_as(alloc, &asked.text, other),
        ("made", Some(other)) => made_as(alloc, &asked.text, other),
        _ => String::from_str(alloc, "unknown"),
    }
}

/// The answer to a row `KIND | TEXT` or `KIND | TEXT ~ TEXT`. Any other line stands for itself.
fn answer_to(alloc: Global, line: &str) -> Result<String, AllocError> {
    match line.split_once(" | ") {
        Some((kind, texts)) => {
            let asked = Asked::of_row(alloc, texts)?;
            answer_to_question(alloc, kind, &asked)
        }
        None => String::from_str(alloc, line),
    }
}

fn main(rt: HostRuntime) -> io::Result<()> {
    for line in rt.lines(rt.alloc()) {
        let line = line?;
        let answer = answer_to(rt.alloc(), line.as_str())?;
        println!(rt; "{answer}")?;
    }
    Ok(())
}
