//! Answers rows of questions about texts of the subset of C, one a line: which program they are, or where they are refused, whether two
//! are the same program, how it is written, what it does on the thread machine; and about the lines of the prelude.
#![tactic(auto)]

mod executing;
mod prelude_lines;
mod reading;
mod showing;

use executing::executed;
use hc_rows::Asked;
use prelude_lines::prelude_line;
use reading::{compared, read_unit, read_whole, written};
use std::alloc::{AllocError, Global};
use std::io;

/// The answer to a question about one text, or about two.
fn answer_to_question(alloc: Global, kind: &str, asked: &Asked) -> Result<String, AllocError> {
    match (kind, &asked.other) {
        ("read", None) => read_unit(alloc, &asked.text),
        ("prelude", None) => prelude_line(alloc, &asked.text),
        ("write", None) => written(alloc, &asked.text),
        ("whole", None) => read_whole(alloc, &asked.text),
        ("same", Some(other)) => compared(alloc, &asked.text, other),
        _ => String::from_str(alloc, "unknown"),
    }
}

/// The answer to a row `KIND | TEXT`, `KIND | TEXT ~ TEXT` or `exec | SEED STEPS | UNIT`. Any other line stands for itself.
fn answer_to(alloc: Global, line: &str) -> Result<String, AllocError> {
    match line.split_once(" | ") {
        Some(("exec", row)) => executed(alloc, row),
        Some((kind, texts)) => {
            let asked = Asked::of_row(alloc, texts)?;
            answer_to_question(alloc, kind, &asked)
        }
        None => String::from_str(alloc, line),
    }
}

fn main(rt: HostRuntime) -> io::Result<()> {
    for line in rt.lines(rt.alloc()) {
        let line = line?;
        let answer = answer_to(rt.alloc(), line.as_str())?;
        println!(rt; "{answer}")?;
    }
    Ok(())
}
