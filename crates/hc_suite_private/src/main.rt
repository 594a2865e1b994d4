//! Answers rows about the private code of a thread, one a line: the body of a process is run on the thread machine, act by act, and shows
//! locals and registers.
#![tactic(auto)]

mod acts;
mod running;
mod tasks;
mod unit;

use acts::{Act, values_shown};
use hc_cprivate::private_body;
use running::printed;
use std::alloc::{AllocError, Global};
use std::io;
use tasks::task_of;
use unit::unit_of;

/// The seed and the number of the process in the words `SEED PROCESS`.
fn settings(words: &str) -> (u64, u32) {
    let (seed, process) = words.split_once(' ').unwrap_or((words, ""));
    (
        seed.parse::<u64>().unwrap_or(0),
        process.parse::<u32>().unwrap_or(0),
    )
}

/// What the process of this number shows at these acts.
fn shown(
    alloc: Global,
    seed: u64,
    process: u32,
    acts: &[Act],
    source: &str,
) -> Result<String, AllocError> {
    let Some(task) = task_of(alloc, seed, source.as_bytes())? else {
        return String::from_str(alloc, "refused");
    };
    if process as usize >= task.system.processes.len() {
        return String::from_str(alloc, "no process");
    }
    let body = private_body(alloc, &task, process)?;
    let unit = unit_of(alloc, process, body, acts)?;
    let text = printed(alloc, unit.as_bytes())?;
    values_shown(alloc, acts, text.as_str())
}

/// The answer to a row `SEED PROCESS | ACTS | SOURCE`. Any other line stands for itself.
fn answer_to(alloc: Global, line: &str) -> Result<String, AllocError> {
    let Some((words, rest)) = line.split_once(" | ") else {
        return String::from_str(alloc, line);
    };
    let Some((acts, source)) = rest.split_once(" | ") else {
        return String::from_str(alloc, line);
    };
    let (seed, process) = settings(words);
    let Some(acts) = Act::all(alloc, acts)? else {
        return String::from_str(alloc, "unknown act");
    };
    shown(alloc, seed, process, acts.as_slice(), source)
}

fn main(rt: HostRuntime) -> io::Result<()> {
    for line in rt.lines(rt.alloc()) {
        let line = line?;
        let answer = answer_to(rt.alloc(), line.as_str())?;
        println!(rt; "{answer}")?;
    }
    Ok(())
}
