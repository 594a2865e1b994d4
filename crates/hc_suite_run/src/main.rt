//! Answers rows of questions to the runner, one a line: runs by threads beside the run without any, two workers that wait
//! for each other, and what a run hands over on each channel.
#![tactic(auto)]

mod channels;
mod meeting;
mod tasks;
mod texts;
mod threads;
mod trails;

use channels::channels_of;
use hc_term::Task;
use meeting::meet_of;
use std::alloc::{AllocError, Global};
use std::io;
use std::sync::Wait;
use std::thread::Threads;
use tasks::task_of;
use threads::{Asked, Likeness};

/// The answer to a question about runs of the task.
fn answer_about<R: Threads + Wait + Sync>(
    rt: &R,
    alloc: Global,
    kind: &str,
    words: &str,
    task: &Task,
) -> Result<String, AllocError> {
    match kind {
        "meet" => meet_of(rt, alloc, task),
        "trails" => Asked::of(Likeness::Trails, words).answer(rt, alloc, task),
        "channels" => channels_of(alloc, task),
        "texts" => Asked::of(Likeness::Texts, words).answer(rt, alloc, task),
        _ => String::from_str(alloc, "unknown"),
    }
}

/// The answer to a row `KIND HORIZON WORDS | SOURCE`. A line without a source stands for itself.
fn answer_to<R: Threads + Wait + Sync>(
    rt: &R,
    alloc: Global,
    line: &str,
) -> Result<String, AllocError> {
    let Some((question, source)) = line.split_once('|') else {
        return String::from_str(alloc, line);
    };
    let (kind, words) = question.split_once(' ').unwrap_or(("", ""));
    let (horizon, words) = words.split_once(' ').unwrap_or(("", ""));
    match task_of(alloc, horizon, source.as_bytes()) {
        Some(task) => answer_about(rt, alloc, kind, words, &task),
        None => String::from_str(alloc, "refused"),
    }
}

fn main(rt: HostRuntime) -> io::Result<()> {
    for line in rt.lines(rt.alloc()) {
        let line = line?;
        let answer = answer_to(&rt, rt.alloc(), line.as_str())?;
        println!(rt; "{answer}")?;
    }
    Ok(())
}
