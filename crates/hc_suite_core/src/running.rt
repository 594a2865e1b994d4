//! Runs of a system, turn by turn.

use hc_frac::Frac;
use hc_joint::Joint;
use hc_limits::{DEFAULT_HORIZON, MOST_STEPS};
use hc_rows::{Words, number, put_item, put_number, put_word};
use hc_term::{Item, Step, Stop, System, Task};
use std::alloc::{AllocError, Global};

/// A step with the clock before it.
pub(crate) fn put_step(text: &mut String, item: &Item) -> Result<(), AllocError> {
    put_item(text, item.at.text().as_str())?;
    match &item.step {
        Step::Silent { process, logged } => {
            put_word(text, "silent")?;
            put_number(text, u64::from(*process))?;
            if let Some(value) = logged {
                put_word(text, "log")?;
                put_word(text, value.text().as_str())?;
            }
            Ok(())
        }
        Step::Comm { channel, value } => {
            put_word(text, "comm")?;
            put_number(text, u64::from(*channel))?;
            put_word(text, value.text().as_str())
        }
        Step::Delay { by } => {
            put_word(text, "delay")?;
            put_word(text, by.text().as_str())
        }
    }
}

/// How a run stopped.
pub(crate) fn put_stop(text: &mut String, stop: Stop) -> Result<(), AllocError> {
    match stop {
        Stop::Terminated => put_item(text, "terminated"),
        Stop::Deadlock => put_item(text, "deadlock"),
        Stop::Horizon => put_item(text, "horizon"),
        Stop::Limit => put_item(text, "limit"),
        Stop::Overflow { process: None } => put_item(text, "overflow *"),
        Stop::Overflow {
            process: Some(process),
        } => {
            put_item(text, "overflow")?;
            put_number(text, u64::from(process))
        }
    }
}

/// All steps so far, or their number alone; then the stop and the number of turns.
pub(crate) fn put_run(
    text: &mut String,
    joint: &Joint,
    is_counted: bool,
) -> Result<(), AllocError> {
    let history = joint.history();
    if is_counted {
        put_item(text, "steps")?;
        put_number(text, history.len() as u64)?;
    } else {
        for item in history {
            put_step(text, item)?;
        }
    }
    match joint.stop() {
        Some(stop) => put_stop(text, stop)?,
        None => put_item(text, "going")?,
    }
    put_item(text, "turns")?;
    put_number(text, joint.turns())
}

/// The horizon that a word says; `-` is one of 100.
fn horizon_of(word: &str) -> Option<Frac> {
    match word {
        "-" => Frac::new(DEFAULT_HORIZON, 1),
        _ => Frac::read(word.as_bytes()),
    }
}

/// The task of simulating a copy of the system by the words `HORIZON LIMIT SEED`, where they are numbers in range.
pub(crate) fn task_of(
    alloc: Global,
    system: &System,
    words: &mut Words<'_>,
) -> Result<Option<Task>, AllocError> {
    let horizon = horizon_of(words.word());
    let limit = words.number();
    let seed = words.long_number();
    let (Some(horizon), Some(limit), Some(seed)) = (horizon, limit, seed) else {
        return Ok(None);
    };
    if horizon.sign() <= 0 || limit < 1 || u64::from(limit) > MOST_STEPS {
        return Ok(None);
    }
    Ok(Some(Task::new(system.copy(alloc)?, seed, horizon, limit)))
}

/// Takes so many turns, and tells which of them were taken.
fn put_turns(text: &mut String, joint: &mut Joint, turns: u32) -> Result<(), AllocError> {
    for _turn in 0..turns {
        put_item(text, if joint.forward() { "yes" } else { "no" })?;
    }
    Ok(())
}

/// The run of the task that comes of `HOW`.
fn told(alloc: Global, task: Task, how: &str) -> Result<String, AllocError> {
    let mut joint = Joint::open(alloc, task)?;
    let mut text = String::new(alloc);
    match number(how) {
        Some(turns) => put_turns(&mut text, &mut joint, turns)?,
        None => joint.finish(),
    }
    put_run(&mut text, &joint, how == "count")?;
    Ok(text)
}

/// The answer to `HORIZON LIMIT SEED HOW`: the run of the system that comes of `HOW`.
pub(crate) fn run_of(alloc: Global, words: &str, system: &System) -> Result<String, AllocError> {
    let mut words = Words::of(words);
    match task_of(alloc, system, &mut words)? {
        Some(task) => told(alloc, task, words.word()),
        None => String::from_str(alloc, "unknown"),
    }
}
