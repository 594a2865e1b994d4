//! Turns whose silent steps are worked out beside the joint.

use crate::running::{put_run, task_of};
use hc_advance::Advance;
use hc_joint::{Joint, Turn};
use hc_rows::{Words, number, put_item, put_number, two_numbers};
use hc_term::{System, Task};
use std::alloc::{AllocError, Global};

/// What is done with an advance. They go by their places in the order in which they were opened, from 0.
#[derive(Clone, Copy)]
enum Hand {
    /// An advance of this process is opened.
    Open(u32),
    /// What is kept of the process is lent to the advance.
    Lease(u32, usize),
    Work(usize),
    /// A turn of the process, with the advance.
    Turn(u32, usize),
}

/// The act of a word: `o0`, `l0:1`, `w1` or `t0:1`.
fn read_hand(word: &str) -> Option<Hand> {
    if let Some(process) = word.strip_prefix('o') {
        return Some(Hand::Open(number(process)?));
    }
    if let Some(advance) = word.strip_prefix('w') {
        return Some(Hand::Work(number(advance)? as usize));
    }
    if let Some(pair) = word.strip_prefix('l') {
        let (process, advance) = two_numbers(pair, ':')?;
        return Some(Hand::Lease(process, advance as usize));
    }
    let (process, advance) = two_numbers(word.strip_prefix('t')?, ':')?;
    Some(Hand::Turn(process, advance as usize))
}

/// The words of what a turn answers.
fn words_of(turn: Turn) -> &'static str {
    match turn {
        Turn::Stopped => "stopped",
        Turn::NotAble => "not able",
        Turn::Recomputed => "recomputed",
        Turn::Cut => "cut",
        Turn::Taken => "taken",
    }
}

/// A joint with advances of its processes.
#[derive(Drop)]
struct Table {
    joint: Joint,
    advances: Vec<Advance>,
}

impl Table {
    /// Opens an advance of the process, if there is such a process.
    fn open(&mut self, alloc: Global, process: u32) -> Result<&'static str, AllocError> {
        let task = self.joint.task();
        if process as usize >= task.system.processes.len() {
            return Ok("unknown");
        }
        let advance = Advance::open(alloc, task, process)?;
        self.advances.push(advance)?;
        Ok("opened")
    }

    fn lease(&mut self, process: u32, at: usize) -> &'static str {
        let Some(advance) = self.advances.as_mut_slice().get_mut(at) else {
            return "unknown";
        };
        if self.joint.lease(process, advance) {
            "lent"
        } else {
            "not lent"
        }
    }

    fn work(&mut self, at: usize) -> &'static str {
        let Some(advance) = self.advances.as_mut_slice().get_mut(at) else {
            return "unknown";
        };
        advance.work();
        "worked"
    }

    fn turn(&mut self, process: u32, at: usize) -> &'static str {
        match self.advances.as_slice().get(at) {
            Some(advance) => words_of(self.joint.turn(process, advance)),
            None => "unknown",
        }
    }

    /// Does this, and tells what came of it.
    fn put_hand(&mut self, alloc: Global, text: &mut String, hand: Hand) -> Result<(), AllocError> {
        let words = match hand {
            Hand::Open(process) => self.open(alloc, process)?,
            Hand::Lease(process, at) => self.lease(process, at),
            Hand::Work(at) => self.work(at),
            Hand::Turn(process, at) => self.turn(process, at),
        };
        put_item(text, words)
    }

    /// Does what each of the words says, and tells what came of it.
    fn put_hands(
        &mut self,
        alloc: Global,
        text: &mut String,
        words: &str,
    ) -> Result<(), AllocError> {
        for word in words.split_whitespace() {
            match read_hand(word) {
                Some(hand) => self.put_hand(alloc, text, hand)?,
                None => put_item(text, "unknown")?,
            }
        }
        Ok(())
    }

    /// The run so far, and how many turns were worked out anew.
    fn put_end(&self, text: &mut String) -> Result<(), AllocError> {
        put_run(text, &self.joint, false)?;
        put_item(text, "recomputed")?;
        put_number(text, self.joint.recomputed())
    }
}

/// What comes of these words with a run of the task.
fn told(alloc: Global, task: Task, words: &str) -> Result<String, AllocError> {
    let joint = Joint::open(alloc, task)?;
    let mut table = Table {
        joint,
        advances: Vec::new(alloc),
    };
    let mut text = String::new(alloc);
    table.put_hands(alloc, &mut text, words)?;
    table.put_end(&mut text)?;
    Ok(text)
}

/// The answer to `HORIZON LIMIT SEED ACTS`: what comes of each act, and the run so far.
pub(crate) fn hands_of(alloc: Global, words: &str, system: &System) -> Result<String, AllocError> {
    let mut words = Words::of(words);
    match task_of(alloc, system, &mut words)? {
        Some(task) => told(alloc, task, words.rest()),
        None => String::from_str(alloc, "unknown"),
    }
}
