//! Runs by threads, beside the run without any.

use crate::texts::are_same_texts;
use crate::trails::agree;
use hc_joint::Joint;
use hc_rows::Words;
use hc_run::{OpenGate, Outcome, run_on};
use hc_term::Task;
use std::alloc::{AllocError, Global};
use std::sync::Wait;
use std::thread::Threads;

/// Whether the numbers of the outcome add up to its turns, and none was worked out anew.
fn is_whole(outcome: &Outcome) -> bool {
    let mut sum = outcome.own_turns;
    for turns in outcome.turns.as_slice() {
        sum = sum.saturating_add(*turns);
    }
    sum == outcome.joint.turns() && outcome.joint.recomputed() == 0
}

/// What must be the same of a run by threads and the plain one.
#[derive(Clone, Copy)]
pub(crate) enum Likeness {
    Texts,
    Trails,
}

impl Likeness {
    fn holds(self, alloc: Global, one: &Joint, other: &Joint) -> Result<bool, AllocError> {
        match self {
            Likeness::Texts => are_same_texts(alloc, one, other),
            Likeness::Trails => agree(alloc, one, other),
        }
    }
}

/// By how many workers the task is run, on how many threads beside the caller's, and how often.
#[derive(Clone, Copy)]
pub(crate) struct Asked {
    likeness: Likeness,
    workers: u32,
    threads: u32,
    times: u32,
}

impl Asked {
    /// The numbers of `WORKERS THREADS TIMES`; what is no number is 0.
    pub(crate) fn of(likeness: Likeness, words: &str) -> Asked {
        let mut words = Words::of(words);
        Asked {
            likeness,
            workers: words.number().unwrap_or(0),
            threads: words.number().unwrap_or(0),
            times: words.number().unwrap_or(0),
        }
    }

    /// Whether a run by threads is like the plain one.
    fn is_alike<R: Threads + Wait + Sync>(
        self,
        rt: &R,
        alloc: Global,
        task: &Task,
        plain: &Joint,
    ) -> Result<bool, AllocError> {
        if self.workers < 1 || self.workers > 64 {
            return Ok(false);
        }
        let outcome = run_on(rt, alloc, task, self.workers, self.threads, &OpenGate)?;
        if !is_whole(&outcome) {
            return Ok(false);
        }
        self.likeness.holds(alloc, plain, &outcome.joint)
    }

    /// How the plain run of the task stops, and how many of the runs by threads were like it.
    pub(crate) fn answer<R: Threads + Wait + Sync>(
        self,
        rt: &R,
        alloc: Global,
        task: &Task,
    ) -> Result<String, AllocError> {
        let mut plain = Joint::open(alloc, task.copy(alloc)?)?;
        plain.finish();
        let mut alike: u32 = 0;
        for _time in 0..self.times {
            if self.is_alike(rt, alloc, task, &plain)? {
                alike = alike.saturating_add(1);
            }
        }
        let Some(stop) = plain.stop() else {
            unreachable!()
        };
        format!(in alloc; "{stop:?}, {alike} alike")
    }
}
