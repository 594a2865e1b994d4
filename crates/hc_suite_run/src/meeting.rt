//! A run by two threads, each of which is held before its first stretch until the other has come.

use crate::texts::text_of;
use hc_run::{Gate, run};
use hc_term::Task;
use std::alloc::{AllocError, Global};
use std::sync::Wait;
use std::sync::atomic::{AtomicBool, Ordering};
use std::thread::Threads;

/// So often a worker looks whether the other has come, before it gives up.
const MOST_LOOKS: u64 = 1_000_000_000;

/// Holds the workers 0 and 1 at their first stretch, each until the other has come to its own.
#[derive(Drop)]
struct MeetingGate {
    first: AtomicBool,
    second: AtomicBool,
    gave_up: AtomicBool,
}

impl MeetingGate {
    fn new() -> MeetingGate {
        MeetingGate {
            first: AtomicBool::new(false),
            second: AtomicBool::new(false),
            gave_up: AtomicBool::new(false),
        }
    }

    /// Comes, and waits for the other.
    fn meet(&self, mine: &AtomicBool, other: &AtomicBool) {
        mine.store(true, Ordering::SeqCst);
        for _look in 0..MOST_LOOKS {
            if other.load(Ordering::SeqCst) {
                return;
            }
        }
        self.gave_up.store(true, Ordering::SeqCst);
    }
}

impl Gate for MeetingGate {
    fn enter(&self, worker: u32, stretch: u64) {
        match (worker, stretch) {
            (0, 0) => self.meet(&self.first, &self.second),
            (1, 0) => self.meet(&self.second, &self.first),
            _ => {}
        }
    }
}

/// Whether the two workers met, which of them had turns, how many turns were worked out anew, and the text of the run.
pub(crate) fn meet_of<R: Threads + Wait + Sync>(
    rt: &R,
    alloc: Global,
    task: &Task,
) -> Result<String, AllocError> {
    let gate = MeetingGate::new();
    let outcome = run(rt, alloc, task, 2, &gate)?;
    let gave_up = gate.gave_up.load(Ordering::SeqCst);
    let mut text = String::from_str(alloc, if gave_up { "gave up" } else { "met" })?;
    for turns in outcome.turns.as_slice() {
        text.push_str(if *turns > 0 { ", turns" } else { ", no turns" })?;
    }
    let run = text_of(alloc, &outcome.joint)?;
    format!(in alloc; "{text}, recomputed {} | {run}", outcome.joint.recomputed())
}
