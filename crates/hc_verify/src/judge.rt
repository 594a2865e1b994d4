//! A trace that is followed line by line.

ghost use Rattle.std.specs.Prelude.{IfOk};
ghost use Rattle.hc_verify.specs.Judging.{JudgesTrace};

use crate::names::{channel_named, process_named, stop_of};
use crate::verdict::Verdict;
use crate::walk::Walk;
use hc_term::Task;
use hc_trace::{Trace, TraceEnd, TraceEvent, TraceLine};
use std::alloc::{AllocError, Global};

impl Walk {
    ghost use Rattle.std.specs.Prelude.{◌≡◌, ◌+◌, length};
    ghost use Rattle.hc_term.specs.declared.model.Configuration.{Configuration};
    ghost use Rattle.hc_verify.specs.Following.{IsReached, FollowedLine};
    ghost use Rattle.hc_verify.specs.Ending.{ReachesEndLine};
    ghost use Rattle.hc_verify.specs.Judging.{JudgesEnd};

    /// Follows a line, where so many steps are left. The answer is how many steps were taken for it.
    fn follow_line(&mut self, task: &Task, line: &TraceLine, room: u32) -> Option<u32>
        requires reached { (c : Configuration) × IsReached task.now self.old room c }
        ensures { (c : Configuration) → IsReached task.now self.old room c →
            FollowedLine task.now line.now room c self.new result }
    {
        match &line.event {
            TraceEvent::Delay { by } => self.delay(task, line.at, *by, room),
            TraceEvent::Comm {
                channel,
                sender,
                receiver,
                value,
            } => {
                let channel = channel_named(&task.system, channel, sender, receiver)?;
                self.comm(task, line.at, channel, *value, room)
            }
            TraceEvent::Log { process, value } => {
                let process = process_named(&task.system, process)?;
                self.log(task, line.at, process, *value, room)
            }
        }
    }

    /// Follows an end line, where so many steps are left. The answer is how many steps were taken for it.
    fn follow_end(&mut self, task: &Task, line: &TraceEnd, room: u32) -> Option<u32>
        requires reached { (c : Configuration) × IsReached task.now self.old room c }
        ensures { (c : Configuration) → IsReached task.now self.old room c →
            ReachesEndLine task.now line.now room c result }
    {
        let stop = stop_of(&task.system, line.kind, &line.who)?;
        self.end(task, stop, line.at, room)
    }

    /// The verdict where all lines but the end line, which has this number, are followed, and so many steps are left.
    fn judge_end(&mut self, task: &Task, end: &Option<TraceEnd>, room: u32, number: u32) -> Verdict
        requires reached { (c : Configuration) × IsReached task.now self.old room c }
        ensures { (c : Configuration) (r : IsReached task.now self.old room c) → number ≡ length r.lines + 2 →
            JudgesEnd task.now r.lines end.now result }
    {
        let steps = task.limit - room;
        match end {
            None => Verdict::Yes { steps },
            Some(line) => match self.follow_end(task, line, room) {
                None => Verdict::No { line: number },
                Some(moved) => Verdict::Yes {
                    steps: steps + moved,
                },
            },
        }
    }
}

/// The verdict on a trace: whether it is one of a behaviour of the task, or without an end line a first part of one. Names
/// of ends are compared where its lines have them. A process moves only where a line asks for it, so the fewest steps are
/// taken. The one error is want of memory.
pub fn verify(alloc: Global, task: &Task, trace: &Trace) -> Result<Verdict, AllocError>
    ensures { IfOk result (JudgesTrace task.now trace.now) }
{
    let mut walk = Walk::open(alloc, task)?;
    let mut room = task.limit;
    let mut number: u32 = 2;
    for line in trace.lines.as_slice() {
        let Some(steps) = walk.follow_line(task, line, room) else {
            return Ok(Verdict::No { line: number });
        };
        room -= steps;
        number += 1;
    }
    Ok(walk.judge_end(task, &trace.end, room, number))
}
