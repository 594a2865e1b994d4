//! End lines.

ghost use Rattle.std.specs.Prelude.{◌≡◌};
ghost use Rattle.hc_verify.specs.Ending.{unfit_steps};

use crate::following::is_same;
use crate::walk::Walk;
use hc_frac::Frac;
use hc_member::are_ended;
use hc_step::Stretch;
use hc_term::{Stop, StretchEnd, Task};

/// How many steps a stretch took that ended before a step that doesn't fit.
fn steps_to_unfit(stretch: &Stretch) -> Option<u32>
    ensures { result ≡ unfit_steps stretch.now.end stretch.now.steps }
{
    match stretch.end {
        StretchEnd::Unfit => Some(stretch.steps),
        _ => None,
    }
}

impl Walk {
    ghost use Rattle.std.specs.Prelude.{length, Some};
    ghost use Rattle.hc_term.specs.declared.run.Stop.TheVariants.{Terminated, Overflow};
    ghost use Rattle.hc_term.specs.declared.model.Configuration.{Configuration};
    ghost use Rattle.hc_verify.specs.Following.{IsReached};
    ghost use Rattle.hc_verify.specs.Ending.{Reaches, ReachesEnd};

    /// Follows the end line by which all processes have ended at this clock, where so many steps are left: all take their
    /// steps. The answer is how many that were.
    pub(crate) fn terminate(&mut self, task: &Task, at: Frac, room: u32) -> Option<u32>
        requires reached { (c : Configuration) × IsReached task.now self.old room c }
        ensures { (c : Configuration) → IsReached task.now self.old room c → Reaches task.now Terminated at room c result }
    {
        if !is_same(at, self.clock) {
            return None;
        }
        let moved = self.halt_all(task, room)?;
        if moved >= room {
            return None;
        }
        if !are_ended(self.board.posts()) {
            return None;
        }
        Some(moved)
    }

    /// Follows the end line by which the next step of a process doesn't fit at this clock, where so many steps are left: the
    /// process takes its steps. The answer is how many that were.
    pub(crate) fn overflow(&mut self, task: &Task, at: Frac, process: u32, room: u32) -> Option<u32>
        requires shown { length self.old.board.posts ≡ length self.old.members.items }
        ensures { (c : Configuration) → IsReached task.now self.old room c →
            Reaches task.now (Overflow (Some process)) at room c result }
    {
        if !is_same(at, self.clock) {
            return None;
        }
        if process as usize >= self.members.len() {
            return None;
        }
        let stretch = self.run(process, task.seed, room);
        let moved = steps_to_unfit(&stretch)?;
        if moved >= room {
            return None;
        }
        Some(moved)
    }

    /// Follows an end line at this clock, where so many steps are left. The answer is how many steps were taken for it.
    pub(crate) fn end(&mut self, task: &Task, stop: Stop, at: Frac, room: u32) -> Option<u32>
        requires reached { (c : Configuration) × IsReached task.now self.old room c }
        ensures { (c : Configuration) → IsReached task.now self.old room c → ReachesEnd task.now stop at room c result }
    {
        match stop {
            Stop::Terminated => self.terminate(task, at, room),
            Stop::Deadlock => self.stand_still(task, stop, at, room),
            Stop::Horizon => self.stand_still(task, stop, at, room),
            Stop::Limit => self.limit(task, at, room),
            Stop::Overflow { process } => match process {
                None => self.stand_still(task, stop, at, room),
                Some(process) => self.overflow(task, at, process, room),
            },
        }
    }
}
