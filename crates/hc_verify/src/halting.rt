//! Processes that take all their invisible steps.

ghost use Rattle.std.specs.Prelude.{◌≡◌};
ghost use Rattle.hc_verify.specs.Halting.{still_steps};

use crate::walk::Walk;
use hc_step::Stretch;
use hc_term::{StretchEnd, Task};

/// How many steps a stretch took that ended where the process has no step left.
fn steps_to_stillness(stretch: &Stretch) -> Option<u32>
    ensures { result ≡ still_steps stretch.now.end stretch.now.steps }
{
    match stretch.end {
        StretchEnd::Logged(_) => None,
        StretchEnd::Spent => None,
        _ => Some(stretch.steps),
    }
}

impl Walk {
    ghost use Rattle.std.specs.Prelude.{◌<◌, Some, length, slice_get};
    ghost use Rattle.hc_term.specs.declared.model.ProcessState.{ProcessState};
    ghost use Rattle.hc_term.specs.declared.model.Configuration.{Configuration};
    ghost use Rattle.hc_verify.specs.Stands.{IsAt};
    ghost use Rattle.hc_verify.specs.Halting.{Halts, AllHalt};

    /// Lets a process take its invisible steps, up to where it has no step. `None` where it logs then, or where as many
    /// steps as there is room for are taken and more may follow.
    pub(crate) fn halt(&mut self, task: &Task, process: u32, room: u32) -> Option<u32>
        requires there { process < length self.old.members.items }
        requires shown { length self.old.board.posts ≡ length self.old.members.items }
        ensures { (c : Configuration) (q : ProcessState) → IsAt task.now.system self.old c →
            slice_get c.processes process ≡ Some q → Halts task.now process room c q self.new result }
    {
        let stretch = self.run(process, task.seed, room);
        steps_to_stillness(&stretch)
    }

    /// So it is with all processes, one after the other.
    pub(crate) fn halt_all(&mut self, task: &Task, room: u32) -> Option<u32>
        requires at { (c : Configuration) × IsAt task.now.system self.old c }
        ensures { (c : Configuration) → IsAt task.now.system self.old c → AllHalt task.now room c self.new result }
    {
        let mut moved: u32 = 0;
        for process in 0..self.members.len() {
            let steps = self.halt(task, process as u32, room - moved)?;
            moved += steps;
        }
        Some(moved)
    }
}
