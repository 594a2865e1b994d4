//! End lines for which all processes move: what time does then, and the limit.

ghost use Rattle.std.specs.Prelude.{◌≡◌};
ghost use Rattle.hc_verify.specs.Ending.{stops_time, invisible_steps};

use crate::following::is_same;
use crate::walk::Walk;
use hc_board::Delayed;
use hc_frac::Frac;
use hc_member::are_ended;
use hc_step::Stretch;
use hc_term::{Stop, StretchEnd, Task};

/// Whether what time does is this stop, where all processes have ended or not.
fn is_stop(stop: Stop, told: Delayed, all_ended: bool) -> bool
    ensures { result ≡ stops_time stop told all_ended }
{
    match told {
        Delayed::NoBound => match stop {
            Stop::Deadlock => !all_ended,
            _ => false,
        },
        Delayed::AtHorizon => match stop {
            Stop::Horizon => true,
            _ => false,
        },
        Delayed::Unfit => match stop {
            Stop::Overflow { process: None } => true,
            _ => false,
        },
        Delayed::Took(_) => false,
    }
}

/// How many invisible steps a stretch took: all but a log behind them.
fn count_invisible(stretch: &Stretch) -> u32
    ensures { result ≡ invisible_steps stretch.now.end stretch.now.steps }
{
    match stretch.end {
        // the log is the last of its steps
        StretchEnd::Logged(_) => stretch.steps.saturating_sub(1),
        _ => stretch.steps,
    }
}

impl Walk {
    ghost use Rattle.std.specs.Prelude.{◌<◌, ℕ, Some, IsTrue, length, slice_get};
    ghost use Rattle.hc_term.specs.declared.model.ProcessState.{ProcessState};
    ghost use Rattle.hc_term.specs.declared.model.Configuration.{Configuration};
    ghost use Rattle.hc_term.specs.Step.{passing};
    ghost use Rattle.hc_verify.specs.Stands.{IsAt};
    ghost use Rattle.hc_verify.specs.Following.{IsReached};
    ghost use Rattle.hc_verify.specs.Ending.{Reaches, ReachesLimit, Spends, AllSpend, answered, is_of_time};

    /// What time does, by which the board has moved then: `None` where a channel is ready or a process wants a silent step.
    fn passing(&mut self, task: &Task) -> Option<Delayed>
        ensures { (c : Configuration) → IsAt task.now.system self.old c → result ≡ answered (passing task.now c) }
    {
        if self.board.fire().is_some() {
            return None;
        }
        if self.board.least_able().is_some() {
            return None;
        }
        Some(self.board.delay(self.clock, task.horizon))
    }

    /// Follows the end line of a deadlock, of the horizon or of an overflow of the clock, at this clock, where so many steps
    /// are left: all processes take their steps, and then time stops so. The answer is how many steps that were.
    pub(crate) fn stand_still(
        &mut self,
        task: &Task,
        stop: Stop,
        at: Frac,
        room: u32,
    ) -> Option<u32>
        requires timed { IsTrue (is_of_time stop) }
        requires reached { (c : Configuration) × IsReached task.now self.old room c }
        ensures { (c : Configuration) → IsReached task.now self.old room c → Reaches task.now stop at room c result }
    {
        if !is_same(at, self.clock) {
            return None;
        }
        let moved = self.halt_all(task, room)?;
        if moved >= room {
            return None;
        }
        let all_ended = are_ended(self.board.posts());
        let told = self.passing(task)?;
        if !is_stop(stop, told, all_ended) {
            return None;
        }
        Some(moved)
    }

    /// Lets a process take its invisible steps, as many as there is room for. The answer is how many that were; behind them
    /// it may have logged.
    fn spend(&mut self, task: &Task, process: u32, room: u32) -> u32
        requires there { process < length self.old.members.items }
        requires shown { length self.old.board.posts ≡ length self.old.members.items }
        ensures { (c : Configuration) (q : ProcessState) → IsAt task.now.system self.old c →
            slice_get c.processes process ≡ Some q → Spends task.now process room c q self.new result }
    {
        let stretch = self.run(process, task.seed, room);
        count_invisible(&stretch)
    }

    /// Lets all processes do so, one after the other. The answer is how many steps that were in all.
    fn spend_all(&mut self, task: &Task, room: u32) -> u32
        requires at { (c : Configuration) × IsAt task.now.system self.old c }
        ensures { (c : Configuration) → IsAt task.now.system self.old c → AllSpend task.now room c result }
    {
        let mut moved: u32 = 0;
        for process in 0..self.members.len() {
            let steps = self.spend(task, process as u32, room - moved);
            moved += steps;
        }
        moved
    }

    /// Follows the end line of the limit at this clock, where so many steps are left: processes take invisible steps, one
    /// process after the other, until none are left. The answer is how many that were.
    pub(crate) fn limit(&mut self, task: &Task, at: Frac, room: u32) -> Option<u32>
        requires reached { (c : Configuration) × IsReached task.now self.old room c }
        ensures { (c : Configuration) → IsReached task.now self.old room c → ReachesLimit task.now at room c result }
    {
        if !is_same(at, self.clock) {
            return None;
        }
        if self.spend_all(task, room) < room {
            return None;
        }
        Some(room)
    }
}
