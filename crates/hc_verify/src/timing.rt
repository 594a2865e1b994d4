//! Time that passes for all processes.

use crate::following::is_same;
use crate::walk::Walk;
use hc_board::Delayed;
use hc_frac::Frac;
use hc_member::move_all;
use hc_term::Task;

impl Walk {
    ghost use Rattle.hc_term.specs.declared.task.Task.{Task as AnyTask};
    ghost use Rattle.hc_term.specs.declared.model.Configuration.{Configuration};
    ghost use Rattle.hc_term.specs.Step.{delayed};
    ghost use Rattle.hc_term.specs.declared.run.Step.TheVariants.{Delay};
    ghost use Rattle.hc_verify.specs.Stands.{IsAt};
    ghost use Rattle.hc_verify.specs.Following.{IsReached, Followed};
    ghost use Rattle.hc_verify.specs.Timing.{IsRunTo, IsPassing, Times, Delays};

    /// How much time passes, by which the board has moved then: `None` where a channel is ready, where a process wants a
    /// silent step, or where time does something else.
    fn time(&mut self, task: &Task) -> Option<Frac>
        ensures { (c : Configuration) → IsRunTo task.now self.old c → Times task.now c self.new result }
    {
        if self.board.fire().is_some() {
            return None;
        }
        if self.board.least_able().is_some() {
            return None;
        }
        match self.board.delay(self.clock, task.horizon) {
            Delayed::Took(by) => Some(by),
            _ => None,
        }
    }

    /// Lets so much time pass, by which the board has moved already.
    fn let_pass(&mut self, by: Frac)
        requires passes { (t : AnyTask) × (c : Configuration) × IsPassing t self.old c by }
        ensures { (t : AnyTask) (c : Configuration) → IsPassing t self.old c by → IsAt t.system self.new (delayed by c) }
    {
        let Some(end) = self.clock.add(by) else {
            unreachable!()
        };
        move_all(self.members.as_mut_slice(), by);
        self.clock = end;
    }

    /// Lets exactly so much time pass, if that is what time does.
    fn pass(&mut self, task: &Task, by: Frac) -> bool
        requires run { (c : Configuration) × IsRunTo task.now self.old c }
        ensures { (c : Configuration) → IsRunTo task.now self.old c → Delays task.now c by self.new result }
    {
        let Some(most) = self.time(task) else {
            return false;
        };
        if !is_same(most, by) {
            return false;
        }
        self.let_pass(most);
        true
    }

    /// Follows the line of a delay, where so many steps are left: all processes take their steps, and then so much time
    /// passes. The answer is how many steps that were.
    pub(crate) fn delay(&mut self, task: &Task, at: Frac, by: Frac, room: u32) -> Option<u32>
        requires reached { (c : Configuration) × IsReached task.now self.old room c }
        ensures { (c : Configuration) → IsReached task.now self.old room c →
            Followed task.now (record { at = at; step = Delay by }) room c self.new result }
    {
        if !is_same(at, self.clock) {
            return None;
        }
        let moved = self.halt_all(task, room)?;
        if moved >= room {
            return None;
        }
        if !self.pass(task, by) {
            return None;
        }
        Some(moved + 1)
    }
}
