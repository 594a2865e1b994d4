//! The delay at the end of an event, and the stop after it.

ghost use Rattle.std.specs.Prelude.{◌≡◌};

use crate::scene::Scene;
use hc_board::Delayed;
use hc_frac::Frac;
use hc_member::{are_ended, move_all};
use hc_term::{Item, Step, Stop};

impl Scene {
    ghost use Rattle.std.specs.Prelude.{◌<◌, ◌-◌, ℕ, List, [], ◌∷◌, None, true};
    ghost use Rattle.hc_rational.specs.Words.{Rational};
    ghost use Rattle.hc_term.specs.declared.run.Step.TheVariants.{Delay};
    ghost use Rattle.hc_term.specs.declared.model.Configuration.{Configuration};
    ghost use Rattle.hc_term.specs.Step.{posts, ready, rests, passing, delayed};
    ghost use Rattle.hc_term.specs.Canonical.{ended_by};
    ghost use Rattle.hc_term.specs.Event.{last_part_by, stop_after};
    ghost use Rattle.hc_runs.specs.Laws.{IsOver};
    ghost use Rattle.hc_joint.specs.Stands.{IsAt, IsPassing};
    ghost use Rattle.hc_joint.specs.Parts.{room, Follows, Comes};

    /// The stop where nothing waits for time.
    fn end_of_rest(&self) -> Stop
        ensures { (c : Configuration) → self.now.board.posts ≡ posts c → result ≡ ended_by c }
    {
        if are_ended(self.board.posts()) {
            Stop::Terminated
        } else {
            Stop::Deadlock
        }
    }

    /// Lets so many time units pass, by which the board has moved already.
    fn let_pass(&mut self, by: Frac)
        requires left { 0 < room self.old }
        requires passes { (c : Configuration) × IsPassing self.old c by }
        ensures { (c : Configuration) → IsPassing self.old c by →
            Follows self.old self.new (record { at = c.clock; step = Delay by } ∷ []) (delayed by c) }
    {
        let Some(end) = self.clock.add(by) else {
            unreachable!()
        };
        move_all(self.members.as_mut_slice(), by);
        self.history.push_reserved(Item {
            at: self.clock,
            step: Step::Delay { by },
        });
        self.clock = end;
    }

    /// The stop after a delay, where time does nothing more if no process wants a silent step: then the board stays.
    fn stop_after_delay(&mut self) -> Option<Stop>
        requires { (c : Configuration) × IsAt self.old c × (rests c.processes ≡ true → IsOver (passing self.old.task c)) }
        ensures same { self.new ≡ self.old }
        ensures stop { (c : Configuration) → IsAt self.old c → (rests c.processes ≡ true → IsOver (passing self.old.task c)) →
            result ≡ stop_after (room self.old) self.old.task c }
    {
        if self.history.len() == self.task.limit as usize {
            return Some(Stop::Limit);
        }
        if self.board.least_able().is_some() {
            return None;
        }
        match self.board.delay(self.clock, self.task.horizon) {
            Delayed::NoBound => Some(self.end_of_rest()),
            Delayed::AtHorizon => Some(Stop::Horizon),
            Delayed::Unfit => unreachable!(),
            Delayed::Took(_) => unreachable!(),
        }
    }

    /// Lets time pass where no channel is ready, if no process wants a silent step. The answer is the stop that is set.
    pub(crate) fn wait(&mut self) -> Option<Stop>
        requires left { 0 < room self.old }
        requires quiet { (c : Configuration) × IsAt self.old c × (ready self.old.task c ≡ None) }
        ensures { (c : Configuration) → IsAt self.old c → ready self.old.task c ≡ None →
            Comes self.old self.new (last_part_by (room self.old - 1) self.old.task c (passing self.old.task c)) result }
    {
        if self.board.least_able().is_some() {
            return None;
        }
        match self.board.delay(self.clock, self.task.horizon) {
            Delayed::NoBound => Some(self.end_of_rest()),
            Delayed::AtHorizon => Some(Stop::Horizon),
            Delayed::Unfit => Some(Stop::Overflow { process: None }),
            Delayed::Took(by) => {
                self.let_pass(by);
                self.stop_after_delay()
            }
        }
    }
}
