//! Events whose silent steps were worked out beside the scene.

ghost use Rattle.std.specs.Prelude.{◌≡◌};

use crate::event::append;
use crate::scene::Scene;
use crate::turn::{Turn, judged};
use hc_advance::Advance;
use hc_term::{Stop, StretchEnd};

impl Scene {
    ghost use Rattle.std.specs.Prelude.{◌≤◌, ◌<◌, ℕ, Some, length, slice_get, min};
    ghost use Rattle.hc_limits.specs.Limits.{most_silent_steps};
    ghost use Rattle.hc_term.specs.declared.model.ProcessState.{ProcessState};
    ghost use Rattle.hc_term.specs.declared.model.Configuration.{Configuration};
    ghost use Rattle.hc_term.specs.Event.{progress};
    ghost use Rattle.hc_runs.specs.Turns.{event_behind};
    ghost use Rattle.hc_member.specs.declared.member.Member.{Member};
    ghost use Rattle.hc_member.specs.Lending.{kept, Lends};
    ghost use Rattle.hc_joint.specs.declared.turn.Turn.TheVariants as said;
    ghost use Rattle.hc_joint.specs.Stands.{IsAt, IsSomewhere};
    ghost use Rattle.hc_joint.specs.Parts.{room, Runs, Comes};
    ghost use Rattle.hc_joint.specs.Handed.{Judges};

    /// Lends to the advance what is kept of the process, if it has the same code.
    pub(crate) fn lend(&self, process: u32, advance: &mut Advance) -> bool
        requires there { process < length self.now.members.items }
        ensures { (m : Member) → slice_get self.now.members.items process ≡ Some m →
            Lends (kept m) self.now.clock self.now.task.seed advance.old advance.new result }
    {
        self.members[process as usize].lend(self.clock, self.task.seed, advance)
    }

    /// What comes of the steps of the advance.
    fn judge(&self, process: u32, advance: &Advance) -> Turn
        requires there { process < length self.now.members.items }
        requires at { IsSomewhere self.now }
        ensures { (m : Member) → slice_get self.now.members.items process ≡ Some m →
            Judges (kept m) self.now.clock self.now.task.seed (room self.now) advance.now result }
    {
        let starts = self.members[process as usize].is_start_of(
            advance,
            self.clock,
            self.task.seed,
        );
        let left = self.task.limit - self.history.len() as u32;
        judged(starts, advance.steps(), left)
    }

    /// Takes the silent steps of the advance, and puts on the board what the process shows then.
    fn hand_in(&mut self, process: u32, advance: &Advance) -> StretchEnd
        requires there { process < length self.old.members.items }
        requires at { IsSomewhere self.old }
        requires taken { (m : Member) → slice_get self.old.members.items process ≡ Some m →
            Judges (kept m) self.old.clock self.old.task.seed (room self.old) advance.now said.Taken }
        ensures { (c : Configuration) (q : ProcessState) → IsAt self.old c → slice_get c.processes process ≡ Some q →
            Runs process self.old self.new result c
            (progress (min most_silent_steps (room self.old)) self.old.task.seed process c.clock q) }
    {
        let member = &mut self.members[process as usize];
        let stretch = member.take_over(advance);
        self.board.post(process, member.post());
        append(&mut self.history, self.clock, process, &stretch);
        stretch.end
    }

    /// The event of a process whose silent steps are those of the advance.
    fn event_by(&mut self, process: u32, advance: &Advance) -> Option<Stop>
        requires there { process < length self.old.members.items }
        requires at { IsSomewhere self.old }
        requires taken { (m : Member) → slice_get self.old.members.items process ≡ Some m →
            Judges (kept m) self.old.clock self.old.task.seed (room self.old) advance.now said.Taken }
        ensures { (c : Configuration) → IsAt self.old c →
            Comes self.old self.new (event_behind self.old.history.items self.old.task process c) result }
    {
        let end = self.hand_in(process, advance);
        self.go_on(process, end)
    }

    /// The event of a process, by the steps of the advance where they may be taken. It answers what came of the advance,
    /// and the stop that the event sets.
    pub(crate) fn event_with(&mut self, process: u32, advance: &Advance) -> (Turn, Option<Stop>)
        requires there { process < length self.old.members.items }
        requires left { 0 < room self.old }
        requires at { IsSomewhere self.old }
        ensures judges { (m : Member) → slice_get self.old.members.items process ≡ Some m →
            Judges (kept m) self.old.clock self.old.task.seed (room self.old) advance.now result.0 }
        ensures comes { (c : Configuration) → IsAt self.old c →
            Comes self.old self.new (event_behind self.old.history.items self.old.task process c) result.1 }
    {
        let turn = self.judge(process, advance);
        match turn {
            Turn::Taken => (turn, self.event_by(process, advance)),
            _ => (turn, self.event(process)),
        }
    }
}
