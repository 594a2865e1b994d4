//! One event: the silent steps of one process, then all communications that are possible, then one delay.

ghost use Rattle.std.specs.Prelude.{◌≡◌, ◌+◌, ◌<◌, ◌≤◌, [], ◌∷◌, ◌++◌, None, length, replicate, vec_len, vec_capacity};
ghost use Rattle.hc_term.specs.declared.run.Step.TheVariants.{Silent};
ghost use Rattle.hc_term.specs.Event.{silent_items};
ghost use Rattle.hc_step.specs.Represents.{logs_of};

use crate::scene::Scene;
use hc_frac::Frac;
use hc_limits::MOST_SILENT_STEPS;
use hc_step::Stretch;
use hc_term::{Item, Meeting, Step, Stop, StretchEnd};

/// Puts a silent step of a process behind the history.
fn push_silent(history: &mut Vec<Item>, clock: Frac, process: u32, logged: Option<Frac>)
    requires room { vec_len history.old < vec_capacity history.old }
    ensures items { history.new.items ≡ history.old.items ++ record { at = clock; step = Silent process logged } ∷ [] }
    ensures length { vec_len history.new ≡ vec_len history.old + 1 }
    ensures capacity { vec_capacity history.new ≡ vec_capacity history.old }
{
    history.push_reserved(Item {
        at: clock,
        step: Step::Silent { process, logged },
    });
}

/// Puts so many silent steps behind it that logged nothing.
fn push_quiet(history: &mut Vec<Item>, clock: Frac, process: u32, count: u32)
    requires room { vec_len history.old + count ≤ vec_capacity history.old }
    ensures items { history.new.items ≡ history.old.items ++ silent_items clock process (replicate count None) }
    ensures length { vec_len history.new ≡ vec_len history.old + count }
    ensures capacity { vec_capacity history.new ≡ vec_capacity history.old }
{
    for _step in 0..count {
        push_silent(history, clock, process, None);
    }
}

/// Puts the steps of a stretch behind the history, each with the value that it logged.
pub(crate) fn append(history: &mut Vec<Item>, clock: Frac, process: u32, stretch: &Stretch)
    requires counted { length (logs_of stretch.now) ≡ stretch.now.steps }
    requires room { vec_len history.old + stretch.now.steps ≤ vec_capacity history.old }
    ensures items { history.new.items ≡ history.old.items ++ silent_items clock process (logs_of stretch.now) }
    ensures capacity { vec_capacity history.new ≡ vec_capacity history.old }
{
    match stretch.end {
        StretchEnd::Logged(value) => {
            push_quiet(history, clock, process, stretch.steps - 1);
            push_silent(history, clock, process, Some(value));
        }
        _ => push_quiet(history, clock, process, stretch.steps),
    }
}

impl Scene {
    ghost use Rattle.std.specs.Prelude.{◌-◌, ℕ, Some, slice_get, min};
    ghost use Rattle.hc_limits.specs.Limits.{most_silent_steps};
    ghost use Rattle.hc_term.specs.declared.model.ProcessState.{ProcessState};
    ghost use Rattle.hc_term.specs.declared.model.Configuration.{Configuration};
    ghost use Rattle.hc_term.specs.Step.{ready};
    ghost use Rattle.hc_term.specs.Event.{progress, meetings, second_part};
    ghost use Rattle.hc_runs.specs.Turns.{event_behind};
    ghost use Rattle.hc_runs.specs.Laws.{Joins};
    ghost use Rattle.hc_member.specs.States.{AllIn};
    ghost use Rattle.hc_joint.specs.Stands.{IsAt, IsSomewhere};
    ghost use Rattle.hc_joint.specs.Parts.{room, Runs, IsTold, Meets, Comes};

    // ---- the silent steps of one process

    /// Takes at most so many silent steps of a process, up to one that logs, and puts on the board what it shows then.
    fn run_process(&mut self, process: u32, most: u32) -> StretchEnd
        requires there { process < length self.old.members.items }
        requires most { most ≤ room self.old }
        requires at { IsSomewhere self.old }
        ensures { (c : Configuration) (q : ProcessState) → IsAt self.old c → slice_get c.processes process ≡ Some q →
            Runs process self.old self.new result c (progress most self.old.task.seed process c.clock q) }
    {
        let member = &mut self.members[process as usize];
        let stretch = member.stretch(self.clock, self.task.seed, most);
        self.board.post(process, member.post());
        append(&mut self.history, self.clock, process, &stretch);
        stretch.end
    }

    // ---- communications

    /// Tells the two that met, and puts on the board what they show then.
    fn tell(&mut self, meeting: &Meeting)
        requires sender { meeting.now.sender < length self.old.members.items }
        requires receiver { meeting.now.receiver < length self.old.members.items }
        requires shown { length self.old.board.posts ≡ length self.old.members.items }
        ensures { (c : Configuration) → AllIn c.clock self.old.members.items c.processes → Joins meeting.now c →
            IsTold meeting.now c self.old self.new }
    {
        let sender = &mut self.members[meeting.sender as usize];
        sender.sent(meeting.channel);
        self.board.post(meeting.sender, sender.post());
        let receiver = &mut self.members[meeting.receiver as usize];
        receiver.received(meeting.channel, meeting.value);
        self.board.post(meeting.receiver, receiver.post());
    }

    /// Lets the two meet that offer both ends of the ready channel of least number. False where no channel is ready.
    fn meet(&mut self) -> bool
        requires left { 0 < room self.old }
        requires at { IsSomewhere self.old }
        ensures { (c : Configuration) → IsAt self.old c → Meets self.old self.new c (ready self.old.task c) result }
    {
        let Some(meeting) = self.board.fire() else {
            return false;
        };
        self.tell(&meeting);
        self.history.push_reserved(Item {
            at: self.clock,
            step: Step::Comm {
                channel: meeting.channel,
                value: meeting.value,
            },
        });
        true
    }

    /// All communications, the least channel first, and then the delay; up to the limit.
    fn meet_and_wait(&mut self) -> Option<Stop>
        requires at { IsSomewhere self.old }
        ensures { (c : Configuration) → IsAt self.old c → Comes self.old self.new (meetings (room self.old) self.old.task c) result }
    {
        for _left in self.history.len()..self.task.limit as usize {
            if !self.meet() {
                return self.wait();
            }
        }
        Some(Stop::Limit)
    }

    // ---- the event

    /// What follows a stretch of a process that ended so.
    pub(crate) fn go_on(&mut self, process: u32, end: StretchEnd) -> Option<Stop>
        requires at { IsSomewhere self.old }
        ensures { (c : Configuration) → IsAt self.old c →
            Comes self.old self.new (second_part (room self.old) self.old.task process c end) result }
    {
        if self.history.len() == self.task.limit as usize {
            return Some(Stop::Limit);
        }
        match end {
            StretchEnd::Unfit => Some(Stop::Overflow {
                process: Some(process),
            }),
            _ => self.meet_and_wait(),
        }
    }

    /// The event of a process: its silent steps, and what follows them. The answer is the stop that it sets.
    pub(crate) fn event(&mut self, process: u32) -> Option<Stop>
        requires there { process < length self.old.members.items }
        requires left { 0 < room self.old }
        requires at { IsSomewhere self.old }
        ensures { (c : Configuration) → IsAt self.old c →
            Comes self.old self.new (event_behind self.old.history.items self.old.task process c) result }
    {
        let left = self.task.limit - self.history.len() as u32;
        let end = self.run_process(process, left.min(MOST_SILENT_STEPS));
        self.go_on(process, end)
    }
}
