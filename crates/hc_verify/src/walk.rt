//! All processes of a task with their board and the clock, at a moment of a walk along a trace.

ghost use Rattle.std.specs.Prelude.{◌≤◌, length};
ghost use Rattle.hc_limits.specs.Limits.{most_processes};

use hc_board::Board;
use hc_frac::Frac;
use hc_member::{Member, open_all};
use hc_step::Stretch;
use hc_term::{Meeting, Task};
use std::alloc::{AllocError, Global};

/// What moves along a trace. No call but `open` takes memory.
#[derive(Drop)]
pub(crate) struct Walk {
    pub(crate) members: Vec<Member>,
    pub(crate) board: Board,
    /// In time units from the start of the run.
    pub(crate) clock: Frac,
    pub ghost few: { length members.items ≤ most_processes },
}

impl Walk {
    ghost use Rattle.std.specs.Prelude.{◌≡◌, ◌<◌, ℕ, Some, slice_get, IfOk};
    ghost use Rattle.hc_term.specs.declared.system.System.{System};
    ghost use Rattle.hc_term.specs.declared.model.ProcessState.{ProcessState};
    ghost use Rattle.hc_term.specs.declared.model.Configuration.{Configuration};
    ghost use Rattle.hc_term.specs.Step.{opening, met};
    ghost use Rattle.hc_term.specs.Event.{progress};
    ghost use Rattle.hc_runs.specs.Laws.{Joins};
    ghost use Rattle.hc_verify.specs.Stands.{IsAt, Runs};

    /// The opening of the task.
    pub(crate) fn open(alloc: Global, task: &Task) -> Result<Walk, AllocError>
        ensures { IfOk result (λ w. IsAt task.now.system w (opening task.now)) }
    {
        let processes = task.system.processes.as_slice();
        let channels = task.system.channels.len() as u32;
        let members = open_all(alloc, processes)?;
        let board = Board::open(alloc, processes.len() as u32, channels)?;
        Ok(Walk {
            members,
            board,
            clock: Frac::zero(),
        })
    }

    /// Takes at most so many silent steps of a process, up to one that logs, and puts on the board what it shows then.
    pub(crate) fn run(&mut self, process: u32, seed: u64, most: u32) -> Stretch
        requires there { process < length self.old.members.items }
        requires shown { length self.old.board.posts ≡ length self.old.members.items }
        ensures at_most { result.steps ≤ most }
        ensures runs { (sys : System) (c : Configuration) (q : ProcessState) → IsAt sys self.old c →
            slice_get c.processes process ≡ Some q →
            Runs sys process self.new result c (progress most seed process c.clock q) }
    {
        let member = &mut self.members[process as usize];
        let stretch = member.stretch(self.clock, seed, most);
        self.board.post(process, member.post());
        stretch
    }

    /// Tells the two that meet, and puts on the board what they show then.
    pub(crate) fn tell(&mut self, meeting: &Meeting)
        requires sender { meeting.now.sender < length self.old.members.items }
        requires receiver { meeting.now.receiver < length self.old.members.items }
        requires shown { length self.old.board.posts ≡ length self.old.members.items }
        ensures { (sys : System) (c : Configuration) → IsAt sys self.old c → Joins meeting.now c →
            IsAt sys self.new (met meeting.now c) }
    {
        let sender = &mut self.members[meeting.sender as usize];
        sender.sent(meeting.channel);
        self.board.post(meeting.sender, sender.post());
        let receiver = &mut self.members[meeting.receiver as usize];
        receiver.received(meeting.channel, meeting.value);
        self.board.post(meeting.receiver, receiver.post());
    }
}
