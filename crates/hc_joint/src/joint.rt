//! The joint.

ghost use Rattle.std.specs.Prelude.{◌≡◌};

use crate::scene::Scene;
use crate::turn::Turn;
use hc_advance::Advance;
use hc_frac::Frac;
use hc_term::{Item, Stop, Task};
use std::alloc::{AllocError, Global};
use std::marker::Model;

/// All processes of a task at a moment, with the history that led there: a run of the task, made of turns. In a turn a
/// process that wants a silent step has its event: its steps, then all communications that are possible, then one delay.
/// No call but `open` takes memory.
#[derive(Drop)]
pub struct Joint {
    scene: Scene,
    stop: Option<Stop>,
    turns: u64,
    recomputed: u64,
}

impl Model for Joint {
    ghost use Rattle.std.specs.Coded.{codes};
    ghost use Rattle.hc_term.specs.contracts.stmt.Stmt as stmt;
    ghost use Rattle.hc_joint.specs.Seen.{Seen};

    ghost Value = { Seen };

    ghost coded = { Prim.hlevel (codes, stmt.the_row.coded) };

    ghost use Rattle.hc_joint.specs.Keeps.{IsMade, seen};

    ghost view = { λ j. seen j.scene.task j.scene.clock j.scene.history.items j.stop j.turns j.recomputed };

    ghost invariant = { λ j. IsMade j.scene j.stop j.turns j.recomputed };
}

impl Joint {
    ghost use Rattle.std.specs.Prelude.{◌+◌, ◌≤◌, IfOk, IsTrue, IsSome, None, if◌then◌else◌};
    ghost use Rattle.hc_term.specs.declared.model.Configuration.{Configuration};
    ghost use Rattle.hc_joint.specs.Able.{is_able};
    ghost use Rattle.hc_joint.specs.Keeps.{Keeps, IsReached, opened, GoesForward, IsFinished};
    ghost use Rattle.hc_runs.specs.Turns.{event_behind};
    ghost use Rattle.hc_joint.specs.Judging.{is_made};
    ghost use Rattle.hc_joint.specs.Handed.{Leases, Answers, state_after};

    /// The opening of the task, with room for a history of as many items as its limit allows.
    pub fn open(alloc: Global, task: Task) -> Result<Joint, AllocError>
        ensures { IfOk result (λ j. j ≡ opened task) }
    {
        let scene = Scene::open(alloc, task)?;
        Ok(Joint {
            scene,
            stop: None,
            turns: 0,
            recomputed: 0,
        })
    }

    /// The task.
    pub fn task(&self) -> &Task
        ensures { result.now ≡ self.now.task }
    {
        &self.scene.task
    }

    /// The clock, in time units from the start of the run.
    pub fn clock(&self) -> Frac
        ensures { result ≡ self.now.clock }
    {
        self.scene.clock
    }

    /// The items of the run so far, at most as many as the limit allows.
    pub fn history(&self) -> &[Item]
        ensures items { result.now ≡ self.now.history }
        ensures keeps { Keeps self.now }
    {
        self.scene.history.as_slice()
    }

    /// The stop, where one is set.
    pub fn stop(&self) -> Option<Stop>
        ensures { result ≡ self.now.stop }
    {
        self.stop
    }

    /// The number of turns so far, at most as many as the limit allows.
    pub fn turns(&self) -> u64
        ensures { result ≡ self.now.turns }
    {
        self.turns
    }

    /// The number of turns whose steps were handed in and yet worked out anew.
    pub fn recomputed(&self) -> u64
        ensures { result ≡ self.now.recomputed }
    {
        self.recomputed
    }

    /// Whether there is a process of this number, and it has a silent step.
    pub fn able(&self, process: u32) -> bool
        ensures { (c : Configuration) → IsReached self.now c → result ≡ is_able process c.processes }
    {
        self.scene.board.is_able(process)
    }

    /// Lends to the advance what is kept of the process: the advance starts there then, and isn't worked. False where a stop
    /// stands, the process has no silent step, or the advance has another code; then nothing changes.
    pub fn lease(&self, process: u32, advance: &mut Advance) -> bool
        ensures { (c : Configuration) → IsReached self.now c → Leases self.now process c advance.old advance.new result }
    {
        if self.stop.is_some() {
            return false;
        }
        if !self.scene.board.is_able(process) {
            return false;
        }
        self.scene.lend(process, advance)
    }

    /// One turn of the process, with the steps of the advance where they may be taken, else with steps that are worked out
    /// here. Nothing changes where a stop stands or the process has no silent step.
    pub fn turn(&mut self, process: u32, advance: &Advance) -> Turn
        ensures answer { (c : Configuration) → IsReached self.old c → Answers self.old process c advance.now result }
        ensures state { (c : Configuration) → IsReached self.old c →
            self.new ≡ state_after self.old (event_behind self.old.history self.old.task process c) result }
        ensures task { self.new.task ≡ self.old.task }
        ensures turns { self.new.turns ≡ (if is_made result then self.old.turns + 1 else self.old.turns) }
    {
        if self.stop.is_some() {
            return Turn::Stopped;
        }
        if !self.scene.board.is_able(process) {
            return Turn::NotAble;
        }
        let (turn, stop) = self.scene.event_with(process, advance);
        self.stop = stop;
        self.turns += 1;
        self.recomputed += turn.again();
        turn
    }

    /// One turn of the least process that wants a silent step. False exactly where a stop stood, and then nothing changes.
    pub fn forward(&mut self) -> bool
        ensures { GoesForward self.old.stop self.old self.new result }
    {
        if self.stop.is_some() {
            return false;
        }
        let Some(process) = self.scene.board.least_able() else {
            unreachable!()
        };
        self.stop = self.scene.event(process);
        self.turns += 1;
        true
    }

    /// Turns of the least process until a stop stands. So an opened joint has the canonical run of its task then.
    pub fn finish(&mut self)
        ensures stopped { IsSome self.new.stop }
        ensures finished { IsFinished self.old.stop self.old self.new }
        ensures same { (self.new.task ≡ self.old.task) × (self.new.recomputed ≡ self.old.recomputed) }
        ensures grown { self.old.turns ≤ self.new.turns }
    {
        while self.stop.is_none() {
            self.forward();
        }
    }
}
