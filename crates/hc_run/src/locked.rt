//! What stands under the lock.
ghost use Rattle.std.specs.Prelude.{◌≡◌, ◌<◌, ◌≤◌, sum};

use crate::wanted::wanted_by;
use hc_advance::Advance;
use hc_joint::{Joint, Turn};

/// At most so many workers.
pub const WORKERS: usize = 64;

/// The joint, and how many turns each worker has made: together as many as the joint has.
#[derive(Drop)]
pub struct Locked {
    pub joint: Joint,
    pub counts: [u64; WORKERS],
    ghost adds_up: { sum counts ≡ joint.turns },
}

impl Locked {
    ghost use Rattle.hc_term.specs.declared.model.Configuration.{Configuration};
    ghost use Rattle.hc_runs.specs.Turns.{event_behind};
    ghost use Rattle.hc_joint.specs.Keeps.{IsReached};
    ghost use Rattle.hc_joint.specs.Judging.{is_made};
    ghost use Rattle.hc_joint.specs.Handed.{Answers, state_after};
    ghost use Rattle.hc_run.specs.Wanted.{AreWanted};
    ghost use Rattle.hc_run.specs.Counted.{counted};

    /// The turn, counted for the worker where one is made.
    pub fn take_turn(&mut self, worker: u32, process: u32, advance: &Advance) -> Turn
        requires { worker < 64 }
        ensures answer { (c : Configuration) → IsReached self.old.joint c → Answers self.old.joint process c advance.now result }
        ensures state { (c : Configuration) → IsReached self.old.joint c →
            self.new.joint ≡ state_after self.old.joint (event_behind self.old.joint.history self.old.joint.task process c) result }
        ensures task { self.new.joint.task ≡ self.old.joint.task }
        ensures counts { self.new.counts ≡ counted self.old.counts worker (is_made result) }
    {
        let turn = self.joint.turn(process, advance);
        if turn.is_made() {
            // What the joint counts now fits its type, and no worker made more turns.
            let _all = self.joint.turns();
            self.counts[worker as usize] += 1;
        }
        turn
    }

    /// The turn, and which workers it leaves something to do.
    pub fn turn_and_wake(
        &mut self,
        worker: u32,
        process: u32,
        advance: &Advance,
        used: u32,
    ) -> [bool; WORKERS]
        requires worker { worker < 64 }
        requires some { 0 < used }
        requires few { used ≤ 64 }
        ensures { (c : Configuration) → IsReached self.new.joint c → AreWanted self.new.joint used result c }
    {
        let _turn = self.take_turn(worker, process, advance);
        wanted_by(&self.joint, used)
    }
}
