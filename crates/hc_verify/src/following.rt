//! Lines that are followed: a process moves only where a line asks for it.

ghost use Rattle.std.specs.Prelude.{◌≡◌, ◌↔◌, IsTrue};
ghost use Rattle.hc_term.specs.declared.run.StretchEnd.TheVariants.{Logged};
ghost use Rattle.hc_verify.specs.Named.{IsThe};

use crate::walk::Walk;
use hc_frac::Frac;
use hc_step::Stretch;
use hc_term::{StretchEnd, Task};

/// Whether two numbers are one.
pub(crate) fn is_same(one: Frac, other: Frac) -> bool
    ensures { IsTrue result ↔ (one ≡ other) }
{
    one == other
}

/// How many steps a stretch took that ended with a log of this value.
fn steps_to_log(stretch: &Stretch, value: Frac) -> Option<u32>
    ensures { IsThe (λ k. (stretch.now.end ≡ Logged value) × (stretch.now.steps ≡ k)) result }
{
    match stretch.end {
        StretchEnd::Logged(logged) => {
            if is_same(logged, value) {
                Some(stretch.steps)
            } else {
                None
            }
        }
        _ => None,
    }
}

impl Walk {
    ghost use Rattle.std.specs.Prelude.{length, Some};
    ghost use Rattle.hc_term.specs.declared.run.Step.TheVariants.{Silent};
    ghost use Rattle.hc_term.specs.declared.model.Configuration.{Configuration};
    ghost use Rattle.hc_verify.specs.Following.{IsReached, Followed};

    /// Follows the line by which a process logs a value at this clock, where so many steps are left: the process takes its
    /// steps up to the log. The answer is how many that were.
    pub(crate) fn log(
        &mut self,
        task: &Task,
        at: Frac,
        process: u32,
        value: Frac,
        room: u32,
    ) -> Option<u32>
        requires shown { length self.old.board.posts ≡ length self.old.members.items }
        ensures { (c : Configuration) → IsReached task.now self.old room c →
            Followed task.now (record { at = at; step = Silent process (Some value) }) room c self.new result }
    {
        if !is_same(at, self.clock) {
            return None;
        }
        if process as usize >= self.members.len() {
            return None;
        }
        let stretch = self.run(process, task.seed, room);
        steps_to_log(&stretch, value)
    }
}
