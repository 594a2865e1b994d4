//! Which workers are to be woken.
ghost use Rattle.std.specs.Prelude.{◌≡◌, ◌<◌, ◌≤◌, ℕ, false, slice_index_or};
ghost use Rattle.hc_term.specs.declared.model.Configuration.{Configuration};
ghost use Rattle.hc_joint.specs.Keeps.{IsReached};
ghost use Rattle.hc_run.specs.Wanted.{AreWanted};

use crate::locked::WORKERS;
use hc_joint::Joint;

/// The workers that have a process with a silent step, or all of them where a stop stands.
pub fn wanted_by(joint: &Joint, used: u32) -> [bool; WORKERS]
    requires some { 0 < used }
    requires few { used ≤ 64 }
    ensures { (c : Configuration) → IsReached joint.now c → AreWanted joint.now used result c }
{
    let mut wanted = all_or_none(joint.stop().is_some());
    for process in 0..joint.task().system.processes.len() as u32 {
        if joint.able(process) {
            wanted[(process % used) as usize] = true;
        }
    }
    wanted
}

/// All workers, or none.
fn all_or_none(all: bool) -> [bool; WORKERS]
    ensures { (w : ℕ) → w < 64 → slice_index_or result w false ≡ all }
{
    [all; WORKERS]
}
