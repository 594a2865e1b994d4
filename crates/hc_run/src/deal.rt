//! Dealing the processes out to the workers.
ghost use Rattle.std.specs.Prelude.{◌<◌, ◌≤◌, ◌≡◌, ◌-◌, ℕ, All, IfOk, length, slice_index_or, vec_len};
ghost use Rattle.hc_run.specs.Lanes.{AreOf};
ghost use Rattle.hc_run.specs.declared.share.Share.{Share};

use crate::share::{Lane, Share};
use hc_advance::Advance;
use hc_term::Task;
use std::alloc::{AllocError, Global};

/// The lane of a process, at its opening.
fn lane_of(alloc: Global, task: &Task, process: u32) -> Result<Lane, AllocError>
    requires { process < length task.now.system.processes }
    ensures { IfOk result (λ lane. lane.process ≡ process) }
{
    let advance = Advance::open(alloc, task, process)?;
    Ok(Lane { process, advance })
}

/// The lanes of one worker: those processes whose number modulo the number of workers is the worker's.
fn lanes_of(alloc: Global, task: &Task, worker: u32, used: u32) -> Result<Vec<Lane>, AllocError>
    requires { 0 < used }
    ensures { IfOk result (λ lanes. AreOf used worker (length task.now.system.processes) lanes.items) }
{
    let mut lanes = Vec::new(alloc);
    for process in 0..task.system.processes.len() as u32 {
        if process % used == worker {
            lanes.push(lane_of(alloc, task, process)?)?;
        }
    }
    Ok(lanes)
}

/// A worker's share, of which nothing has been worked.
fn share_of(alloc: Global, task: &Task, worker: u32, used: u32) -> Result<Share, AllocError>
    requires some { worker < used }
    requires few { used ≤ 64 }
    ensures lanes { IfOk result (λ share. AreOf used share.worker (length task.now.system.processes) share.lanes.items) }
    ensures worker { IfOk result (λ share. share.worker ≡ worker) }
{
    let lanes = lanes_of(alloc, task, worker, used)?;
    Ok(Share {
        worker,
        stretches: 0,
        next: 0,
        lanes,
    })
}

/// A share for each worker, the first worker's last.
pub fn deal(alloc: Global, task: &Task, used: u32) -> Result<Vec<Share>, AllocError>
    requires { used ≤ 64 }
    ensures lanes { IfOk result
        (λ shares. All (λ share. AreOf used share.worker (length task.now.system.processes) share.lanes.items) shares.items) }
    ensures count { IfOk result (λ shares. vec_len shares ≡ used) }
    ensures workers { IfOk result (λ shares. (k : ℕ) → k < used
        → (d : Share) → (slice_index_or shares.items k d).worker ≡ used - 1 - k) }
{
    let mut shares = Vec::new(alloc);
    for dealt in 0..used {
        shares.push(share_of(alloc, task, used - 1 - dealt, used)?)?;
    }
    Ok(shares)
}
