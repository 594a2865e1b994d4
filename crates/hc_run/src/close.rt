//! What is answered when no thread is left.
ghost use Rattle.std.specs.Prelude.{◌≡◌, ◌≢◌, ◌≤◌, ◌<◌, ◌^◌, [], IfOk, IsTrue, is_ok, length, replicate, take, sum, vec_capacity};
ghost use Rattle.hc_joint.specs.Keeps.{IsFinished};
ghost use Rattle.hc_run.specs.Outcomes.{IsOutcome};

use crate::locked::{Locked, WORKERS};
use hc_joint::Joint;
use hc_term::{Task, same_task};
use std::alloc::{AllocError, Global};

/// The joint at its stop, the turns of each worker, and those of the caller.
#[derive(Drop)]
pub struct Outcome {
    pub joint: Joint,
    pub turns: Vec<u64>,
    pub own_turns: u64,
}

/// The sum of these counts.
fn total(counts: &[u64]) -> u64
    requires { sum counts.now < 2 ^ 64 }
    ensures { result ≡ sum counts.now }
{
    let mut total = 0;
    for count in counts {
        total += *count;
    }
    total
}

/// These counts as a list, in the room that was taken for it.
fn listed(turns: Vec<u64>, counts: &[u64]) -> Vec<u64>
    requires empty { turns.items ≡ [] }
    requires room { length counts.now ≤ vec_capacity turns }
    ensures { result.items ≡ counts.now }
{
    let mut turns = turns;
    for count in counts {
        turns.push_reserved(*count);
    }
    turns
}

/// The outcome of a joint of the caller's own, at which no worker had a turn.
#[tactic(auto, using(crate::proofs::Zeros::first_zeros))]
fn own_outcome(
    alloc: Global,
    task: &Task,
    turns: Vec<u64>,
    used: usize,
) -> Result<Outcome, AllocError>
    requires few { used ≤ 64 }
    requires empty { turns.items ≡ [] }
    requires room { used ≤ vec_capacity turns }
    ensures outcome { IfOk result (λ o. IsOutcome task.now used o.joint o.turns.items o.own_turns) }
    ensures none { IfOk result (λ o. o.turns.items ≡ replicate used 0) }
{
    let mut joint = Joint::open(alloc, task.copy(alloc)?)?;
    joint.finish();
    let _items = joint.history();
    let own_turns = joint.turns();
    Ok(Outcome {
        joint,
        turns: listed(turns, &[0; WORKERS][..used]),
        own_turns,
    })
}

/// The outcome of the joint that was found in the lock, once it has come to a stop. It takes no memory.
fn found_outcome(locked: Locked, turns: Vec<u64>, used: usize) -> Outcome
    requires few { used ≤ 64 }
    requires empty { turns.items ≡ [] }
    requires room { used ≤ vec_capacity turns }
    ensures outcome { IsOutcome locked.joint.task used result.joint result.turns.items result.own_turns }
    ensures counted { result.turns.items ≡ take used locked.counts }
    ensures kept { locked.joint.turns ≤ result.joint.turns }
    ensures finished { IsFinished locked.joint.stop locked.joint result.joint }
{
    let Locked { mut joint, counts } = locked;
    let made = total(&counts[..used]);
    joint.finish();
    let _items = joint.history();
    let own_turns = joint.turns() - made;
    Outcome {
        joint,
        turns: listed(turns, &counts[..used]),
        own_turns,
    }
}

/// The outcome of this task: of the joint that was found in the lock, or, where that is of another task, of one of the
/// caller's own. The numbers of so many workers are listed in room that was taken for them; memory is wanted only for
/// another joint.
pub fn close(
    alloc: Global,
    task: &Task,
    locked: Locked,
    turns: Vec<u64>,
    used: usize,
) -> Result<Outcome, AllocError>
    requires few { used ≤ 64 }
    requires empty { turns.items ≡ [] }
    requires room { used ≤ vec_capacity turns }
    ensures outcome { IfOk result (λ o. IsOutcome task.now used o.joint o.turns.items o.own_turns) }
    ensures found { locked.joint.task ≡ task.now → IsTrue (is_ok result) }
    ensures counted { IfOk result (λ o. locked.joint.task ≡ task.now → o.turns.items ≡ take used locked.counts) }
    ensures kept { IfOk result (λ o. locked.joint.task ≡ task.now → locked.joint.turns ≤ o.joint.turns) }
    ensures finished { IfOk result (λ o. locked.joint.task ≡ task.now → IsFinished locked.joint.stop locked.joint o.joint) }
    ensures other { IfOk result (λ o. locked.joint.task ≢ task.now → o.turns.items ≡ replicate used 0) }
{
    if same_task(locked.joint.task(), task) {
        return Ok(found_outcome(locked, turns, used));
    }
    own_outcome(alloc, task, turns, used)
}
