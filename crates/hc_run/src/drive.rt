//! The workers, who share the joint under one lock.
ghost use Rattle.std.specs.Prelude.{◌≡◌, ◌+◌, ◌<◌, ◌≤◌, length, min, IfOk, vec_len, vec_capacity};
ghost use Rattle.hc_run.specs.Outcomes.{IsOutcome};

use crate::close::{Outcome, close};
use crate::deal::deal;
use crate::find::lease_first;
use crate::floor::{Floor, Seat};
use crate::gate::Gate;
use crate::locked::{Locked, WORKERS};
use crate::share::Share;
use hc_joint::Joint;
use hc_term::Task;
use std::alloc::{AllocError, Global};
use std::sync::{Condvar, Mutex, Wait};
use std::thread::Threads;
use std::{array, thread};

/// A floor of `used` workers over a joint with no turn made.
fn lay(joint: Joint, shares: Vec<Share>, used: u32) -> Floor
    requires fresh { joint.turns ≡ 0 }
    requires some { 0 < used }
    requires few { used ≤ 64 }
    ensures { result.used ≡ used }
{
    Floor {
        lock: Mutex::new(Locked {
            joint,
            counts: [0; WORKERS],
        }),
        pool: Mutex::new(shares),
        seats: array::from_fn(|_| Seat::new()),
        caller: Condvar::new(),
        used,
    }
}

/// Runs the processes of the task by so many workers, each on a thread of its own and with those processes whose number
/// modulo the number of workers is its own; more workers than processes count as that many. Before each stretch a worker
/// passes the gate; it works the stretch out beside the others, and hands it in under the one lock. The caller drives the
/// processes of workers whose thread can't be started. It returns when a stop stands, and waits for the threads.
pub fn run<R: Threads + Wait + Sync, G: Gate + Sync>(
    rt: &R,
    alloc: Global,
    task: &Task,
    workers: u32,
    gate: &G,
) -> Result<Outcome, AllocError>
    requires some { 0 < workers }
    requires few { workers ≤ 64 }
    ensures { IfOk result (λ o. IsOutcome task.now (min workers (length task.now.system.processes)) o.joint o.turns.items o.own_turns) }
{
    run_on(rt, alloc, task, workers, workers, gate)
}

/// As `run`, but on at most so many threads beside the caller's, who drives the processes of all other workers.
pub fn run_on<R: Threads + Wait + Sync, G: Gate + Sync>(
    rt: &R,
    alloc: Global,
    task: &Task,
    workers: u32,
    threads: u32,
    gate: &G,
) -> Result<Outcome, AllocError>
    requires some { 0 < workers }
    requires few { workers ≤ 64 }
    ensures { IfOk result (λ o. IsOutcome task.now (min workers (length task.now.system.processes)) o.joint o.turns.items o.own_turns) }
{
    let used = workers.min(task.system.processes.len() as u32);
    let joint = Joint::open(alloc, task.copy(alloc)?)?;
    let own = Vec::with_capacity(alloc, used as usize)?;
    let turns = Vec::with_capacity(alloc, used as usize)?;
    let shares = deal(alloc, task, used)?;
    let floor = lay(joint, shares, used);
    crew(rt, &floor, gate, threads, own);
    let Floor { lock, .. } = floor;
    close(alloc, task, lock.into_inner(), turns, used as usize)
}

/// A thread for each worker, up to so many. The caller drives the shares that have none.
fn crew<R: Threads + Wait + Sync, G: Gate + Sync>(
    rt: &R,
    floor: &Floor,
    gate: &G,
    threads: u32,
    own: Vec<Share>,
)
    requires { vec_len own + floor.now.used ≤ vec_capacity own }
{
    thread::scope(
        thread::scope_env(),
        rt,
        move |scope|
            requires { vec_len own + floor.now.used ≤ vec_capacity own }
        {
            let mut own = own;
            for worker in 0..floor.used {
                let is_started = worker < threads
                    && scope.spawn(move || work(rt, floor, gate)).is_ok();
                if !is_started {
                    if let Some(share) = share_for_caller(rt, floor) {
                        own.push_reserved(share);
                    }
                }
            }
            drive(rt, floor, gate, own.as_mut_slice(), &floor.caller);
        },
    );
}

/// The share that nobody has taken yet, of the least worker.
fn next_share<R: Wait>(rt: &R, floor: &Floor) -> Option<Share> {
    floor.pool.lock(rt).pop()
}

/// A share that the caller drives: its worker's rings go to the caller before it looks for the first time.
fn share_for_caller<R: Wait>(rt: &R, floor: &Floor) -> Option<Share> {
    let share = next_share(rt, floor)?;
    floor.seats[share.worker as usize].leave_to_caller();
    Some(share)
}

/// A thread: it takes a share, and drives it on the bell of the share's worker.
fn work<R: Wait, G: Gate>(rt: &R, floor: &Floor, gate: &G) {
    if let Some(share) = next_share(rt, floor) {
        let seat = &floor.seats[share.worker as usize];
        drive(rt, floor, gate, &mut [share], &seat.bell);
    }
}

/// Drives the shares until a stop stands, and sleeps on the bell while none of their processes is able.
fn drive<R: Wait, G: Gate>(rt: &R, floor: &Floor, gate: &G, shares: &mut [Share], bell: &Condvar) {
    if shares.is_empty() {
        return;
    }
    let mut from = 0;
    for _ in rt.forever() {
        let locked = floor.lock.lock(rt);
        if locked.joint.stop().is_some() {
            break;
        }
        let Some((at, lane)) = lease_first(&locked.joint, shares, from) else {
            drop(bell.wait(rt, locked));
            continue;
        };
        drop(locked);
        from = at + 1;
        take_stretch(rt, floor, gate, &mut shares[at], lane);
    }
}

/// One stretch and its turn. Whom it woke is read under the lock, and rung for outside it.
fn take_stretch<R: Wait, G: Gate>(rt: &R, floor: &Floor, gate: &G, share: &mut Share, lane: usize)
    requires { lane < vec_len share.old.lanes }
{
    let worker = share.worker;
    gate.enter(worker, share.stretches);
    share.stretches = share.stretches.saturating_add(1);
    let lane = &mut share.lanes[lane];
    lane.advance.work();
    let wanted = floor
        .lock
        .lock(rt)
        .turn_and_wake(worker, lane.process, &lane.advance, floor.used);
    floor.ring(&wanted);
}
