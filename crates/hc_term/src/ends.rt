//! The two ends of a channel: the process that sends on it, and the one that receives.

ghost use Rattle.std.specs.Prelude.{◌≡◌, ◌≤◌, ◌<◌, ◌||◌, length, IfSome};
ghost use Rattle.std.specs.List.{list_any};
ghost use Rattle.hc_term.specs.declared.stmt.Branch.{out-Branch};
ghost use Rattle.hc_term.specs.Rules.{is_on, uses, is_user};
ghost use Rattle.hc_term.specs.Ends.{user_from, ends_of};

use crate::{Branch, Io, Process, Stmt, System};

/// The processes at the two ends of a channel, by their numbers from 0, or `None` where no process uses that end.
#[derive(Clone, Copy, Debug, PartialEq, Eq)]
pub struct Ends {
    pub sender: Option<u32>,
    pub receiver: Option<u32>,
}

/// The processes that send and receive on the channel with this number, anywhere in their bodies.
pub fn channel_ends(system: &System, channel: u32) -> Ends
    ensures ends { result ≡ ends_of system.now channel }
    ensures sender { IfSome result.sender (λ p. p < length system.now.processes) }
    ensures receiver { IfSome result.receiver (λ p. p < length system.now.processes) }
{
    let processes = system.processes.as_slice();
    Ends {
        sender: first_user(true, u64::from(channel), processes),
        receiver: first_user(false, u64::from(channel), processes),
    }
}

/// The first process that sends, or receives, on the channel.
fn first_user(sending: bool, channel: u64, processes: &[Process]) -> Option<u32>
    requires { length processes.now ≤ 64 }
    ensures first { result ≡ user_from sending channel 0 processes.now }
    ensures within { IfSome result (λ p. p < length processes.now) }
{
    let mut number: u32 = 0;
    for process in processes {
        if is_using_process(sending, channel, process) {
            return Some(number);
        }
        number += 1;
    }
    None
}

fn is_using_process(sending: bool, channel: u64, process: &Process) -> bool
    ensures { result ≡ is_user sending channel process.now }
{
    any_using(sending, channel, process.body.as_slice())
}

fn is_on_channel(sending: bool, channel: u64, io: &Io) -> bool
    ensures { result ≡ is_on sending channel io.now }
{
    match io {
        Io::Send {
            channel: own,
            value: _,
        } => sending && u64::from(*own) == channel,
        Io::Receive { channel: own, .. } => !sending && u64::from(*own) == channel,
    }
}

/// Whether a statement sends, or receives, on the channel.
#[cycle(uses)]
fn is_using(sending: bool, channel: u64, stmt: &Stmt) -> bool
    ensures { result ≡ uses sending channel stmt.now }
{
    match stmt {
        Stmt::Skip | Stmt::Assign { .. } | Stmt::Wait { .. } | Stmt::Log { .. } => false,
        Stmt::Io(io) => is_on_channel(sending, channel, io),
        Stmt::If { test: _, yes, no } => {
            let first = any_using(sending, channel, yes.as_slice());
            let second = any_using(sending, channel, no.as_slice());
            first | second
        }
        Stmt::Pick { left, right } => {
            let first = any_using(sending, channel, left.as_slice());
            let second = any_using(sending, channel, right.as_slice());
            first | second
        }
        Stmt::Forever { body } => any_using(sending, channel, body.as_slice()),
        Stmt::Loop { test: _, body } => any_using(sending, channel, body.as_slice()),
        Stmt::Choice { branches } => any_branch_using(sending, channel, branches.as_slice()),
        Stmt::Evolve {
            rates: _,
            domain: _,
            branches,
        } => any_branch_using(sending, channel, branches.as_slice()),
    }
}

#[cycle(uses)]
fn any_using(sending: bool, channel: u64, stmts: &[Stmt]) -> bool
    ensures { result ≡ list_any (uses sending channel) stmts.now }
{
    for stmt in stmts {
        if is_using(sending, channel, stmt) {
            return true;
        }
    }
    false
}

#[cycle(uses)]
fn any_branch_using(sending: bool, channel: u64, branches: &[Branch]) -> bool
    ensures { result ≡ list_any (λ b. is_on sending channel (out-Branch b).io || list_any (uses sending channel) (out-Branch b).body) branches.now }
{
    for branch in branches {
        if is_on_channel(sending, channel, &branch.io)
            || any_using(sending, channel, branch.body.as_slice())
        {
            return true;
        }
    }
    false
}
