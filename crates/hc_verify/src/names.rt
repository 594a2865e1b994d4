//! What the lines of a trace name: processes, channels and stops, by the names of a system.

ghost use Rattle.std.specs.Prelude.{◌≡◌, ◌≤◌, ◌↔◌, None, length, IsTrue};
ghost use Rattle.hc_limits.specs.Limits.{most_processes, most_channels};
ghost use Rattle.hc_verify.specs.Named.{HasName, IsEndNamed, IsChannelNamed, IsStopOf, IsThe};
ghost use Rattle.hc_verify.specs.Places.{process_from, name_from, is_both};

use hc_frac::Name;
use hc_term::{Process, Stop, System, channel_ends};
use hc_trace::EndKind;

/// The number of the first process of this name.
fn find_process(processes: &[Process], name: &Name) -> Option<u32>
    requires { length processes.now ≤ most_processes }
    ensures { result ≡ process_from name.now 0 processes.now }
{
    let mut number: u32 = 0;
    for process in processes {
        if process.name == *name {
            return Some(number);
        }
        number += 1;
    }
    None
}

/// The number of the first channel of this name.
fn find_name(names: &[Name], name: &Name) -> Option<u32>
    requires { length names.now ≤ most_channels }
    ensures { result ≡ name_from name.now 0 names.now }
{
    let mut number: u32 = 0;
    for one in names {
        if *one == *name {
            return Some(number);
        }
        number += 1;
    }
    None
}

/// The process of this name.
pub(crate) fn process_named(system: &System, name: &Name) -> Option<u32>
    ensures { IsThe (λ p. HasName system.now p name.now) result }
{
    find_process(system.processes.as_slice(), name)
}

/// Whether both are there, and the same.
fn is_both(one: Option<u32>, other: Option<u32>) -> bool
    ensures { result ≡ is_both one other }
{
    match one {
        None => false,
        Some(p) => match other {
            None => false,
            Some(q) => p == q,
        },
    }
}

/// Whether the process at one end of a channel has this name, if one is given.
fn is_end_named(system: &System, end: Option<u32>, name: &Option<Name>) -> bool
    ensures { IsTrue result ↔ IsEndNamed system.now end name.now }
{
    match name {
        None => true,
        Some(name) => is_both(process_named(system, name), end),
    }
}

/// The channel of this name, if its ends have the given names.
pub(crate) fn channel_named(
    system: &System,
    channel: &Name,
    sender: &Option<Name>,
    receiver: &Option<Name>,
) -> Option<u32>
    ensures { IsThe (IsChannelNamed system.now channel.now sender.now receiver.now) result }
{
    let number = find_name(system.channels.as_slice(), channel)?;
    let ends = channel_ends(system, number);
    let sent = is_end_named(system, ends.sender, sender);
    let received = is_end_named(system, ends.receiver, receiver);
    if sent & received { Some(number) } else { None }
}

/// The stop that an end line names.
pub(crate) fn stop_of(system: &System, kind: EndKind, who: &Option<Name>) -> Option<Stop>
    ensures { IsThe (IsStopOf system.now kind who.now) result }
{
    match who {
        None => plain_stop(system, kind),
        Some(name) => {
            if kind == EndKind::Overflow {
                let process = process_named(system, name)?;
                Some(Stop::Overflow {
                    process: Some(process),
                })
            } else {
                None
            }
        }
    }
}

/// The stop of an end that names no process.
fn plain_stop(system: &System, kind: EndKind) -> Option<Stop>
    ensures { IsThe (IsStopOf system.now kind None) result }
{
    match kind {
        EndKind::Terminated => Some(Stop::Terminated),
        EndKind::Deadlock => Some(Stop::Deadlock),
        EndKind::Horizon => Some(Stop::Horizon),
        EndKind::Limit => Some(Stop::Limit),
        EndKind::Overflow => Some(Stop::Overflow { process: None }),
    }
}
