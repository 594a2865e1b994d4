//! The uses of channels.

ghost use Rattle.std.specs.Prelude.{◌≡◌, ◌++◌, ◌∷◌, [], List, not, map, flat_map, OnOk, IfOk, IfErr};
ghost use Rattle.std.specs.List.{list_any};
ghost use Rattle.hc_modules.specs.Bindings.{same_word};
ghost use Rattle.hc_modules.specs.Found.{first_of, IsFirst};
ghost use Rattle.hc_modules.specs.Outermost.{in_a_row};
ghost use Rattle.hc_finds.specs.First.{told};
ghost use Rattle.hc_finds.specs.Refusals as refused;
ghost use Rattle.hc_finds.specs.declared.stop.CheckStop.TheVariants.{SelfChannel};
ghost use Rattle.hc_finds.specs.Uses as spec;
ghost use Rattle.hc_finds.specs.Uses.{Use as Used};
ghost use Rattle.hc_finds.specs.Seen.{part_of, seen, use_of, uses_seen, all_uses, channels_at, AreEnds};

use crate::names::note;
use crate::parts::Part;
use crate::stop::CheckStop;
use hc_ast::IoTree;
use hc_frac::{Name, Place};
use indexmap::IndexSet;
use std::alloc::{AllocError, Global};

/// A statement or branch that sends on a channel, or receives from it.
#[derive(Clone, Copy, Drop)]
pub struct Use<'a> {
    pub place: Place,
    pub sends: bool,
    pub channel: &'a Name,
}

fn use_at<'a>(place: Place, io: &'a IoTree) -> Use<'a>
    ensures { use_of result ≡ spec.use_at place io.now }
{
    match io {
        IoTree::Send { channel, .. } => Use {
            place,
            sends: true,
            channel,
        },
        IoTree::Receive { channel, .. } => Use {
            place,
            sends: false,
            channel,
        },
    }
}

/// The uses in parts, in their order.
pub(crate) fn uses_in<'a>(alloc: Global, parts: &[Part<'a>]) -> Result<Vec<Use<'a>>, AllocError>
    ensures { IfOk result (λ us. uses_seen us.items ≡ flat_map spec.uses_in (seen parts.now)) }
{
    let mut uses = Vec::new(alloc);
    for part in parts {
        match *part {
            Part::Communicate { place, io } => uses.push(use_at(place, io))?,
            Part::Guard { place, io, .. } => uses.push(use_at(place, io))?,
            _ => {}
        }
    }
    Ok(uses)
}

/// Whether a use is a send, or a receive.
fn goes(sends: bool, end: Use<'_>) -> bool
    ensures { result ≡ spec.goes sends (use_of end.entry) }
{
    if sends { end.sends } else { !end.sends }
}

/// The ends of channels: those on which something is sent, and those from which something is received.
#[derive(Drop)]
pub(crate) struct Ends {
    pub(crate) sent: IndexSet<Name>,
    pub(crate) received: IndexSet<Name>,
}

impl Ends {
    /// None.
    fn new(alloc: Global) -> Ends
        ensures { AreEnds result [] }
    {
        Ends {
            sent: IndexSet::new(alloc),
            received: IndexSet::new(alloc),
        }
    }

    /// Whether something is sent on the channel, or received from it.
    fn has(&self, sends: bool, channel: &Name) -> bool
        ensures { result ≡ list_any (same_word channel.now) (channels_at sends self.now) }
    {
        if sends {
            self.sent.contains(channel)
        } else {
            self.received.contains(channel)
        }
    }

    /// Adds a use.
    fn add(&mut self, end: Use<'_>) -> Result<(), AllocError>
        ensures { OnOk result ((us : List Used) → AreEnds self.old us → AreEnds self.new (us ++ use_of end.entry ∷ [])) }
    {
        if end.sends {
            note(&mut self.sent, end.channel)?;
            Ok(())
        } else {
            note(&mut self.received, end.channel)?;
            Ok(())
        }
    }

    /// Adds uses.
    fn add_all(&mut self, uses: &[Use<'_>]) -> Result<(), AllocError>
        ensures { OnOk result ((us : List Used) → AreEnds self.old us → AreEnds self.new (us ++ uses_seen uses.now)) }
    {
        for end in uses {
            self.add(*end)?;
        }
        Ok(())
    }
}

/// A use of a channel that its process uses in the other direction before is refused.
pub(crate) fn no_turn(alloc: Global, uses: &[Use<'_>]) -> Result<(), CheckStop>
    ensures ok { OnOk result (spec.self_channels (uses_seen uses.now) ≡ []) }
    ensures stop { IfErr result (IsFirst told (map SelfChannel (spec.self_channels (uses_seen uses.now)))) }
{
    let mut ends = Ends::new(alloc);
    for end in uses {
        if ends.has(!end.sends, end.channel) {
            return Err(CheckStop::SelfChannel { place: end.place });
        }
        ends.add(*end)?;
    }
    Ok(())
}

/// An error is the first send, or receive, on a channel that has this end before.
fn unshared(sends: bool, before: &Ends, uses: &[Use<'_>]) -> Result<(), Place>
    ensures { (us : List (List Used)) → AreEnds before.now (in_a_row us) → result ≡ first_of (spec.shared_in sends us (uses_seen uses.now)) }
{
    for end in uses {
        let shares = goes(sends, *end) & before.has(sends, end.channel);
        if shares {
            return Err(end.place);
        }
    }
    Ok(())
}

/// How a second sender, or receiver, is refused.
fn second_end(sends: bool, place: Place) -> CheckStop
    ensures { result ≡ refused.second_end sends place }
{
    if sends {
        CheckStop::TwoSenders { place }
    } else {
        CheckStop::TwoReceivers { place }
    }
}

/// A send, or receive, on a channel on which an earlier process sends, or receives, is refused.
pub(crate) fn no_second_end(
    alloc: Global,
    sends: bool,
    processes: &[Vec<Use<'_>>],
) -> Result<(), CheckStop>
    ensures ok { OnOk result (spec.shared_ends sends (all_uses processes.now) ≡ []) }
    ensures stop { IfErr result (IsFirst told (map (refused.second_end sends) (spec.shared_ends sends (all_uses processes.now)))) }
{
    let mut before = Ends::new(alloc);
    for uses in processes {
        if let Err(place) = unshared(sends, &before, uses) {
            return Err(second_end(sends, place));
        }
        before.add_all(uses)?;
    }
    Ok(())
}
