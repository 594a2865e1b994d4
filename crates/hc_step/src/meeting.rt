//! What a communication does to one process.

ghost use Rattle.std.specs.Prelude.{◌≡◌, ◌<◌, length, IsTrue};
ghost use Rattle.hc_step.specs.Usable.{is_usable_code};
ghost use Rattle.hc_step.specs.Ways as spec;

use crate::local::Local;
use hc_code::{Instr, ProcCode, Way};
use hc_frac::Frac;
use hc_term::Io;

/// What is behind a way that receives: the variable that is set, and the place at which the code goes on.
#[derive(Clone, Copy, Debug, PartialEq, Eq)]
struct Taken {
    variable: u32,
    next: u32,
}

/// The ways of an instruction.
fn ways_of(instr: &Instr) -> &[Way]
    ensures { result.now ≡ spec.ways_of instr.now }
{
    match instr {
        Instr::Meet { branches } => branches.as_slice(),
        Instr::Evolve { branches, .. } => branches.as_slice(),
        _ => &[],
    }
}

/// The place behind a way, where it sends on the channel.
fn place_sent(way: &Way, channel: u32) -> Option<u32>
    ensures { result ≡ spec.place_sent_by channel way.now.next way.now.io }
{
    match &way.io {
        Io::Send {
            channel: own,
            value: _,
        } if *own == channel => Some(way.next),
        _ => None,
    }
}

/// The place behind the way that sends on the channel.
fn sent_way(ways: &[Way], channel: u32) -> Option<u32>
    ensures { result ≡ spec.sent_way channel ways.now }
{
    for way in ways {
        if let Some(next) = place_sent(way, channel) {
            return Some(next);
        }
    }
    None
}

/// What is behind a way, where it receives on the channel.
fn taken_by(way: &Way, channel: u32) -> Option<Taken>
    ensures { result ≡ spec.taken_behind channel way.now.next way.now.io }
{
    match &way.io {
        Io::Receive {
            channel: own,
            variable,
        } if *own == channel => Some(Taken {
            variable: *variable,
            next: way.next,
        }),
        _ => None,
    }
}

/// What is behind the way that receives on the channel.
fn received_way(ways: &[Way], channel: u32) -> Option<Taken>
    ensures { result ≡ spec.received_way channel ways.now }
{
    for way in ways {
        if let Some(taken) = taken_by(way, channel) {
            return Some(taken);
        }
    }
    None
}

impl Local {
    ghost use Rattle.std.specs.Prelude.{None, ◌≢◌, true};
    ghost use Rattle.hc_rational.specs.Words.{Rational};
    ghost use Rattle.hc_term.specs.declared.model.ProcessState.{ProcessState};
    ghost use Rattle.hc_term.specs.Posts.{sent_on, receives_on};
    ghost use Rattle.hc_term.specs.Communication.{sent, received};
    ghost use Rattle.hc_code.specs.Stands.{Table, AllAgree};
    ghost use Rattle.hc_step.specs.Represents.{Represents, Keeps};

    /// Sends on the channel, which the process must offer.
    pub fn sent(&mut self, code: &ProcCode, channel: u32)
        requires usable { IsTrue (is_usable_code self.old.variables code.now.instrs) }
        requires within { self.old.place < length code.now.instrs }
        ensures keeps { Keeps (length code.now.instrs) self.old self.new }
        ensures sent { (t : Table) (clock : Rational) (q : ProcessState) → AllAgree t code.now.instrs t → Represents t clock self.old q →
            sent_on channel self.old.post.offers ≢ None → Represents t clock self.new (sent channel q) }
    {
        let ways = ways_of(code.at(self.place));
        if let Some(next) = sent_way(ways, channel) {
            self.go(code, next);
        }
    }

    /// Receives the value on the channel, which the process must offer.
    pub fn received(&mut self, code: &ProcCode, channel: u32, value: Frac)
        requires usable { IsTrue (is_usable_code self.old.variables code.now.instrs) }
        requires within { self.old.place < length code.now.instrs }
        ensures keeps { Keeps (length code.now.instrs) self.old self.new }
        ensures received { (t : Table) (clock : Rational) (q : ProcessState) → AllAgree t code.now.instrs t → Represents t clock self.old q →
            receives_on channel self.old.post.offers ≡ true → Represents t clock self.new (received channel value q) }
    {
        let ways = ways_of(code.at(self.place));
        if let Some(taken) = received_way(ways, channel) {
            self.set_and_go(code, taken.variable, value, taken.next);
        }
    }
}
