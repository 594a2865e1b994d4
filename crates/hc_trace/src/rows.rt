//! Single lines of a trace, without their newlines.
ghost use Rattle.std.specs.Prelude.{◌≡◌, ◌≢◌, ◌∷◌, [], codes};
ghost use Rattle.hc_rational.specs.Words.{IsFrac};
ghost use Rattle.hc_frac.specs.Text.{text_of};
ghost use Rattle.hc_frac.specs.Word.{IsWord};
ghost use Rattle.hc_trace.specs.Found.{Finds, Spells, IsEventOf, IsEndOf};
ghost use Rattle.hc_trace.specs.Traces as spec;
ghost use Rattle.hc_trace.specs.declared.traces.Version.{Version as AnyVersion};

use crate::cut::cut;
use crate::traces::{EndKind, TraceEnd, TraceEvent, TraceLine, Version};
use hc_frac::{Frac, Name};

const FIRST: &[u8] = b"hcsp-trace 1";

const SECOND: &[u8] = b"hcsp-trace 2";

/// The version that has this header.
pub(crate) fn version_of(row: &[u8]) -> Option<Version>
    ensures { Finds (λ v. spec.header_row v ≡ row.now) result }
{
    if row == FIRST {
        Some(Version::First)
    } else if row == SECOND {
        Some(Version::Second)
    } else {
        None
    }
}

/// The line that these bytes are in a text of this version.
pub(crate) fn line_of(version: Version, row: &[u8]) -> Option<TraceLine>
    ensures { Finds (λ l. spec.IsLine version l × Spells row.now (spec.line_words l)) result }
{
    let (at, event) = cut(row, b' ')?;
    let at = Frac::read(at)?;
    let event = event_of(version, event)?;
    Some(TraceLine { at, event })
}

/// The event that these bytes are, behind a clock.
fn event_of(version: Version, words: &[u8]) -> Option<TraceEvent>
    ensures { Finds (λ e. spec.IsEvent version e × Spells words.now (spec.event_word e ∷ spec.event_parts e)) result }
{
    let (kind, parts) = cut(words, b' ')?;
    match kind {
        b"delay" => delay_of(parts),
        b"comm" => comm_of(version, parts),
        b"log" => log_of(parts),
        _ => None,
    }
}

fn delay_of(parts: &[u8]) -> Option<TraceEvent>
    ensures { (v : AnyVersion) → Finds (IsEventOf v (codes "delay") parts.now) result }
{
    let by = Frac::read(parts)?;
    Some(TraceEvent::Delay { by })
}

fn log_of(parts: &[u8]) -> Option<TraceEvent>
    ensures { (v : AnyVersion) → Finds (IsEventOf v (codes "log") parts.now) result }
{
    let (process, value) = name_and_value(parts)?;
    Some(TraceEvent::Log { process, value })
}

/// A communication, whose ends are named exactly in version 2.
fn comm_of(version: Version, parts: &[u8]) -> Option<TraceEvent>
    ensures { Finds (IsEventOf version (codes "comm") parts.now) result }
{
    match version {
        Version::First => {
            let (channel, value) = name_and_value(parts)?;
            Some(TraceEvent::Comm {
                channel,
                sender: None,
                receiver: None,
                value,
            })
        }
        Version::Second => {
            let (channel, ends) = cut(parts, b' ')?;
            let channel = Name::new(channel)?;
            let (sender, rest) = cut(ends, b' ')?;
            let sender = Name::new(sender)?;
            let (receiver, value) = name_and_value(rest)?;
            Some(TraceEvent::Comm {
                channel,
                sender: Some(sender),
                receiver: Some(receiver),
                value,
            })
        }
    }
}

fn name_and_value(parts: &[u8]) -> Option<(Name, Frac)>
    ensures { Finds (λ x. IsWord x.0 × IsFrac x.1 × Spells parts.now (x.0 ∷ text_of x.1 ∷ [])) result }
{
    let (name, value) = cut(parts, b' ')?;
    let name = Name::new(name)?;
    let value = Frac::read(value)?;
    Some((name, value))
}

/// The end line that these bytes are.
pub(crate) fn end_of(row: &[u8]) -> Option<TraceEnd>
    ensures { Finds (λ e. spec.IsEnd e × Spells row.now (spec.end_words e)) result }
{
    let (first, rest) = cut(row, b' ')?;
    let b"end" = first else {
        return None;
    };
    let (kind, parts) = cut(rest, b' ')?;
    let kind = kind_of(kind)?;
    if kind == EndKind::Overflow {
        overflow_of(parts)
    } else {
        plain_end_of(kind, parts)
    }
}

fn kind_of(word: &[u8]) -> Option<EndKind>
    ensures { Finds (λ k. spec.end_word k ≡ word.now) result }
{
    match word {
        b"terminated" => Some(EndKind::Terminated),
        b"deadlock" => Some(EndKind::Deadlock),
        b"horizon" => Some(EndKind::Horizon),
        b"limit" => Some(EndKind::Limit),
        b"overflow" => Some(EndKind::Overflow),
        _ => None,
    }
}

/// An end that names no process.
fn plain_end_of(kind: EndKind, parts: &[u8]) -> Option<TraceEnd>
    requires { kind ≢ EndKind.Overflow }
    ensures { Finds (IsEndOf kind parts.now) result }
{
    let at = Frac::read(parts)?;
    Some(TraceEnd {
        kind,
        at,
        who: None,
    })
}

fn overflow_of(parts: &[u8]) -> Option<TraceEnd>
    ensures { Finds (IsEndOf EndKind.Overflow parts.now) result }
{
    let (at, who) = cut(parts, b' ')?;
    let at = Frac::read(at)?;
    let who = match who {
        b"*" => None,
        who => Some(Name::new(who)?),
    };
    Some(TraceEnd {
        kind: EndKind::Overflow,
        at,
        who,
    })
}
