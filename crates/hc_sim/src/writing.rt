//! The text of a history, line by line.

ghost use Rattle.std.specs.Prelude.{◌≡◌, ◌≢◌, ℕ, List, [], IsSome};
ghost use Rattle.hc_term.specs.TraceText.{line_of_step, lines, text, end_line as line_of_end};
ghost use Rattle.hc_world.specs.Pieces.{IsUnderWay, PutsPiece};
ghost use Rattle.hc_world.specs.Sinks.{PutsWhole};
ghost use Rattle.hc_trace.specs.EndsTable.{table_of};
ghost use Rattle.hc_trace.specs.InRange.{AreInRange, StepInRange, StopInRange};
ghost use Rattle.hc_joint.specs.Keeps.{Keeps};
ghost use Rattle.hc_sim.specs.Told.{history_text};

use hc_frac::Frac;
use hc_joint::Joint;
use hc_term::{Item, Stop, System};
use hc_trace::{ChannelEnds, HEADER, end_line, event_line};
use hc_world::{Failed, Sink, finish, put_piece};

/// The ends of all channels of the joint's system, for its lines.
pub(crate) fn all_ends(joint: &Joint) -> ChannelEnds
    ensures { result ≡ table_of joint.now.task.system }
{
    ChannelEnds::of(&joint.task().system)
}

/// Writes the line of a step, if it has one.
fn put_line<O: Sink>(
    system: &System,
    ends: &ChannelEnds,
    item: &Item,
    out: &mut O,
) -> Result<(), Failed>
    requires range { StepInRange system.now item.now.step }
    requires ends { ends.now ≡ table_of system.now }
    ensures { PutsPiece O.state out.old out.new result (line_of_step system.now item.now.at item.now.step) }
{
    match event_line(system, ends, item) {
        Some(line) => put_piece(out, line.as_str().as_bytes()),
        None => Ok(()),
    }
}

/// Writes a line for each visible step, each at once.
pub(crate) fn put_lines<O: Sink>(
    system: &System,
    ends: &ChannelEnds,
    items: &[Item],
    out: &mut O,
) -> Result<(), Failed>
    requires range { AreInRange system.now items.now }
    requires ends { ends.now ≡ table_of system.now }
    ensures { PutsPiece O.state out.old out.new result (lines system.now items.now) }
{
    for item in items {
        put_line(system, ends, item, out)?;
    }
    Ok(())
}

/// Writes the header, and a line for each visible step of the history.
pub(crate) fn put_text<O: Sink>(
    joint: &Joint,
    ends: &ChannelEnds,
    out: &mut O,
) -> Result<(), Failed>
    requires { ends.now ≡ table_of joint.now.task.system }
    ensures keeps { Keeps joint.now }
    ensures puts { PutsPiece O.state out.old out.new result (text joint.now.task.system joint.now.history) }
{
    let history = joint.history();
    put_piece(out, HEADER)?;
    put_lines(&joint.task().system, ends, history, out)
}

/// Writes the end line with the stop and the clock reached, and flushes the text that it ends.
pub(crate) fn put_stop<O: Sink>(
    system: &System,
    stop: Stop,
    clock: Frac,
    out: &mut O,
) -> Result<(), Failed>
    requires { StopInRange system.now stop }
    ensures { (before : O) (bytes : List ℕ) → bytes ≢ [] →
        IsUnderWay O.state before out.old bytes (line_of_end system.now clock stop) →
        PutsWhole O.state before out.new result bytes }
{
    let end = end_line(system, stop, clock);
    put_piece(out, end.as_str().as_bytes())?;
    finish(out)
}

/// Writes the whole text of a joint at which a stop stands: the header, a line for each visible step, and the end line
/// with the stop and the clock reached, each by one `write_all`, and flushes them. It takes no memory.
pub fn write_history<O: Sink>(joint: &Joint, out: &mut O) -> Result<(), Failed>
    requires { IsSome joint.now.stop }
    ensures { PutsWhole O.state out.old out.new result (history_text joint.now) }
{
    let Some(stop) = joint.stop() else {
        unreachable!()
    };
    let ends = all_ends(joint);
    put_text(joint, &ends, out)?;
    put_stop(&joint.task().system, stop, joint.clock(), out)
}
