//! The canonical run, written turn by turn.

ghost use Rattle.std.specs.Prelude.{◌≡◌, [], None, IfOk, IfErr};
ghost use Rattle.hc_term.specs.Canonical.{canonical};
ghost use Rattle.hc_trace.specs.EndsTable.{table_of};
ghost use Rattle.hc_world.specs.Sinks.{PutsWhole};
ghost use Rattle.hc_joint.specs.Keeps.{HasCourse};
ghost use Rattle.hc_sim.specs.Told.{canonical_text, IsCutShort, TellsTurn};

use crate::writing::{all_ends, put_lines, put_stop, put_text};
use hc_joint::Joint;
use hc_term::Stop;
use hc_trace::ChannelEnds;
use hc_world::{Failed, Sink};

/// Takes a turn, and writes a line for each of its visible steps. False where a stop stood.
fn tell_turn<O: Sink>(joint: &mut Joint, ends: &ChannelEnds, out: &mut O) -> Result<bool, Failed>
    requires { ends.now ≡ table_of joint.old.task.system }
    ensures { TellsTurn O.state out.old out.new joint.old joint.new result }
{
    let told = joint.history().len();
    if !joint.forward() {
        return Ok(false);
    }
    put_lines(&joint.task().system, ends, &joint.history()[told..], out)?;
    Ok(true)
}

/// Runs a joint without a history to its stop, by turns of the least process that wants a step. It writes the header, then each
/// visible line when its turn is done, then the end line, each by one `write_all`, and flushes them. It takes no memory.
/// An error comes only where the sink's count of faults rose; then a first part of the text stands, and in it all lines
/// but those of the last turn.
pub fn simulate<O: Sink>(joint: &mut Joint, out: &mut O) -> Result<Stop, Failed>
    requires history { joint.old.history ≡ [] }
    requires stop { joint.old.stop ≡ None }
    ensures text { PutsWhole O.state out.old out.new result (canonical_text joint.old.task) }
    ensures stop { IfOk result (λ stop. stop ≡ (canonical joint.old.task).stop) }
    ensures course { IfOk result (λ _. HasCourse joint.new (canonical joint.old.task)) }
    ensures failed { IfErr result (λ _. IsCutShort O.state out.old joint.new) }
    ensures task { joint.new.task ≡ joint.old.task }
{
    let ends = all_ends(joint);
    put_text(joint, &ends, out)?;
    while tell_turn(joint, &ends, out)? {}
    let Some(stop) = joint.stop() else {
        unreachable!()
    };
    put_stop(&joint.task().system, stop, joint.clock(), out)?;
    Ok(stop)
}
