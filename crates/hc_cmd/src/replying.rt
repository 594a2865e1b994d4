//! What is ready, or what is told of a refusal, written on both sinks.

ghost use Rattle.hc_cmd.specs.Prepared.{reply_of, IsSettled, Performs};
ghost use Rattle.hc_cmd.specs.Reply.{Stands};

use crate::ending::End;
use crate::prepared::Prepared;
use crate::refusal::Refusal;
use hc_world::{Failed, Sink, put};

/// The status where a write or a flush failed.
const WRITE_FAILED: u8 = 4;

/// Writes on `out` what is ready, and tells the status and the text on error.
fn perform<O: Sink>(prepared: Result<Prepared, Refusal>, out: &mut O) -> Result<End, Failed>
    requires { IsSettled prepared }
    ensures { Performs O.state out.old out.new (reply_of prepared) result }
{
    match prepared {
        Ok(prepared) => prepared.perform(out),
        Err(refusal) => Ok(refusal.end()),
    }
}

/// Writes what is ready, or what is told of the refusal, and answers the status.
pub(crate) fn reply_with<O: Sink, E: Sink>(
    prepared: Result<Prepared, Refusal>,
    out: &mut O,
    err: &mut E,
) -> u8
    requires { IsSettled prepared }
    ensures { Stands O.state E.state out.old out.new err.old err.new (reply_of prepared) result }
{
    let Ok(end) = perform(prepared, out) else {
        return WRITE_FAILED;
    };
    match put(err, end.told.bytes()) {
        Ok(()) => end.status,
        Err(_) => WRITE_FAILED,
    }
}
