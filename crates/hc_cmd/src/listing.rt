//! What a run hands over on each channel, as a text with its end.

ghost use Rattle.std.specs.Prelude.{◌≡◌, true, IfOk, IsSome};
ghost use Rattle.hc_cmd.specs.Prepared.{bytes_of, reply_in};
ghost use Rattle.hc_cmd.specs.Running.{told};

use crate::ending::{End, Text, Told};
use crate::simulation::status_of_stop;
use hc_det::channels_text;
use hc_joint::Joint;
use std::alloc::{AllocError, Global};

/// What the history of a joint at its stop hands over on each channel, the status of the stop, and what is told on error.
pub(crate) fn listing_of(alloc: Global, joint: &Joint, on_error: Told) -> Result<Text, AllocError>
    requires { IsSome joint.now.stop }
    ensures { IfOk result (λ text. reply_in text ≡ told true joint.now (bytes_of on_error)) }
{
    let Some(stop) = joint.stop() else {
        unreachable!()
    };
    let bytes = channels_text(alloc, joint)?;
    Ok(Text {
        bytes,
        end: End {
            status: status_of_stop(stop),
            told: on_error,
        },
    })
}
