//! The text of what a run hands over.

ghost use Rattle.std.specs.Prelude.{◌≡◌, ◌++◌, OnOk, IfOk, IsSome};
ghost use Rattle.hc_order.specs.Determinate.{is_determinate};
ghost use Rattle.hc_det.specs.Text as spec;

use crate::lists::{ChannelList, channel_lists};
use crate::single::determinate;
use hc_joint::Joint;
use hc_order::Handed;
use hc_trace::end_line;
use itoa::Buffer;
use std::alloc::{AllocError, Global};

/// The text of what a joint's history hands over, where a stop stands: whether the system is determinate; for each channel
/// its name with the number of its communications, and a line with the clock and the value for each; and the end line with
/// the stop and the clock reached.
pub fn channels_text(alloc: Global, joint: &Joint) -> Result<Vec<u8>, AllocError>
    requires { IsSome joint.now.stop }
    ensures { IfOk result (λ text. text.items ≡ spec.text_at joint.now.stop joint.now) }
{
    let Some(stop) = joint.stop() else {
        unreachable!()
    };
    let system = &joint.task().system;
    let lists = channel_lists(alloc, system, joint.history())?;
    let mut text = Vec::new(alloc);
    put_first(&mut text, determinate(system))?;
    put_lists(&mut text, lists.as_slice())?;
    text.extend_from_slice(end_line(system, stop, joint.clock()).as_str().as_bytes())?;
    Ok(text)
}

/// Whether the system is determinate.
fn put_first(text: &mut Vec<u8>, is_determinate: bool) -> Result<(), AllocError>
    ensures { OnOk result (text.new.items ≡ text.old.items ++ spec.first_line is_determinate) }
{
    if is_determinate {
        text.extend_from_slice(b"determinate yes\n")
    } else {
        text.extend_from_slice(b"determinate no\n")
    }
}

fn put_lists(text: &mut Vec<u8>, lists: &[ChannelList]) -> Result<(), AllocError>
    ensures { OnOk result (text.new.items ≡ text.old.items ++ spec.list_texts lists.now) }
{
    for list in lists {
        put_list(text, list)?;
    }
    Ok(())
}

fn put_list(text: &mut Vec<u8>, list: &ChannelList) -> Result<(), AllocError>
    ensures { OnOk result (text.new.items ≡ text.old.items ++ spec.list_text list.now) }
{
    let meetings = list.meetings.as_slice();
    let mut buffer = Buffer::new();
    text.extend_from_slice(b"channel ")?;
    text.extend_from_slice(list.name.text().as_bytes())?;
    text.extend_from_slice(b" ")?;
    text.extend_from_slice(buffer.format(meetings.len() as u64).as_bytes())?;
    text.extend_from_slice(b"\n")?;
    put_meetings(text, meetings)
}

fn put_meetings(text: &mut Vec<u8>, meetings: &[Handed]) -> Result<(), AllocError>
    ensures { OnOk result (text.new.items ≡ text.old.items ++ spec.handed_lines meetings.now) }
{
    for meeting in meetings {
        put_meeting(text, *meeting)?;
    }
    Ok(())
}

fn put_meeting(text: &mut Vec<u8>, meeting: Handed) -> Result<(), AllocError>
    ensures { OnOk result (text.new.items ≡ text.old.items ++ spec.handed_line meeting) }
{
    text.extend_from_slice(meeting.at.text().as_str().as_bytes())?;
    text.extend_from_slice(b" ")?;
    text.extend_from_slice(meeting.value.text().as_str().as_bytes())?;
    text.extend_from_slice(b"\n")
}
