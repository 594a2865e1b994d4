//! What is handed over on each channel.

ghost use Rattle.std.specs.Prelude.{◌≡◌, IfOk};
ghost use Rattle.hc_order.specs.Determinate.{handed};
ghost use Rattle.hc_det.specs.Lists.{lists_of};

use hc_frac::Name;
use hc_list::List;
use hc_order::Handed;
use hc_term::{Item, Step, System};
use std::alloc::{AllocError, Global};

/// A channel, and what is handed over on it, in order.
#[derive(Drop)]
pub struct ChannelList {
    pub name: Name,
    pub meetings: List<Handed>,
}

/// What the history hands over on each channel of the system, by the numbers of the channels.
pub fn channel_lists(
    alloc: Global,
    system: &System,
    history: &[Item],
) -> Result<List<ChannelList>, AllocError>
    ensures { IfOk result (λ lists. lists ≡ lists_of system.now history.now) }
{
    let mut lists = List::new(alloc);
    for (number, name) in system.channels.as_slice().iter().enumerate() {
        let meetings = handed_on(alloc, number, history)?;
        lists.push(ChannelList {
            name: name.copy(),
            meetings,
        })?;
    }
    Ok(lists)
}

/// What the history hands over on the channel with this number.
fn handed_on(alloc: Global, channel: usize, history: &[Item]) -> Result<List<Handed>, AllocError>
    ensures { IfOk result (λ found. found ≡ handed channel history.now) }
{
    let mut found = List::new(alloc);
    for item in history {
        match item.step {
            Step::Comm {
                channel: own,
                value,
            } if own as usize == channel => found.push(Handed { at: item.at, value })?,
            _ => {}
        }
    }
    Ok(found)
}
