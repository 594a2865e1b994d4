//! The two ends of each channel of a system, looked up once.

ghost use Rattle.std.specs.Prelude.{◌≡◌};
ghost use Rattle.hc_trace.specs.EndsTable.{table_of};

use hc_limits::MOST_CHANNELS;
use hc_list::FixedList;
use hc_term::{System, channel_ends};

/// For each channel of a system the processes at its two ends, so that lines name them without a search in the bodies.
#[derive(Drop)]
pub struct ChannelEnds {
    pub(crate) senders: FixedList<Option<u32>, MOST_CHANNELS>,
    pub(crate) receivers: FixedList<Option<u32>, MOST_CHANNELS>,
}

impl ChannelEnds {
    /// The ends of all channels of the system. It searches the bodies once for each channel, and takes no memory.
    pub fn of(system: &System) -> ChannelEnds
        ensures { result ≡ table_of system.now }
    {
        let mut senders = FixedList::new();
        let mut receivers = FixedList::new();
        for channel in 0..system.channels.as_slice().len() {
            let ends = channel_ends(system, channel as u32);
            senders.push(ends.sender);
            receivers.push(ends.receiver);
        }
        ChannelEnds { senders, receivers }
    }
}
