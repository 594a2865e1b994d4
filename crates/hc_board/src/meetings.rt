//! Which processes meet.

ghost use Rattle.std.specs.Prelude.{◌≡◌, ◌<◌, ◌≤◌, length};
ghost use Rattle.hc_limits.specs.Limits.{most_processes, most_channels};
ghost use Rattle.hc_term.specs.Posts.{sent_on, meeting_on, first_meeting};
ghost use Rattle.hc_board.specs.Index.{IsIndexOf};

use crate::bits::{least_bit, least_member};
use crate::index::Index;
use hc_frac::Frac;
use hc_term::{Meeting, Offer, Post};

/// What these offers send on the channel.
fn sent_value(offers: &[Offer], channel: u32) -> Option<Frac>
    ensures { result ≡ sent_on channel offers.now }
{
    for offer in offers {
        if let Offer::Send {
            channel: on,
            at,
            ..
        } = offer
        {
            if *on == channel {
                return Some(*at);
            }
        }
    }
    None
}

/// The meeting on the channel, where both its ends are offered.
fn meeting_at(posts: &[Post], index: &Index, channel: u32) -> Option<Meeting>
    requires processes { length posts.now ≤ most_processes }
    requires channel { channel < most_channels }
    requires index { IsIndexOf index.now posts.now }
    ensures { result ≡ meeting_on channel posts.now }
{
    let Some(sender) = least_bit(index.senders[channel as usize]) else {
        return None;
    };
    let Some(receiver) = least_bit(index.receivers[channel as usize]) else {
        return None;
    };
    let Some(value) = sent_value(posts[sender as usize].offers.as_slice(), channel) else {
        unreachable!()
    };
    Some(Meeting {
        channel,
        sender,
        receiver,
        value,
    })
}

/// The meeting on the ready channel of least number, of so many channels.
pub(crate) fn least_meeting(posts: &[Post], index: &Index, channels: u32) -> Option<Meeting>
    requires processes { length posts.now ≤ most_processes }
    requires channels { channels ≤ most_channels }
    requires index { IsIndexOf index.now posts.now }
    ensures { result ≡ first_meeting channels posts.now }
{
    let Some(channel) = least_member(&index.ready) else {
        return None;
    };
    if channel >= channels {
        return None;
    }
    meeting_at(posts, index, channel)
}
