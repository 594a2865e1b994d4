//! What is found on a board without looking through its posts.

ghost use Rattle.std.specs.Prelude.{◌≡◌, ◌<◌, ◌≤◌, List, length, ◌&&◌, ◌==◌, ℕ, Bool, false, not, nat_lt, replicate};
ghost use Rattle.std.specs.List.{list_any};
ghost use Rattle.hc_limits.specs.Limits.{most_processes, most_channels};
ghost use Rattle.hc_term.specs.declared.post.Post.{Post};
ghost use Rattle.hc_term.specs.Posts.{is_timed};
ghost use Rattle.hc_term.specs.Together.{is_offer};
ghost use Rattle.hc_board.specs.Bits.{has};
ghost use Rattle.hc_board.specs.Able.{shows_able, least_from};
ghost use Rattle.hc_board.specs.Index.{IsWhole, IsMarked, IsStated, IsIndexOf, is_marked};

use crate::bits::{first_bits, has_bit, least_bit, set_member, with_bit};
use hc_limits::{MOST_CHANNELS, MOST_PROCESSES};
use hc_term::Offer;

/// For each channel the processes that offer to send and those that offer to receive on it, the channels with both, the
/// processes that have a bound or evolve, and those that want a silent step, all as bits of words. Channels past the limit
/// have no place.
#[derive(Drop)]
pub(crate) struct Index {
    pub(crate) senders: [u64; MOST_CHANNELS],
    pub(crate) receivers: [u64; MOST_CHANNELS],
    pub(crate) ready: [u64; 4],
    pub(crate) timed: u64,
    pub(crate) able: u64,
}

/// No process on any channel.
fn no_processes() -> [u64; MOST_CHANNELS]
    ensures { result ≡ replicate most_channels 0 }
{
    [0; MOST_CHANNELS]
}

/// No channel.
fn no_channels() -> [u64; 4]
    ensures { result ≡ replicate 4 0 }
{
    [0; 4]
}

impl Index {
    /// So many processes are going: nothing is offered, none waits for time, and each wants a silent step.
    pub(crate) fn all_going(processes: u32) -> Index
        requires { processes ≤ most_processes }
        ensures whole { IsWhole result }
        ensures none { (sending : Bool) (c p : ℕ) → c < most_channels → is_marked sending result c p ≡ false }
        ensures untimed { (p : ℕ) → has result.timed p ≡ false }
        ensures able { (p : ℕ) → p < most_processes → has result.able p ≡ nat_lt p processes }
    {
        let able = first_bits(processes);
        Index {
            senders: no_processes(),
            receivers: no_processes(),
            ready: no_channels(),
            timed: 0,
            able,
        }
    }

    /// Marks whether the process offers to send on the channel.
    fn mark_sender(&mut self, channel: u32, process: u32, is_offered: bool)
        requires whole { IsWhole self.old }
        requires process { process < most_processes }
        ensures { IsMarked (λ sending c. sending && (channel == c)) process is_offered self.old self.new }
    {
        let at = channel as usize;
        if at < MOST_CHANNELS {
            let row = with_bit(self.senders[at], process, is_offered);
            let is_ready = (row != 0) & (self.receivers[at] != 0);
            self.senders[at] = row;
            set_member(&mut self.ready, channel, is_ready);
        }
    }

    /// Marks whether the process offers to receive on the channel.
    fn mark_receiver(&mut self, channel: u32, process: u32, is_offered: bool)
        requires whole { IsWhole self.old }
        requires process { process < most_processes }
        ensures { IsMarked (λ sending c. not sending && (channel == c)) process is_offered self.old self.new }
    {
        let at = channel as usize;
        if at < MOST_CHANNELS {
            let row = with_bit(self.receivers[at], process, is_offered);
            let is_ready = (self.senders[at] != 0) & (row != 0);
            self.receivers[at] = row;
            set_member(&mut self.ready, channel, is_ready);
        }
    }

    /// Marks whether the process makes this offer.
    fn mark(&mut self, offer: &Offer, process: u32, is_offered: bool)
        requires whole { IsWhole self.old }
        requires process { process < most_processes }
        ensures { IsMarked (λ sending c. is_offer sending c offer.now) process is_offered self.old self.new }
    {
        match offer {
            Offer::Send { channel, .. } => self.mark_sender(*channel, process, is_offered),
            Offer::Receive { channel } => self.mark_receiver(*channel, process, is_offered),
        }
    }

    /// Marks whether the process makes all these offers.
    pub(crate) fn mark_all(&mut self, offers: &[Offer], process: u32, is_offered: bool)
        requires whole { IsWhole self.old }
        requires process { process < most_processes }
        ensures { IsMarked (λ sending c. list_any (is_offer sending c) offers.now) process is_offered self.old self.new }
    {
        for offer in offers {
            self.mark(offer, process, is_offered);
        }
    }

    /// Marks whether the process has a bound or evolves, and whether it wants a silent step.
    pub(crate) fn mark_state(&mut self, process: u32, is_timed: bool, is_able: bool)
        requires whole { IsWhole self.old }
        requires process { process < most_processes }
        ensures { IsStated process is_timed is_able self.old self.new }
    {
        self.timed = with_bit(self.timed, process, is_timed);
        self.able = with_bit(self.able, process, is_able);
    }

    /// Whether the process has a bound or evolves.
    pub(crate) fn is_waiting(&self, process: u32) -> bool
        requires { process < most_processes }
        ensures { result ≡ has self.now.timed process }
    {
        has_bit(self.timed, process)
    }

    /// Whether some process has a bound or evolves.
    pub(crate) fn is_some_waiting(&self) -> bool
        ensures { (ps : List Post) → IsIndexOf self.now ps → length ps ≤ most_processes → result ≡ is_timed ps }
    {
        self.timed != 0
    }

    /// Whether there is a process of this number, and it wants a silent step.
    pub(crate) fn is_able(&self, process: u32) -> bool
        ensures { (ps : List Post) → IsIndexOf self.now ps → length ps ≤ most_processes → result ≡ shows_able ps process }
    {
        if process < MOST_PROCESSES as u32 {
            has_bit(self.able, process)
        } else {
            false
        }
    }

    /// The least process that wants a silent step.
    pub(crate) fn least_able(&self) -> Option<u32>
        ensures { (ps : List Post) → IsIndexOf self.now ps → length ps ≤ most_processes → result ≡ least_from 0 ps }
    {
        least_bit(self.able)
    }
}
