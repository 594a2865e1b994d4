//! Lines of communications: both ends of the channel take their steps, and then they meet.

ghost use Rattle.std.specs.Prelude.{◌≡◌};
ghost use Rattle.hc_term.specs.Posts.{sent_on, receives_on};
ghost use Rattle.hc_verify.specs.Communicating.{IsMeetingOn};

use crate::following::is_same;
use crate::walk::Walk;
use hc_frac::Frac;
use hc_term::{Meeting, Offer, System, Task, channel_ends};

/// The meeting by which the value is handed over on the channel, between the processes at its ends, where both are used.
fn meeting_on(system: &System, channel: u32, value: Frac) -> Option<Meeting>
    ensures { IsMeetingOn system.now channel value result }
{
    if channel as usize >= system.channels.len() {
        return None;
    }
    let ends = channel_ends(system, channel);
    let sender = ends.sender?;
    let receiver = ends.receiver?;
    Some(Meeting {
        channel,
        sender,
        receiver,
        value,
    })
}

/// What these offers send on the channel.
fn sent_value(offers: &[Offer], channel: u32) -> Option<Frac>
    ensures { result ≡ sent_on channel offers.now }
{
    for offer in offers {
        if let Offer::Send {
            channel: on,
            at,
            ..
        } = offer
        {
            if *on == channel {
                return Some(*at);
            }
        }
    }
    None
}

/// Whether one of these offers receives on the channel.
fn is_receiving(offers: &[Offer], channel: u32) -> bool
    ensures { result ≡ receives_on channel offers.now }
{
    for offer in offers {
        if let Offer::Receive { channel: on } = offer {
            if *on == channel {
                return true;
            }
        }
    }
    false
}

impl Walk {
    ghost use Rattle.std.specs.Prelude.{◌≢◌, ◌<◌, ◌↔◌, Some, IsTrue, length, slice_get};
    ghost use Rattle.hc_term.specs.declared.run.Step.TheVariants.{Comm};
    ghost use Rattle.hc_term.specs.declared.system.System.{System as AnySystem};
    ghost use Rattle.hc_term.specs.declared.model.ProcessState.{ProcessState};
    ghost use Rattle.hc_term.specs.declared.model.Configuration.{Configuration};
    ghost use Rattle.hc_term.specs.Step.{Meets};
    ghost use Rattle.hc_verify.specs.Stands.{IsAt};
    ghost use Rattle.hc_verify.specs.Communicating.{BothHalt, IsOffered};
    ghost use Rattle.hc_verify.specs.Following.{IsReached, Followed};

    /// Lets the two that are to meet take their invisible steps. The answer is how many that were; `None` where one of them
    /// logs, or where as many steps as there is room for are taken and more may follow.
    fn halt_both(&mut self, task: &Task, meeting: &Meeting, room: u32) -> Option<u32>
        requires sender { meeting.now.sender < length self.old.members.items }
        requires receiver { meeting.now.receiver < length self.old.members.items }
        requires at { (c : Configuration) × IsAt task.now.system self.old c }
        requires differ { meeting.now.sender ≢ meeting.now.receiver }
        ensures { (c : Configuration) (q r : ProcessState) → IsAt task.now.system self.old c →
            slice_get c.processes meeting.now.sender ≡ Some q → slice_get c.processes meeting.now.receiver ≡ Some r →
            BothHalt task.now meeting.now room c q r self.new result }
    {
        let sending = self.halt(task, meeting.sender, room)?;
        let receiving = self.halt(task, meeting.receiver, room - sending)?;
        Some(sending + receiving)
    }

    /// Whether one offers to send the value on the channel and the other to receive there.
    fn is_offered(&self, meeting: &Meeting) -> bool
        requires sender { meeting.now.sender < length self.now.board.posts }
        requires receiver { meeting.now.receiver < length self.now.board.posts }
        ensures { (sys : AnySystem) (c : Configuration) → IsAt sys self.now c → IsTrue result ↔ Meets meeting.now c }
    {
        let posts = self.board.posts();
        let sent = sent_value(
            posts[meeting.sender as usize].offers.as_slice(),
            meeting.channel,
        );
        let Some(value) = sent else {
            return false;
        };
        is_same(value, meeting.value)
            && is_receiving(
                posts[meeting.receiver as usize].offers.as_slice(),
                meeting.channel,
            )
    }

    /// Lets the two meet, if both offer it.
    fn meet(&mut self, meeting: &Meeting) -> bool
        requires sender { meeting.now.sender < length self.old.members.items }
        requires receiver { meeting.now.receiver < length self.old.members.items }
        requires shown { length self.old.board.posts ≡ length self.old.members.items }
        requires differ { meeting.now.sender ≢ meeting.now.receiver }
        ensures { (sys : AnySystem) (c : Configuration) → IsAt sys self.old c → IsOffered sys meeting.now c self.new result }
    {
        if !self.is_offered(meeting) {
            return false;
        }
        self.tell(meeting);
        true
    }

    /// Follows the line by which a value is handed over on a channel at this clock, where so many steps are left: the
    /// processes at both ends take their steps, and then they meet. The answer is how many steps that were.
    pub(crate) fn comm(
        &mut self,
        task: &Task,
        at: Frac,
        channel: u32,
        value: Frac,
        room: u32,
    ) -> Option<u32>
        requires reached { (c : Configuration) × IsReached task.now self.old room c }
        ensures { (c : Configuration) → IsReached task.now self.old room c →
            Followed task.now (record { at = at; step = Comm channel value }) room c self.new result }
    {
        if !is_same(at, self.clock) {
            return None;
        }
        let meeting = meeting_on(&task.system, channel, value)?;
        let moved = self.halt_both(task, &meeting, room)?;
        if moved >= room {
            return None;
        }
        if !self.meet(&meeting) {
            return None;
        }
        Some(moved + 1)
    }
}
