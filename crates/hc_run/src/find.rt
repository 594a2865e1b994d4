//! Looking for a process with a silent step, round and round.
ghost use Rattle.std.specs.Prelude.{◌≡◌, ◌<◌, ℕ, true, false, length, IfSome, IfNone, IsTrue, slice_index_or, vec_len};
ghost use Rattle.hc_term.specs.declared.model.Configuration.{Configuration};
ghost use Rattle.hc_joint.specs.Able.{is_able};
ghost use Rattle.hc_joint.specs.Keeps.{IsReached};
ghost use Rattle.hc_run.specs.Lanes.{NoneIsAble};
ghost use Rattle.hc_run.specs.declared.share.Lane.{Lane};
ghost use Rattle.hc_run.specs.declared.share.Share.{Share};

use crate::share::{Lane, Share};
use hc_joint::Joint;

/// The place of a lane whose process has a silent step, from `from` on, or else of one before it.
pub fn find_lane(joint: &Joint, lanes: &[Lane], from: usize) -> Option<usize>
    ensures found { IfSome result (λ at. at < length lanes.now) }
    ensures able { IfSome result (λ at. (c : Configuration) → IsReached joint.now c →
        (d : Lane) → is_able (slice_index_or lanes.now at d).process c.processes ≡ true) }
    ensures none { IfNone result ((c : Configuration) → IsReached joint.now c → NoneIsAble c lanes.now) }
{
    let start = from.min(lanes.len());
    for at in start..lanes.len() {
        if joint.able(lanes[at].process) {
            return Some(at);
        }
    }
    for before in 0..start {
        if joint.able(lanes[before].process) {
            return Some(before);
        }
    }
    None
}

/// The place of such a lane of the share.
fn find_in(joint: &Joint, share: &Share) -> Option<usize>
    ensures found { IfSome result (λ at. at < vec_len share.now.lanes) }
    ensures none { IfNone result ((c : Configuration) → IsReached joint.now c → NoneIsAble c share.now.lanes.items) }
{
    find_lane(joint, share.lanes.as_slice(), share.next)
}

/// The share and the place of such a lane, from the share `from` on, or else before it.
pub fn find_share(joint: &Joint, shares: &[Share], from: usize) -> Option<(usize, usize)>
    ensures found { IfSome result (λ at. (at.0 < length shares.now)
        × ((d : Share) → at.1 < vec_len (slice_index_or shares.now at.0 d).lanes)) }
    ensures none { IfNone result ((c : Configuration) → IsReached joint.now c → (k : ℕ) → k < length shares.now
        → (d : Share) → NoneIsAble c (slice_index_or shares.now k d).lanes.items) }
{
    let start = from.min(shares.len());
    for at in start..shares.len() {
        if let Some(lane) = find_in(joint, &shares[at]) {
            return Some((at, lane));
        }
    }
    for before in 0..start {
        if let Some(lane) = find_in(joint, &shares[before]) {
            return Some((before, lane));
        }
    }
    None
}

/// Leases what is kept of the first process with a silent step, going round. Where it finds none, no process of the shares
/// has one. A lane that can't be leased is found too: its turn then works its steps out under the lock.
pub fn lease_first(joint: &Joint, shares: &mut [Share], from: usize) -> Option<(usize, usize)>
    ensures found { IfSome result (λ at. (at.0 < length shares.new)
        × ((d : Share) → at.1 < vec_len (slice_index_or shares.new at.0 d).lanes)) }
    ensures none { IfNone result ((c : Configuration) → IsReached joint.now c → (k : ℕ) → k < length shares.new
        → (d : Share) → NoneIsAble c (slice_index_or shares.new k d).lanes.items) }
{
    let (at, lane) = find_share(joint, shares, from)?;
    lease_lane(joint, &mut shares[at], lane);
    Some((at, lane))
}

/// Leases the lane at this place of the share, which looks behind it the next time.
fn lease_lane(joint: &Joint, share: &mut Share, at: usize)
    requires { at < vec_len share.old.lanes }
    ensures { vec_len share.new.lanes ≡ vec_len share.old.lanes }
{
    share.next = at.saturating_add(1);
    let lane = &mut share.lanes[at];
    joint.lease(lane.process, &mut lane.advance);
}
