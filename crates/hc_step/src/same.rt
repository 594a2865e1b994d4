//! Whether two locals are equal.

ghost use Rattle.std.specs.Prelude.{◌≡◌, ◌↔◌, IsTrue};

use crate::local::Local;
use hc_frac::Frac;
use hc_term::{Mark, Moving, Offer, Post};

fn same_bound(one: Option<Frac>, other: Option<Frac>) -> bool
    ensures { IsTrue result ↔ (one ≡ other) }
{
    match (one, other) {
        (Some(one), Some(other)) => one.same(other),
        (None, None) => true,
        _ => false,
    }
}

fn same_moving(one: &Moving, other: &Moving) -> bool
    ensures { IsTrue result ↔ (one.now ≡ other.now) }
{
    one.variable == other.variable && one.at.same(other.at) && one.rate.same(other.rate)
}

fn same_offer(one: &Offer, other: &Offer) -> bool
    ensures { IsTrue result ↔ (one.now ≡ other.now) }
{
    match (one, other) {
        (
            Offer::Send { channel, at, slope },
            Offer::Send {
                channel: there,
                at: sent,
                slope: growth,
            },
        ) => channel == there && at.same(*sent) && slope.same(*growth),
        (Offer::Receive { channel }, Offer::Receive { channel: there }) => channel == there,
        _ => false,
    }
}

fn all_same_moving(one: &[Moving], other: &[Moving]) -> bool
    ensures { IsTrue result ↔ (one.now ≡ other.now) }
{
    if one.len() != other.len() {
        return false;
    }
    for (at, moving) in one.iter().enumerate() {
        if !same_moving(moving, &other[at]) {
            return false;
        }
    }
    true
}

fn all_same_offers(one: &[Offer], other: &[Offer]) -> bool
    ensures { IsTrue result ↔ (one.now ≡ other.now) }
{
    if one.len() != other.len() {
        return false;
    }
    for (at, offer) in one.iter().enumerate() {
        if !same_offer(offer, &other[at]) {
            return false;
        }
    }
    true
}

fn same_post(one: &Post, other: &Post) -> bool
    ensures { IsTrue result ↔ (one.now ≡ other.now) }
{
    one.phase == other.phase
        && same_bound(one.bound, other.bound)
        && same_bound(one.due, other.due)
        && all_same_moving(one.moving.as_slice(), other.moving.as_slice())
        && all_same_offers(one.offers.as_slice(), other.offers.as_slice())
}

fn same_mark(one: &Mark, other: &Mark) -> bool
    ensures { IsTrue result ↔ (one.now ≡ other.now) }
{
    match (one, other) {
        (Mark::Going, Mark::Going) => true,
        (Mark::Arrived { left }, Mark::Arrived { left: rest }) => left.same(*rest),
        _ => false,
    }
}

fn same_store(one: &[Frac; 64], other: &[Frac; 64]) -> bool
    ensures { IsTrue result ↔ (one.now ≡ other.now) }
{
    for at in 0..64 {
        if !one[at].same(other[at]) {
            return false;
        }
    }
    true
}

impl Local {
    /// Whether the other local is equal to this one in all that it keeps.
    pub fn same(&self, other: &Local) -> bool
        ensures { IsTrue result ↔ (self.now ≡ other.now) }
    {
        self.process == other.process
            && self.variables == other.variables
            && self.place == other.place
            && self.choices == other.choices
            && same_store(&self.store, &other.store)
            && same_mark(&self.mark, &other.mark)
            && same_post(&self.post, &other.post)
    }
}
