//! What a process shows to the others.

ghost use Rattle.std.specs.Prelude.{◌≡◌, ◌&&◌, ◌<◌, ◌≤◌, [], map, length, IsTrue, None};
ghost use Rattle.std.specs.List.{list_all};
ghost use Rattle.hc_rational.specs.Words.{fits, ◌+ℚ◌, ◌*ℚ◌};
ghost use Rattle.hc_term.specs.Process.{is_due};
ghost use Rattle.hc_term.specs.Posts.{bound_fits, moving_fits, offer_fits};
ghost use Rattle.hc_term.specs.Moved.{less_by, moving_after, offer_after};

use hc_frac::Frac;
use hc_list::FixedList;

/// Whether a process is going, has arrived at a statement that waits for time or for others, or has ended.
#[derive(Clone, Copy, Debug, PartialEq, Eq)]
pub enum Phase {
    Going,
    Arrived,
    Ended,
}

/// An evolving variable: its number, its value now, and its rate in a time unit.
#[derive(Clone, Copy, Debug, PartialEq, Eq, Default)]
pub struct Moving {
    pub variable: u32,
    pub at: Frac,
    pub rate: Frac,
}

/// An offered communication. A value that an evolution offers to send moves along its slope, by which it grows in a
/// time unit.
#[derive(Clone, Copy, Debug, PartialEq, Eq)]
pub enum Offer {
    Send { channel: u32, at: Frac, slope: Frac },
    Receive { channel: u32 },
}

impl Default for Offer {
    fn default() -> Self {
        Offer::Receive { channel: 0 }
    }
}

/// What a process shows to the others. It is kept and replaced without memory.
#[derive(Drop)]
pub struct Post {
    pub phase: Phase,
    /// How many time units the process may stay where it is, where time moves it on.
    pub bound: Option<Frac>,
    /// The moment, in time units from the start of the run, at which a bound runs out that is greater than 0.
    pub due: Option<Frac>,
    pub moving: FixedList<Moving, 64>,
    pub offers: FixedList<Offer, 32>,
}

impl Post {
    ghost use Rattle.std.specs.Prelude.{IsTrue};
    ghost use Rattle.hc_term.specs.Offers.{going_post};
    ghost use Rattle.hc_term.specs.Posts.{post_fits};
    ghost use Rattle.hc_term.specs.Moved.{moved_post};

    /// What a going process shows.
    pub fn going() -> Post
        ensures { result ≡ going_post }
    {
        Post {
            phase: Phase::Going,
            bound: None,
            due: None,
            moving: FixedList::new(),
            offers: FixedList::new(),
        }
    }

    /// Shows this phase, and nothing else: no bound, nothing that moves, no offers.
    pub fn show(&mut self, phase: Phase)
        ensures { self.new ≡ record { phase = phase; bound = None; due = None; moving = []; offers = [] } }
    {
        self.phase = phase;
        self.bound = None;
        self.due = None;
        self.moving.clear();
        self.offers.clear();
    }

    /// Makes the other post equal to this one.
    pub fn copy_into(&self, to: &mut Post)
        ensures { to.new ≡ self.now }
    {
        to.phase = self.phase;
        to.bound = self.bound;
        to.due = self.due;
        copy_moving(self.moving.as_slice(), &mut to.moving);
        copy_offers(self.offers.as_slice(), &mut to.offers);
    }

    /// Whether the working values of a delay of so many time units fit: what is left of the bound, and the way and the
    /// new value of each evolving variable and of each value that an evolution offers.
    pub fn fits(&self, by: Frac) -> bool
        ensures { result ≡ post_fits by self.now }
    {
        let moving = self.moving.as_slice();
        let ways = all_moving_fit(moving, by);
        let values = moving.is_empty() || all_offers_fit(self.offers.as_slice(), by);
        let left = is_bound_fitting(self.bound, by);
        ways & values & left
    }

    /// Lets so many time units pass, for which the working values fit: the evolving variables and an evolution's offers
    /// move, and the bound is less by so much. Where it has run out nothing is offered.
    pub fn move_by(&mut self, by: Frac)
        requires fits { IsTrue (post_fits by self.old) }
        ensures { self.new ≡ moved_post by self.old }
    {
        if !self.moving.as_slice().is_empty() {
            move_offers(&mut self.offers, by);
        }
        move_all(&mut self.moving, by);
        self.bound = left_of(self.bound, by);
        if is_run_out(self.bound) {
            self.due = None;
            self.offers.clear();
        }
    }
}

fn copy_moving(from: &[Moving], to: &mut FixedList<Moving, 64>)
    requires { length from.now ≤ 64 }
    ensures { to.new ≡ from.now }
{
    to.clear();
    for moving in from {
        to.push(*moving);
    }
}

fn copy_offers(from: &[Offer], to: &mut FixedList<Offer, 32>)
    requires { length from.now ≤ 32 }
    ensures { to.new ≡ from.now }
{
    to.clear();
    for offer in from {
        to.push(*offer);
    }
}

// ---- whether the working values of a delay fit

/// Whether the way along a slope fits, and the value after it.
fn is_way_fitting(by: Frac, at: Frac, slope: Frac) -> bool
    ensures { result ≡ (fits (slope *ℚ by) && fits (at +ℚ slope *ℚ by)) }
{
    match slope.mul(by) {
        Some(way) => at.add(way).is_some(),
        None => false,
    }
}

/// Whether the ways and new values of these variables fit.
fn all_moving_fit(moving: &[Moving], by: Frac) -> bool
    ensures { result ≡ list_all (moving_fits by) moving.now }
{
    for one in moving {
        if !is_way_fitting(by, one.at, one.rate) {
            return false;
        }
    }
    true
}

/// Whether those of an offered value fit.
fn is_offer_fitting(offer: &Offer, by: Frac) -> bool
    ensures { result ≡ offer_fits by offer.now }
{
    match offer {
        Offer::Send {
            channel: _,
            at,
            slope,
        } => is_way_fitting(by, *at, *slope),
        Offer::Receive { .. } => true,
    }
}

/// Whether those of all offered values fit.
fn all_offers_fit(offers: &[Offer], by: Frac) -> bool
    ensures { result ≡ list_all (offer_fits by) offers.now }
{
    for offer in offers {
        if !is_offer_fitting(offer, by) {
            return false;
        }
    }
    true
}

/// Whether what is left of a bound fits.
fn is_bound_fitting(bound: Option<Frac>, by: Frac) -> bool
    ensures { result ≡ bound_fits by bound }
{
    match bound {
        Some(bound) => bound.sub(by).is_some(),
        None => true,
    }
}

// ---- what a delay does

/// A value after so many time units.
fn moved_value(at: Frac, slope: Frac, by: Frac) -> Frac
    requires { IsTrue (fits (slope *ℚ by) && fits (at +ℚ slope *ℚ by)) }
    ensures { result ≡ at +ℚ slope *ℚ by }
{
    match slope.mul(by) {
        Some(way) => match at.add(way) {
            Some(value) => value,
            None => unreachable!(),
        },
        None => unreachable!(),
    }
}

/// An evolving variable after so many time units.
fn moved(one: &Moving, by: Frac) -> Moving
    requires { IsTrue (moving_fits by one.now) }
    ensures { result ≡ moving_after by one.now }
{
    Moving {
        variable: one.variable,
        at: moved_value(one.at, one.rate, by),
        rate: one.rate,
    }
}

/// An evolution's offer after so many time units.
fn moved_offer(offer: &Offer, by: Frac) -> Offer
    requires { IsTrue (offer_fits by offer.now) }
    ensures { result ≡ offer_after by offer.now }
{
    match offer {
        Offer::Send { channel, at, slope } => Offer::Send {
            channel: *channel,
            at: moved_value(*at, *slope, by),
            slope: *slope,
        },
        Offer::Receive { channel } => Offer::Receive { channel: *channel },
    }
}

fn move_all(moving: &mut FixedList<Moving, 64>, by: Frac)
    requires { IsTrue (list_all (moving_fits by) moving.old) }
    ensures { moving.new ≡ map (moving_after by) moving.old }
{
    for at in 0..moving.as_slice().len() {
        let after = moved(&moving.as_slice()[at], by);
        moving.set(at, after);
    }
}

fn move_offers(offers: &mut FixedList<Offer, 32>, by: Frac)
    requires { IsTrue (list_all (offer_fits by) offers.old) }
    ensures { offers.new ≡ map (offer_after by) offers.old }
{
    for at in 0..offers.as_slice().len() {
        let after = moved_offer(&offers.as_slice()[at], by);
        offers.set(at, after);
    }
}

/// What is left of a bound.
fn left_of(bound: Option<Frac>, by: Frac) -> Option<Frac>
    requires { IsTrue (bound_fits by bound) }
    ensures { result ≡ less_by by bound }
{
    match bound {
        Some(bound) => bound.sub(by),
        None => None,
    }
}

/// Whether a bound is there and has run out.
fn is_run_out(bound: Option<Frac>) -> bool
    ensures { result ≡ is_due bound }
{
    match bound {
        Some(bound) => bound.is_zero(),
        None => false,
    }
}
