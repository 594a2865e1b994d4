//! Arrival where a process waits for time or for others: each value is worked out once, and is shown from then on.

ghost use Rattle.std.specs.Prelude.{◌≡◌, ◌≤◌, ◌<◌, ℕ, ◌&&◌, nat_lt, [], length, None, Some, IsTrue, OnOk};
ghost use Rattle.std.specs.List.{list_all};
ghost use Rattle.hc_rational.specs.Words.{greater, zero_ℚ};
ghost use Rattle.hc_term.specs.Evaluated.{if_fitting};
ghost use Rattle.hc_term.specs.EndMoment.{is_domain};
ghost use Rattle.hc_term.specs.Offers as shown;
ghost use Rattle.hc_term.specs.Process as process;
ghost use Rattle.hc_term.specs.Profile.{reach_in, is_expr, is_io, are_guards, is_evolution, sends_affine};
ghost use Rattle.hc_term.specs.Silent.{sent_fits, guard_fits, rates_fit, due_fits};
ghost use Rattle.hc_term.specs.Value.{is_fitting, val};
ghost use Rattle.hc_code.specs.Kept.{ios_of};
ghost use Rattle.hc_step.specs.Usable.{IsRuled};
ghost use Rattle.hc_step.specs.Arriving.{may_arrive, may_evolve, left_at, post_of, arrived_post, evolving_post, offers_in};
ghost use Rattle.hc_step.specs.Arriving as spec;

use hc_code::{Instr, Way};
use hc_cross::{affine, end_moment};
use hc_frac::Frac;
use hc_list::FixedList;
use hc_term::{Cond, Expr, Io, Moving, Offer, Phase, Post, Rate, Unfit, value};

/// Whether a process that comes to the instruction stays there, until time or a communication moves it on.
pub(crate) fn is_stay(instr: &Instr) -> bool
    ensures { result ≡ spec.is_stay instr.now }
{
    match instr {
        Instr::Wait { .. } | Instr::Meet { .. } | Instr::Evolve { .. } => true,
        _ => false,
    }
}

/// The moment at which a bound runs out that is greater than 0.
fn due_at(clock: Frac, bound: Option<Frac>) -> Result<Option<Frac>, Unfit>
    ensures { result ≡ if_fitting (due_fits clock bound) (shown.due_of clock bound) }
{
    let Some(bound) = bound else {
        return Ok(None);
    };
    if bound.sign() <= 0 {
        return Ok(None);
    }
    match clock.add(bound) {
        Some(due) => Ok(Some(due)),
        None => Err(Unfit),
    }
}

// ---- waits

/// Shows an arrival at a wait, and answers what is left to wait.
fn show_wait(post: &mut Post, time: &Expr, store: &[Frac], clock: Frac) -> Result<Frac, Unfit>
    requires ruled { IsTrue (is_expr (length store.now) time.now) }
    ensures shows { OnOk result (post.new ≡ arrived_post clock (Some (greater zero_ℚ (val store.now time.now))) [] []) }
    ensures fits { result ≡ if_fitting (is_fitting store.now time.now && due_fits clock (Some (greater zero_ℚ (val store.now time.now)))) (val store.now time.now) }
{
    let left = value(time, store)?;
    let bound = Frac::zero().greater(left);
    post.show(Phase::Arrived);
    post.bound = Some(bound);
    post.due = due_at(clock, Some(bound))?;
    Ok(left)
}

// ---- communications

/// The offer of a plain communication: the value that it sends stays as it is.
fn plain_offer(io: &Io, store: &[Frac]) -> Result<Offer, Unfit>
    requires ruled { (channels : ℕ) × IsTrue (is_io channels (length store.now) io.now) }
    ensures { result ≡ if_fitting (sent_fits store.now io.now) (shown.offer_of store.now [] io.now) }
{
    match io {
        Io::Send {
            channel,
            value: expr,
        } => {
            let at = value(expr, store)?;
            Ok(Offer::Send {
                channel: *channel,
                at,
                slope: Frac::zero(),
            })
        }
        Io::Receive { channel, .. } => Ok(Offer::Receive { channel: *channel }),
    }
}

/// Offers the communications of these ways.
fn offer_plain(offers: &mut FixedList<Offer, 32>, ways: &[Way], store: &[Frac]) -> Result<(), Unfit>
    requires few { length ways.now ≤ 32 }
    requires ruled { (channels : ℕ) × IsTrue (list_all (λ w. is_io channels (length store.now) w.io) ways.now) }
    ensures offers { OnOk result (offers.new ≡ offers_in store.now [] ways.now) }
    ensures fits { result ≡ if_fitting (list_all (λ w. sent_fits store.now w.io) ways.now) tt }
{
    offers.clear();
    for way in ways {
        offers.push(plain_offer(&way.io, store)?);
    }
    Ok(())
}

/// Shows an arrival at communications.
fn show_ways(post: &mut Post, ways: &[Way], store: &[Frac]) -> Result<(), Unfit>
    requires ruled { (channels : ℕ) × IsTrue (are_guards channels (length store.now) (ios_of ways.now)) }
    ensures shows { OnOk result (post.new ≡ record { phase = Phase.Arrived; bound = None; due = None; moving = []; offers = offers_in store.now [] ways.now }) }
    ensures fits { result ≡ if_fitting (list_all (λ w. sent_fits store.now w.io) ways.now) tt }
{
    post.show(Phase::Arrived);
    offer_plain(&mut post.offers, ways, store)
}

// ---- evolutions

/// An evolving variable at its start: its value, and its rate, which stays.
fn moving_at(rate: &Rate, store: &[Frac]) -> Result<Moving, Unfit>
    requires in_range { rate.now.variable < length store.now }
    requires ruled { IsTrue (is_expr (length store.now) rate.now.value) }
    ensures { result ≡ if_fitting (is_fitting store.now rate.now.value) (spec.moving_at store.now rate.now) }
{
    let speed = value(&rate.value, store)?;
    Ok(Moving {
        variable: rate.variable,
        at: store[rate.variable as usize],
        rate: speed,
    })
}

/// Shows the evolving variables of an evolution.
fn show_moving(
    moving: &mut FixedList<Moving, 64>,
    rates: &[Rate],
    store: &[Frac],
) -> Result<(), Unfit>
    requires few { length rates.now ≤ 64 }
    requires in_range { IsTrue (list_all (λ r. nat_lt r.variable (length store.now)) rates.now) }
    requires ruled { IsTrue (list_all (λ r. is_expr (length store.now) r.value) rates.now) }
    ensures moving { OnOk result (moving.new ≡ shown.moving_of store.now rates.now) }
    ensures fits { result ≡ if_fitting (rates_fit store.now rates.now) tt }
{
    moving.clear();
    for rate in rates {
        moving.push(moving_at(rate, store)?);
    }
    Ok(())
}

/// For each of 64 variables its rate, or `None` where it keeps its value.
fn rates_shown(moving: &[Moving]) -> [Option<Frac>; 64]
    requires in_range { IsTrue (list_all (λ m. nat_lt m.variable 64) moving.now) }
    ensures rates { result ≡ spec.rates_shown moving.now }
{
    let mut rates = [None; 64];
    for one in moving {
        rates[one.variable as usize] = Some(one.rate);
    }
    rates
}

/// The offer of a guard of an evolution: the value that it sends moves along its line.
fn moving_offer(io: &Io, store: &[Frac], rates: &[Option<Frac>]) -> Result<Offer, Unfit>
    requires ruled { (channels : ℕ) × IsTrue (is_io channels (length store.now) io.now) }
    requires paired { length rates.now ≡ length store.now }
    requires affine { IsTrue (sends_affine rates.now io.now) }
    ensures { result ≡ if_fitting (guard_fits store.now rates.now io.now) (shown.offer_of store.now rates.now io.now) }
{
    match io {
        Io::Send {
            channel,
            value: expr,
        } => {
            let line = affine(expr, store, rates)?;
            Ok(Offer::Send {
                channel: *channel,
                at: line.at,
                slope: line.slope,
            })
        }
        Io::Receive { channel, .. } => Ok(Offer::Receive { channel: *channel }),
    }
}

/// Offers the guards of an evolution.
fn offer_moving(
    offers: &mut FixedList<Offer, 32>,
    ways: &[Way],
    store: &[Frac],
    rates: &[Option<Frac>],
) -> Result<(), Unfit>
    requires few { length ways.now ≤ 32 }
    requires ruled { (channels : ℕ) × IsTrue (list_all (λ w. is_io channels (length store.now) w.io) ways.now) }
    requires paired { length rates.now ≡ length store.now }
    requires affine { IsTrue (list_all (λ w. sends_affine rates.now w.io) ways.now) }
    ensures offers { OnOk result (offers.new ≡ offers_in store.now rates.now ways.now) }
    ensures fits { result ≡ if_fitting (list_all (λ w. guard_fits store.now rates.now w.io) ways.now) tt }
{
    offers.clear();
    for way in ways {
        offers.push(moving_offer(&way.io, store, rates)?);
    }
    Ok(())
}

/// Whether a bound is there and has run out.
fn is_due(bound: Option<Frac>) -> bool
    ensures { result ≡ process.is_due bound }
{
    match bound {
        Some(bound) => bound.is_zero(),
        None => false,
    }
}

/// Shows the bound of an evolution, which offers nothing at its end moment, and answers what is left to wait.
fn show_end(post: &mut Post, end: Option<Frac>, clock: Frac) -> Result<Frac, Unfit>
    ensures shows { OnOk result (post.new ≡ record post.old { bound = end; due = shown.due_of clock end; offers = spec.offers_before end post.old.offers }) }
    ensures fits { result ≡ if_fitting (due_fits clock end) zero_ℚ }
{
    post.bound = end;
    if is_due(post.bound) {
        post.offers.clear();
    }
    post.due = due_at(clock, post.bound)?;
    Ok(Frac::zero())
}

/// Shows the offers and the bound of an evolution whose variables move with these rates. The values of its guards count
/// also where its end moment is now.
fn show_course(
    post: &mut Post,
    domain: &Cond,
    ways: &[Way],
    store: &[Frac],
    rates: &[Option<Frac>],
    clock: Frac,
) -> Result<Frac, Unfit>
    requires in_range { reach_in domain.now ≤ length store.now }
    requires paired { length rates.now ≡ length store.now }
    requires domain { IsTrue (is_domain rates.now domain.now) }
    requires few { length ways.now ≤ 32 }
    requires ruled { (channels : ℕ) × IsTrue (list_all (λ w. is_io channels (length store.now) w.io) ways.now) }
    requires affine { IsTrue (list_all (λ w. sends_affine rates.now w.io) ways.now) }
    ensures shows { OnOk result (post.new ≡ spec.with_course clock store.now rates.now domain.now ways.now post.old) }
    ensures fits { result ≡ if_fitting (spec.course_fits clock store.now rates.now domain.now ways.now) zero_ℚ }
{
    let end = end_moment(domain, store, rates)?;
    offer_moving(&mut post.offers, ways, store, rates)?;
    show_end(post, end, clock)
}

/// Shows an arrival at an evolution, and answers what is left to wait.
fn show_evolution(
    post: &mut Post,
    rates: &[Rate],
    domain: &Cond,
    ways: &[Way],
    store: &[Frac],
    clock: Frac,
) -> Result<Frac, Unfit>
    requires few { length store.now ≤ 64 }
    requires evolution { IsTrue (is_evolution (length store.now) rates.now domain.now (ios_of ways.now)) }
    requires guards { (channels : ℕ) × IsTrue (are_guards channels (length store.now) (ios_of ways.now)) }
    ensures shows { OnOk result (post.new ≡ evolving_post clock store.now rates.now domain.now ways.now) }
    ensures fits { result ≡ if_fitting (may_evolve clock store.now rates.now domain.now ways.now) zero_ℚ }
{
    post.show(Phase::Arrived);
    show_moving(&mut post.moving, rates, store)?;
    let by_variable = rates_shown(post.moving.as_slice());
    let speeds = &by_variable[..store.len()];
    show_course(post, domain, ways, store, speeds, clock)
}

// ---- arrival

/// Shows an arrival at an instruction, and answers what is left to wait. At no other instruction does a process arrive.
/// Where a value doesn't fit, the post may show anything.
pub(crate) fn show_arrival(
    post: &mut Post,
    instr: &Instr,
    store: &[Frac],
    clock: Frac,
) -> Result<Frac, Unfit>
    requires few { length store.now ≤ 64 }
    requires ruled { IsRuled (length store.now) instr.now }
    ensures shows { OnOk result (post.new ≡ post_of clock store.now instr.now) }
    ensures fits { result ≡ if_fitting (may_arrive clock store.now instr.now) (left_at store.now instr.now) }
{
    match instr {
        Instr::Wait { time, next: _ } => show_wait(post, time, store, clock),
        Instr::Meet { branches } => {
            show_ways(post, branches.as_slice(), store)?;
            Ok(Frac::zero())
        }
        Instr::Evolve {
            rates,
            domain,
            branches,
            next: _,
        } => {
            let (rates, ways) = (rates.as_slice(), branches.as_slice());
            show_evolution(post, rates, domain, ways, store, clock)
        }
        _ => Err(Unfit),
    }
}
