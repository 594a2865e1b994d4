//! How long a delay lasts, and what it does.

ghost use Rattle.std.specs.Prelude.{◌≡◌, ◌<◌, ◌≤◌, length, map, slice_set, IsTrue, ◌&&◌, SomeIff};
ghost use Rattle.std.specs.List.{list_all};
ghost use Rattle.hc_rational.specs.Words.{◌+ℚ◌, ◌-ℚ◌, lesser, fits, IsFrac};
ghost use Rattle.hc_term.specs.Posts.{least_bound, length_of_delay, post_fits, passing_for, passing_on};
ghost use Rattle.hc_term.specs.Process.{is_due};
ghost use Rattle.hc_term.specs.Moved.{less_by, moved_post};
ghost use Rattle.hc_limits.specs.Limits.{most_processes};
ghost use Rattle.hc_board.specs.Answers.{answer_of};
ghost use Rattle.hc_board.specs.MeetingBoard.{shown};
ghost use Rattle.hc_board.specs.Index.{IsIndexOf};
ghost use Rattle.hc_board.specs.Deadlines.{AreDeadlinesOf};

use crate::able::wants_step;
use crate::deadlines::Deadlines;
use crate::delayed::Delayed;
use crate::index::Index;
use hc_frac::{Frac, earlier};
use hc_term::Post;
use std::cmp::Ordering;

// ---- what waits for time

/// The least bound of all posts.
fn least_bound_of(posts: &[Post], index: &Index) -> Option<Frac>
    requires within { length posts.now ≤ most_processes }
    requires index { IsIndexOf index.now posts.now }
    ensures { result ≡ least_bound posts.now }
{
    let mut least = None;
    let mut at = posts.len();
    while at > 0 {
        at -= 1;
        if index.is_waiting(at as u32) {
            least = earlier(posts[at].bound, least);
        }
    }
    least
}

// ---- how long it lasts

/// The same fraction, which fits.
fn known(number: Frac) -> Frac
    ensures same { result ≡ number }
    ensures fits { IsFrac number }
{
    let _ = number.num();
    number
}

/// A delay of this length, where the moment at which it ends fits.
fn delay_by(clock: Frac, by: Frac) -> Option<Frac>
    ensures { SomeIff result (IsTrue (fits by && fits (clock +ℚ by))) by }
{
    let by = known(by);
    match clock.add(by) {
        Some(_) => Some(by),
        None => None,
    }
}

/// A delay up to the bound, where what is left to the horizon doesn't fit.
fn delay_to_bound(clock: Frac, horizon: Frac, bound: Frac) -> Option<Frac>
    requires { ¬ IsFrac (horizon -ℚ clock) }
    ensures { let by = lesser bound (horizon -ℚ clock) in
        SomeIff result (IsTrue (fits by && fits (clock +ℚ by))) by }
{
    let Some(end) = clock.add(known(bound)) else {
        return None;
    };
    match end.compare(horizon) {
        Ordering::Less => Some(bound),
        Ordering::Equal => Some(bound),
        Ordering::Greater => None,
    }
}

/// How long the delay lasts, where that fits and the moment at which it ends.
fn length_of(clock: Frac, horizon: Frac, least: Option<Frac>) -> Option<Frac>
    ensures { let by = length_of_delay (horizon -ℚ clock) least in
        SomeIff result (IsTrue (fits by && fits (clock +ℚ by))) by }
{
    match (least, horizon.sub(clock)) {
        (None, Some(rest)) => delay_by(clock, rest),
        (None, None) => None,
        (Some(bound), Some(rest)) => delay_by(clock, bound.lesser(rest)),
        (Some(bound), None) => delay_to_bound(clock, horizon, bound),
    }
}

// ---- whether it fits, and what it does

/// Whether the working values of all posts fit.
fn can_all_move(posts: &[Post], index: &Index, by: Frac) -> bool
    requires within { length posts.now ≤ most_processes }
    requires index { IsIndexOf index.now posts.now }
    ensures { result ≡ list_all (post_fits by) posts.now }
{
    for at in 0..posts.len() {
        if index.is_waiting(at as u32) {
            if !posts[at].fits(by) {
                return false;
            }
        }
    }
    true
}

/// How time passes below the horizon.
fn passing_below_horizon(posts: &[Post], index: &Index, clock: Frac, horizon: Frac) -> Delayed
    requires within { length posts.now ≤ most_processes }
    requires index { IsIndexOf index.now posts.now }
    ensures { result ≡ answer_of (passing_for (length_of_delay (horizon -ℚ clock) (least_bound posts.now)) clock posts.now) }
{
    let Some(by) = length_of(clock, horizon, least_bound_of(posts, index)) else {
        return Delayed::Unfit;
    };
    if can_all_move(posts, index, by) {
        Delayed::Took(by)
    } else {
        Delayed::Unfit
    }
}

/// How time passes.
pub(crate) fn passing(posts: &[Post], index: &Index, clock: Frac, horizon: Frac) -> Delayed
    requires within { length posts.now ≤ most_processes }
    requires index { IsIndexOf index.now posts.now }
    ensures { result ≡ answer_of (passing_on clock horizon posts.now) }
{
    if !index.is_some_waiting() {
        return Delayed::NoBound;
    }
    match clock.compare(horizon) {
        Ordering::Less => passing_below_horizon(posts, index, clock, horizon),
        Ordering::Equal => Delayed::AtHorizon,
        Ordering::Greater => Delayed::AtHorizon,
    }
}

/// Whether a bound runs out with the delay.
fn runs_out(bound: Option<Frac>, by: Frac) -> bool
    ensures { result ≡ is_due (less_by by bound) }
{
    match bound {
        Some(bound) => bound.same(by),
        None => false,
    }
}

/// Lets so many time units pass for one post. Where its bound runs out it offers nothing and has no deadline. It waits for
/// time as before, and may want a silent step then.
fn move_post(
    posts: &mut [Post],
    index: &mut Index,
    deadlines: &mut Deadlines,
    process: u32,
    by: Frac,
)
    requires there { process < length posts.old }
    requires within { length posts.old ≤ most_processes }
    requires fits { IsTrue (post_fits by (shown posts.old process)) }
    requires index { IsIndexOf index.old posts.old }
    requires deadlines { AreDeadlinesOf deadlines.old.list.items posts.old }
    ensures posts { posts.new ≡ slice_set posts.old process (moved_post by (shown posts.old process)) }
    ensures index { IsIndexOf index.new posts.new }
    ensures deadlines { AreDeadlinesOf deadlines.new.list.items posts.new }
{
    if !index.is_waiting(process) {
        return;
    }
    let post = &mut posts[process as usize];
    if runs_out(post.bound, by) {
        index.mark_all(post.offers.as_slice(), process, false);
        deadlines.set(process, post.due, None);
        post.move_by(by);
        index.mark_state(process, true, wants_step(post));
    } else {
        post.move_by(by);
        index.mark_state(process, true, wants_step(post));
    }
}

/// Lets so many time units pass for all posts.
pub(crate) fn move_all(posts: &mut [Post], index: &mut Index, deadlines: &mut Deadlines, by: Frac)
    requires within { length posts.old ≤ most_processes }
    requires fits { IsTrue (list_all (post_fits by) posts.old) }
    requires index { IsIndexOf index.old posts.old }
    requires deadlines { AreDeadlinesOf deadlines.old.list.items posts.old }
    ensures posts { posts.new ≡ map (moved_post by) posts.old }
    ensures index { IsIndexOf index.new posts.new }
    ensures deadlines { AreDeadlinesOf deadlines.new.list.items posts.new }
{
    for at in 0..posts.len() {
        move_post(posts, index, deadlines, at as u32, by);
    }
}
