//! What a delay does to one process.

ghost use Rattle.std.specs.Prelude.{◌≡◌, IsTrue, slice_set};
ghost use Rattle.hc_term.specs.Posts.{bound_fits, is_empty, post_fits};
ghost use Rattle.hc_step.specs.Delaying as spec;

use crate::local::Local;
use hc_frac::Frac;
use hc_term::{Mark, Moving, Post};

/// What is left of a bound that hasn't run out.
fn left_of(bound: Option<Frac>, by: Frac) -> Option<Frac>
    requires { IsTrue (bound_fits by bound) }
    ensures { result ≡ spec.left_of by bound }
{
    let bound = bound?;
    if bound.sign() > 0 {
        bound.sub(by)
    } else {
        None
    }
}

/// The mark after a delay: less is left to wait where nothing moves, since an evolution waits for its end moment.
fn mark_after(post: &Post, mark: Mark, by: Frac) -> Mark
    requires { IsTrue (post_fits by post.now) }
    ensures { result ≡ spec.mark_after by (is_empty post.now.moving) post.now.bound mark }
{
    if !post.moving.as_slice().is_empty() {
        return mark;
    }
    match left_of(post.bound, by) {
        Some(left) => Mark::Arrived { left },
        None => mark,
    }
}

/// Sets a variable, of which there are 64.
fn set_value(store: &mut [Frac; 64], variable: u32, value: Frac)
    ensures { store.new ≡ slice_set store.old variable value }
{
    if variable < 64 {
        store[variable as usize] = value;
    }
}

/// Sets the evolving variables to the values that they show.
fn set_values(store: &mut [Frac; 64], moving: &[Moving])
    ensures { store.new ≡ spec.with_values store.old moving.now }
{
    for one in moving {
        set_value(store, one.variable, one.at);
    }
}

impl Local {
    ghost use Rattle.std.specs.Prelude.{ℕ, ◌<◌, List, IfSome};
    ghost use Rattle.hc_rational.specs.Words.{Rational, zero_ℚ, ◌+ℚ◌, ◌≤ℚ◌};
    ghost use Rattle.hc_term.specs.declared.model.ProcessState.{ProcessState};
    ghost use Rattle.hc_term.specs.Communication.{moved};
    ghost use Rattle.hc_term.specs.Moved.{moved_post};
    ghost use Rattle.hc_code.specs.declared.code.Instr.{Instr};
    ghost use Rattle.hc_code.specs.Stands.{Table, AllAgree};
    ghost use Rattle.hc_step.specs.Usable.{is_usable_code};
    ghost use Rattle.hc_step.specs.Represents.{Represents, Keeps};

    /// Whether this process's working values of a delay fit.
    pub fn can_move(&self, by: Frac) -> bool
        ensures { result ≡ post_fits by self.now.post }
    {
        self.post.fits(by)
    }

    /// Lets so many time units pass, at most to the bound: evolving variables move by their rates, which stay.
    pub fn move_by(&mut self, by: Frac)
        requires fits { IsTrue (post_fits by self.old.post) }
        requires from_zero { zero_ℚ ≤ℚ by }
        requires to_bound { IfSome self.old.post.bound (λ bound. by ≤ℚ bound) }
        ensures keeps { (len : ℕ) → self.old.place < len → Keeps len self.old self.new }
        ensures shows { self.new.post ≡ moved_post by self.old.post }
        ensures moved { (t : Table) (code : List Instr) (clock : Rational) (q : ProcessState) →
            IsTrue (is_usable_code self.old.variables code) → AllAgree t code t → Represents t clock self.old q →
            Represents t (clock +ℚ by) self.new (moved by q) }
    {
        self.mark = mark_after(&self.post, self.mark, by);
        self.post.move_by(by);
        set_values(&mut self.store, self.post.moving.as_slice());
    }
}
