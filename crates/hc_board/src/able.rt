//! Which posts show that their process wants a silent step.

ghost use Rattle.std.specs.Prelude.{◌≡◌};
ghost use Rattle.hc_term.specs.Process.{is_due};
ghost use Rattle.hc_board.specs.Able.{shows_step};

use hc_frac::Frac;
use hc_term::{Phase, Post};

/// Whether a bound has run out.
fn is_run_out(bound: Option<Frac>) -> bool
    ensures { result ≡ is_due bound }
{
    match bound {
        Some(bound) => bound.is_zero(),
        None => false,
    }
}

/// Whether a process wants a silent step.
pub(crate) fn wants_step(post: &Post) -> bool
    ensures { result ≡ shows_step post.now }
{
    match post.phase {
        Phase::Going => true,
        Phase::Arrived => is_run_out(post.bound),
        Phase::Ended => false,
    }
}
