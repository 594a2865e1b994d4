//! Which variables evolve.

ghost use Rattle.std.specs.Prelude.{◌≡◌, IfOk, Some, slice_set};
ghost use Rattle.hc_rational.specs.Words.{zero_ℚ};
ghost use Rattle.hc_term.specs.Profile as profile;

use hc_frac::Frac;
use hc_term::Rate;
use std::alloc::{AllocError, Global};

/// Variable `x` evolves.
fn mark(pattern: &mut [Option<Frac>], x: u32)
    ensures { pattern.new ≡ slice_set pattern.old x (Some zero_ℚ) }
{
    let x = x as usize;
    if x < pattern.len() {
        pattern[x] = Some(Frac::zero());
    }
}

/// The variables of these rates evolve.
fn mark_all(pattern: &mut [Option<Frac>], rates: &[Rate])
    ensures { pattern.new ≡ profile.pattern_from pattern.old rates.now }
{
    for rate in rates {
        mark(pattern, rate.variable);
    }
}

/// Of so many variables those that have a rate, each by a 0.
pub(crate) fn pattern_of(
    alloc: Global,
    variables: u32,
    rates: &[Rate],
) -> Result<Vec<Option<Frac>>, AllocError>
    ensures { IfOk result (λ pattern. pattern.items ≡ profile.pattern_of variables rates.now) }
{
    let mut pattern = vec![in alloc; None; variables as usize]?;
    mark_all(pattern.as_mut_slice(), rates);
    Ok(pattern)
}
