//! How the two sides of a comparison move towards each other, and how they lie at a moment.

ghost use Rattle.std.specs.Prelude.{◌≡◌, ◌≤◌, ◌&&◌, length, IsTrue};
ghost use Rattle.std.specs.Result.{OkIff};
ghost use Rattle.hc_rational.specs.Words.{fits, zero_ℚ, ◌-ℚ◌, ◌≤ℚ◌};
ghost use Rattle.hc_term.specs.Motion.{form};
ghost use Rattle.hc_term.specs.EndMoment.{crossing, fits_if, gap_of, opposite, or_else};
ghost use Rattle.hc_term.specs.EndMoment as end;
ghost use Rattle.hc_term.specs.Profile.{reach};
ghost use Rattle.hc_cross.specs.Found.{linear_of, gap_on, minus, KnowsCrossing};

use crate::lines::{Linear, affine};
use hc_frac::Frac;
use hc_term::{Expr, Unfit};
use std::cmp::Ordering;

/// The left side of a comparison minus its right side, and when that becomes 0 later.
#[derive(Clone, Copy, Debug, PartialEq, Eq)]
pub(crate) struct Gap {
    pub line: Linear,
    pub crossing: Option<Frac>,
}

/// The gap between two affine expressions, or `Unfit` exactly where one of its working values doesn't fit a
/// fraction.
pub(crate) fn gap_between(
    left: &Expr,
    right: &Expr,
    store: &[Frac],
    rates: &[Option<Frac>],
) -> Result<Gap, Unfit>
    requires left_in_range { reach left.now ≤ length store.now }
    requires right_in_range { reach right.now ≤ length store.now }
    requires paired { length rates.now ≡ length store.now }
    requires left_affine { IsTrue (form rates.now left.now).affine }
    requires right_affine { IsTrue (form rates.now right.now).affine }
    ensures { OkIff result (IsTrue (gap_of store.now rates.now left.now right.now).fits_all) (gap_on (linear_of (gap_of store.now rates.now left.now right.now))) }
{
    let first = affine(left, store, rates)?;
    let second = affine(right, store, rates)?;
    let line = difference(&first, &second)?;
    with_crossing(line)
}

/// The first line minus the second.
fn difference(left: &Linear, right: &Linear) -> Result<Linear, Unfit>
    ensures { OkIff result (IsTrue (fits (left.now.at -ℚ right.now.at) && fits (left.now.slope -ℚ right.now.slope))) (minus left.now right.now) }
{
    match (left.at.sub(right.at), left.slope.sub(right.slope)) {
        (Some(at), Some(slope)) => Ok(Linear { at, slope }),
        _ => Err(Unfit),
    }
}

/// A line with the moment at which it crosses 0.
fn with_crossing(line: Linear) -> Result<Gap, Unfit>
    ensures { OkIff result (IsTrue (fits_if (crossing line.at line.slope))) (gap_on line) }
{
    if !are_opposite(
        line.at.compare(Frac::zero()),
        line.slope.compare(Frac::zero()),
    ) {
        return Ok(Gap {
            line,
            crossing: None,
        });
    }
    match line.at.neg().div(line.slope) {
        Some(crossing) => Ok(Gap {
            line,
            crossing: Some(crossing),
        }),
        None => Err(Unfit),
    }
}

/// Whether a value and its slope have opposite signs.
fn are_opposite(at: Ordering, slope: Ordering) -> bool
    ensures { result ≡ opposite at slope }
{
    match (at, slope) {
        (Ordering::Less, Ordering::Greater) | (Ordering::Greater, Ordering::Less) => true,
        _ => false,
    }
}

/// Where the gap lies to 0 at a moment from now on. It is told from the signs of its value and slope now and by
/// whether its crossing has come: its value at the moment might not fit a fraction.
pub(crate) fn side_at(gap: &Gap, moment: Frac) -> Ordering
    requires crossing { KnowsCrossing gap.now }
    requires from_now { zero_ℚ ≤ℚ moment }
    ensures { result ≡ end.side_at gap.now.line.at gap.now.line.slope moment }
{
    let now = gap.line.at.compare(Frac::zero());
    let later = gap.line.slope.compare(Frac::zero());
    match gap.crossing {
        Some(crossing) => match moment.compare(crossing) {
            Ordering::Less => now,
            Ordering::Equal => Ordering::Equal,
            Ordering::Greater => later,
        },
        None if moment.is_zero() => now,
        None => just_after(now, later),
    }
}

/// Where a value lies just after a moment, by where it lies at the moment and by the sign of its slope.
pub(crate) fn just_after(at: Ordering, slope: Ordering) -> Ordering
    ensures { result ≡ or_else at slope }
{
    match at {
        Ordering::Equal => slope,
        Ordering::Less | Ordering::Greater => at,
    }
}
