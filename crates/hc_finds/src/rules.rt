//! The rules on the parts of a process.

ghost use Rattle.std.specs.Prelude.{◌≡◌, map};
ghost use Rattle.hc_finds.specs.Looks as look;
ghost use Rattle.hc_finds.specs.Rules as spec;
ghost use Rattle.hc_finds.specs.Seen.{part_of, seen, exprs_of};
ghost use Rattle.std.specs.List.{list_any};
ghost use Rattle.hc_finds.specs.Seen.{io_in};
ghost use Rattle.hc_modules.specs.Found.{first_of};

use crate::exprs::{
    affine_in, is_evolving, literal_divisors, literal_divisors_in, moves_of, no_evolving_name,
    no_zero_divisor, no_zero_divisor_in, refused_if,
};
use crate::parts::Part;
use crate::stop::CheckStop;
use hc_ast::{BranchTree, CondTree, ExprTree, IoTree};
use hc_frac::Place;

/// A rule on the parts of a process.
#[derive(Clone, Copy, Debug, PartialEq, Eq)]
pub enum Rule {
    DivisorNotLiteral,
    ZeroDivisor,
    /// Each variable has one rate at most in an evolution.
    RepeatedRate,
    /// A rate mentions no variable that evolves in the same evolution.
    RateEvolves,
    /// In a domain and in what a guard of an evolution sends, no product has evolving variables on both sides.
    NotAffine,
    /// No choice has two branches on one channel in one direction.
    RepeatedGuard,
}

/// The expressions of a part.
pub(crate) enum Exprs<'a> {
    None,
    One(&'a ExprTree),
    /// The sides of a condition's comparisons.
    Sides(&'a CondTree),
}

/// The value that a communication sends.
fn sent<'a>(io: &'a IoTree) -> Exprs<'a>
    ensures { exprs_of result ≡ look.sent_in io.now }
{
    match io {
        IoTree::Send { channel: _, value } => Exprs::One(value),
        IoTree::Receive { .. } => Exprs::None,
    }
}

pub(crate) fn contents<'a>(part: Part<'a>) -> Exprs<'a>
    ensures { exprs_of result ≡ look.exprs_in (part_of part.entry) }
{
    match part {
        Part::Assign { value, .. } | Part::Compute { value, .. } => Exprs::One(value),
        Part::Test { test, .. } => Exprs::Sides(test),
        Part::Communicate { io, .. } | Part::Guard { io, .. } => sent(io),
        Part::Rate { rate, .. } => Exprs::One(&rate.value),
        Part::Domain { domain, .. } => Exprs::Sides(domain),
    }
}

/// An error is the first divisor that is no number.
fn divisor_not_literal(part: Part<'_>) -> Result<(), Place>
    ensures { result ≡ first_of (look.divisor_not_literal (part_of part.entry)) }
{
    match contents(part) {
        Exprs::None => Ok(()),
        Exprs::One(expr) => literal_divisors(false, expr),
        Exprs::Sides(cond) => literal_divisors_in(cond),
    }
}

/// An error is the first divisor that is 0.
fn zero_divisor(part: Part<'_>) -> Result<(), Place>
    ensures { result ≡ first_of (look.zero_divisor (part_of part.entry)) }
{
    match contents(part) {
        Exprs::None => Ok(()),
        Exprs::One(expr) => no_zero_divisor(false, expr),
        Exprs::Sides(cond) => no_zero_divisor_in(cond),
    }
}

/// An error is the first product with evolving variables on both sides, in a domain or in a value that a guard sends.
fn not_affine(part: Part<'_>) -> Result<(), Place>
    ensures { result ≡ first_of (look.not_affine (part_of part.entry)) }
{
    match part {
        Part::Domain {
            rates,
            place: _,
            domain,
        } => affine_in(rates, domain),
        Part::Guard { rates, io, .. } => match io {
            IoTree::Send { channel: _, value } => moves_of(rates, value).affine,
            IoTree::Receive { .. } => Ok(()),
        },
        _ => Ok(()),
    }
}

fn is_same_way(left: &IoTree, right: &IoTree) -> bool
    ensures { result ≡ look.same_way left.now right.now }
{
    match (left, right) {
        (IoTree::Send { channel, .. }, IoTree::Send { channel: other, .. }) => channel == other,
        (IoTree::Receive { channel, .. }, IoTree::Receive { channel: other, .. }) => channel
            == other,
        _ => false,
    }
}

/// Whether one of the branches is on the same channel in the same direction.
fn is_guarded(branches: &[BranchTree], io: &IoTree) -> bool
    ensures { result ≡ list_any (λ j. look.same_way j io.now) (map io_in branches.now) }
{
    for branch in branches {
        if is_same_way(&branch.io, io) {
            return true;
        }
    }
    false
}

impl Rule {
    /// An error is where a part breaks the rule first.
    fn kept_in(self, part: Part<'_>) -> Result<(), Place>
        ensures { result ≡ first_of (spec.breaks self (part_of part.entry)) }
    {
        match self {
            Rule::DivisorNotLiteral => divisor_not_literal(part),
            Rule::ZeroDivisor => zero_divisor(part),
            Rule::RepeatedRate => repeated_rate(part),
            Rule::RateEvolves => rate_evolves(part),
            Rule::NotAffine => not_affine(part),
            Rule::RepeatedGuard => repeated_guard(part),
        }
    }

    /// How a part is refused that breaks the rule at a place.
    fn refusal(self, place: Place) -> CheckStop
        ensures { result ≡ spec.refused_by self place }
    {
        match self {
            Rule::DivisorNotLiteral => CheckStop::DivisorNotLiteral { place },
            Rule::ZeroDivisor => CheckStop::ZeroDivisor { place },
            Rule::RepeatedRate => CheckStop::RepeatedRate { place },
            Rule::RateEvolves => CheckStop::RateEvolves { place },
            Rule::NotAffine => CheckStop::NotAffine { place },
            Rule::RepeatedGuard => CheckStop::RepeatedGuard { place },
        }
    }

    /// An error is how the first of these parts is refused that breaks the rule.
    pub(crate) fn kept(self, parts: &[Part<'_>]) -> Result<(), CheckStop>
        ensures { result ≡ first_of (spec.broken self (seen parts.now)) }
    {
        for part in parts {
            if let Err(place) = self.kept_in(*part) {
                return Err(self.refusal(place));
            }
        }
        Ok(())
    }
}

/// An error is a rate of a variable that has one before.
fn repeated_rate(part: Part<'_>) -> Result<(), Place>
    ensures { result ≡ first_of (look.repeated_rate (part_of part.entry)) }
{
    match part {
        Part::Rate { earlier, rate, .. } => refused_if(
            is_evolving(earlier, &rate.variable),
            rate.place,
        ),
        _ => Ok(()),
    }
}

/// An error is the first evolving variable in a rate of its evolution.
fn rate_evolves(part: Part<'_>) -> Result<(), Place>
    ensures { result ≡ first_of (look.rate_evolves (part_of part.entry)) }
{
    match part {
        Part::Rate { all, rate, .. } => no_evolving_name(all, &rate.value),
        _ => Ok(()),
    }
}

/// An error is a branch on a channel that an earlier branch has in the same direction.
fn repeated_guard(part: Part<'_>) -> Result<(), Place>
    ensures { result ≡ first_of (look.repeated_guard (part_of part.entry)) }
{
    match part {
        Part::Guard {
            earlier,
            place,
            io,
            ..
        } => refused_if(is_guarded(earlier, io), place),
        _ => Ok(()),
    }
}
