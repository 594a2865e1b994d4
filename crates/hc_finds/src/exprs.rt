//! What may not stand in expressions and conditions. An error is the first place in the order of the text.

ghost use Rattle.std.specs.Prelude.{◌≡◌, false, flat_map};
ghost use Rattle.hc_finds.specs.Exprs as spec;
ghost use Rattle.hc_finds.specs.Looks.{evolving};
ghost use Rattle.hc_modules.specs.Finds.{only_if};
ghost use Rattle.hc_modules.specs.Found.{first_of};

use hc_ast::{CondKind, CondTree, ExprKind, ExprTree, Op, RateTree};
use hc_frac::{Name, Place};

/// An error is the place, where the test holds.
pub(crate) fn refused_if(holds: bool, place: Place) -> Result<(), Place>
    ensures { result ≡ first_of (only_if holds place) }
{
    if holds { Err(place) } else { Ok(()) }
}

/// An error is the first divisor that is no number, in an expression that is a divisor itself or not.
#[tactic(auto, using(crate::proofs::First::firsts, crate::proofs::ExprForms::forms))]
pub(crate) fn literal_divisors(divides: bool, expr: &ExprTree) -> Result<(), Place>
    ensures { result ≡ first_of (spec.divisors_not_literal divides expr.now) }
{
    match &expr.kind {
        ExprKind::Number(_) => Ok(()),
        ExprKind::Name(_) => refused_if(divides, expr.place),
        ExprKind::Neg(part) => {
            refused_if(divides, expr.place)?;
            literal_divisors(false, part.get())
        }
        ExprKind::Binary(op, left, right) => {
            literal_divisors(false, left.get())?;
            refused_if(divides, expr.place)?;
            literal_divisors(is_division(*op), right.get())
        }
    }
}

fn is_division(op: Op) -> bool
    ensures { result ≡ spec.is_division op }
{
    match op {
        Op::Div => true,
        Op::Add | Op::Sub | Op::Mul => false,
    }
}

fn is_product(op: Op) -> bool
    ensures { result ≡ spec.is_product op }
{
    match op {
        Op::Mul => true,
        Op::Add | Op::Sub | Op::Div => false,
    }
}

/// An error is the first divisor that is 0.
#[tactic(auto, using(crate::proofs::First::firsts, crate::proofs::ExprForms::forms))]
pub(crate) fn no_zero_divisor(divides: bool, expr: &ExprTree) -> Result<(), Place>
    ensures { result ≡ first_of (spec.zero_divisors divides expr.now) }
{
    match &expr.kind {
        ExprKind::Number(number) => refused_if(divides && number.digits() == 0, expr.place),
        ExprKind::Name(_) => Ok(()),
        ExprKind::Neg(part) => no_zero_divisor(false, part.get()),
        ExprKind::Binary(op, left, right) => {
            no_zero_divisor(false, left.get())?;
            no_zero_divisor(is_division(*op), right.get())
        }
    }
}

/// Whether the variable has one of these rates.
pub(crate) fn is_evolving(rates: &[RateTree], name: &Name) -> bool
    ensures { result ≡ spec.is_among (evolving rates.now) name.now }
{
    for rate in rates {
        if rate.variable == *name {
            return true;
        }
    }
    false
}

/// An error is the first variable in an expression that has one of these rates.
#[tactic(auto, using(crate::proofs::First::firsts, crate::proofs::ExprForms::forms))]
pub(crate) fn no_evolving_name(rates: &[RateTree], expr: &ExprTree) -> Result<(), Place>
    ensures { result ≡ first_of (flat_map (λ n. only_if (spec.is_among (evolving rates.now) n.word) n.place) (spec.names_in expr.now)) }
{
    match &expr.kind {
        ExprKind::Number(_) => Ok(()),
        ExprKind::Name(name) => refused_if(is_evolving(rates, name), expr.place),
        ExprKind::Neg(part) => no_evolving_name(rates, part.get()),
        ExprKind::Binary(_, left, right) => {
            no_evolving_name(rates, left.get())?;
            no_evolving_name(rates, right.get())
        }
    }
}

/// Whether a variable with one of these rates stands in an expression, and whether it is affine: an error is its first
/// product with one on both sides.
#[derive(Clone, Copy, Drop)]
pub(crate) struct Moves {
    pub(crate) moves: bool,
    pub(crate) affine: Result<(), Place>,
}

#[tactic(auto, using(crate::proofs::First::firsts, crate::proofs::ExprForms::forms))]
pub(crate) fn moves_of(rates: &[RateTree], expr: &ExprTree) -> Moves
    ensures moves { result.moves ≡ (spec.moves_of (evolving rates.now) expr.now).moves }
    ensures affine { result.affine ≡ first_of (spec.moves_of (evolving rates.now) expr.now).products }
{
    match &expr.kind {
        ExprKind::Number(_) => Moves {
            moves: false,
            affine: Ok(()),
        },
        ExprKind::Name(name) => Moves {
            moves: is_evolving(rates, name),
            affine: Ok(()),
        },
        ExprKind::Neg(part) => moves_of(rates, part.get()),
        ExprKind::Binary(op, left, right) => {
            let left = moves_of(rates, left.get());
            let right = moves_of(rates, right.get());
            let here = refused_if(is_product(*op) & (left.moves & right.moves), expr.place);
            Moves {
                moves: left.moves | right.moves,
                affine: left.affine.and(here).and(right.affine),
            }
        }
    }
}

/// An error is the first divisor that is no number, in the sides of a condition's comparisons.
#[tactic(auto, using(crate::proofs::First::firsts, crate::proofs::ExprForms::forms))]
pub(crate) fn literal_divisors_in(cond: &CondTree) -> Result<(), Place>
    ensures { result ≡ first_of (flat_map (spec.divisors_not_literal false) (spec.sides cond.now)) }
{
    match &cond.kind {
        CondKind::True | CondKind::False => Ok(()),
        CondKind::Compare(_, left, right) => {
            literal_divisors(false, left.get())?;
            literal_divisors(false, right.get())
        }
        CondKind::Not(part) => literal_divisors_in(part.get()),
        CondKind::And(left, right) | CondKind::Or(left, right) => {
            literal_divisors_in(left.get())?;
            literal_divisors_in(right.get())
        }
    }
}

/// An error is the first divisor that is 0.
#[tactic(auto, using(crate::proofs::First::firsts, crate::proofs::ExprForms::forms))]
pub(crate) fn no_zero_divisor_in(cond: &CondTree) -> Result<(), Place>
    ensures { result ≡ first_of (flat_map (spec.zero_divisors false) (spec.sides cond.now)) }
{
    match &cond.kind {
        CondKind::True | CondKind::False => Ok(()),
        CondKind::Compare(_, left, right) => {
            no_zero_divisor(false, left.get())?;
            no_zero_divisor(false, right.get())
        }
        CondKind::Not(part) => no_zero_divisor_in(part.get()),
        CondKind::And(left, right) | CondKind::Or(left, right) => {
            no_zero_divisor_in(left.get())?;
            no_zero_divisor_in(right.get())
        }
    }
}

/// An error is the first product with variables that have one of these rates on both sides.
#[tactic(auto, using(crate::proofs::First::firsts, crate::proofs::ExprForms::forms))]
pub(crate) fn affine_in(rates: &[RateTree], cond: &CondTree) -> Result<(), Place>
    ensures { result ≡ first_of (flat_map (λ e. (spec.moves_of (evolving rates.now) e).products) (spec.sides cond.now)) }
{
    match &cond.kind {
        CondKind::True | CondKind::False => Ok(()),
        CondKind::Compare(_, left, right) => {
            moves_of(rates, left.get()).affine?;
            moves_of(rates, right.get()).affine
        }
        CondKind::Not(part) => affine_in(rates, part.get()),
        CondKind::And(left, right) | CondKind::Or(left, right) => {
            affine_in(rates, left.get())?;
            affine_in(rates, right.get())
        }
    }
}
