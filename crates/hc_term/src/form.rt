//! The form of an expression, by which an evolution's expressions move along lines.

ghost use Rattle.std.specs.Prelude.{◌≡◌, None, slice_index_or};
ghost use Rattle.hc_term.specs.Motion.{evolves, allowed, form};
ghost use Rattle.hc_term.specs.EndMoment.{is_domain};

use crate::{Cond, Expr, Op};
use hc_frac::Frac;

/// What the rules on products and divisors ask of an expression.
#[derive(Clone, Copy, Debug, PartialEq, Eq)]
pub struct Form {
    /// No product has evolving variables on both sides, and divisors are numbers other than 0.
    pub affine: bool,
    /// It mentions an evolving variable.
    pub moves: bool,
    /// It is a number other than 0.
    pub divides: bool,
}

/// The form of an expression where the variables that have a rate evolve.
pub fn form_of(rates: &[Option<Frac>], expr: &Expr) -> Form
    ensures { result ≡ form rates.now expr.now }
{
    match expr {
        Expr::Number(number) => Form {
            affine: true,
            moves: false,
            divides: !number.is_zero(),
        },
        Expr::Variable(variable) => Form {
            affine: true,
            moves: is_evolving(rates, *variable),
            divides: false,
        },
        Expr::Neg(part) => Form {
            divides: false,
            ..form_of(rates, part.get())
        },
        Expr::Binary(op, left, right) => {
            let first = form_of(rates, left.get());
            let second = form_of(rates, right.get());
            Form {
                affine: first.affine && second.affine && is_allowed(*op, first, second),
                moves: first.moves || second.moves,
                divides: false,
            }
        }
    }
}

fn is_evolving(rates: &[Option<Frac>], variable: u32) -> bool
    ensures { result ≡ evolves (slice_index_or rates.now variable None) }
{
    match rates.get(variable as usize) {
        Some(rate) => rate.is_some(),
        None => false,
    }
}

fn is_allowed(op: Op, left: Form, right: Form) -> bool
    ensures { result ≡ allowed op left right }
{
    match op {
        Op::Add | Op::Sub => true,
        Op::Mul => !(left.moves && right.moves),
        Op::Div => right.divides,
    }
}

/// Whether every comparison of the condition is between affine expressions.
pub fn is_affine(rates: &[Option<Frac>], cond: &Cond) -> bool
    ensures { result ≡ is_domain rates.now cond.now }
{
    match cond {
        Cond::True | Cond::False => true,
        Cond::Compare(_, left, right) => form_of(rates, left.get()).affine
            && form_of(rates, right.get()).affine,
        Cond::Not(part) => is_affine(rates, part.get()),
        Cond::And(left, right) | Cond::Or(left, right) => is_affine(rates, left.get())
            && is_affine(rates, right.get()),
    }
}
