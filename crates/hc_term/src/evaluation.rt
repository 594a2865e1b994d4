//! The values of expressions and the truth of conditions.

ghost use Rattle.std.specs.Prelude.{◌≡◌, ◌≢◌, ◌≤◌, [], pos, length, true, IsTrue, IfOk};
ghost use Rattle.hc_rational.specs.Words.{fits};
ghost use Rattle.hc_term.specs.declared.expr.Op.TheVariants.{Div};
ghost use Rattle.hc_term.specs.Value.{work, applied, division, is_defined, is_defined_test};
ghost use Rattle.hc_term.specs.Profile.{reach, reach_in};
ghost use Rattle.hc_term.specs.Evaluated.{if_fitting, value_in, truth_in};

use crate::{Cond, Expr, Op, Unfit};
use hc_frac::Frac;

/// The value of an expression in this store, or `Unfit` exactly where the value of some part doesn't fit a fraction.
/// The store has all its variables, and no divisor's value is 0.
pub fn value(expr: &Expr, store: &[Frac]) -> Result<Frac, Unfit>
    requires in_range { reach expr.now ≤ length store.now }
    requires divisors { IsTrue (is_defined store.now expr.now) }
    ensures { result ≡ value_in store.now expr.now }
{
    evaluated(expr, store)
}

/// The same, with what the recursion needs to know: the value is the one that the parts are worked from, by which a
/// divisor is judged.
fn evaluated(expr: &Expr, store: &[Frac]) -> Result<Frac, Unfit>
    requires in_range { reach expr.now ≤ length store.now }
    requires divisors { IsTrue (is_defined store.now expr.now) }
    ensures answer { result ≡ value_in store.now expr.now }
    ensures worked { IfOk result (λ q. q ≡ (work store.now expr.now).value) }
    ensures judged { IfOk result (λ q. q ≡ (division store.now expr.now).value) }
{
    match expr {
        Expr::Number(number) => Ok(*number),
        Expr::Variable(variable) => Ok(store[*variable as usize]),
        Expr::Neg(part) => {
            let whole = evaluated(part.get(), store)?;
            Ok(whole.neg())
        }
        Expr::Binary(op, left, right) => {
            let first = evaluated(left.get(), store)?;
            let second = evaluated(right.get(), store)?;
            combined(*op, first, second)
        }
    }
}

/// What the sign makes of two values, of which the second isn't 0 where it divides.
fn combined(op: Op, left: Frac, right: Frac) -> Result<Frac, Unfit>
    requires { op ≡ Div → right.num ≢ pos 0 }
    ensures answer { result ≡ if_fitting (fits (applied op left right)) (applied op left right) }
    ensures exact { IfOk result (λ q. q ≡ applied op left right) }
{
    match op.applied(left, right) {
        Some(value) => Ok(value),
        None => Err(Unfit),
    }
}

/// The truth of a condition in this store, or `Unfit` exactly where the value of some part doesn't fit a fraction: it
/// is evaluated whole. The store has all its variables, and no divisor's value is 0.
pub fn holds(cond: &Cond, store: &[Frac]) -> Result<bool, Unfit>
    requires in_range { reach_in cond.now ≤ length store.now }
    requires divisors { IsTrue (is_defined_test store.now cond.now) }
    ensures { result ≡ truth_in store.now cond.now }
{
    match cond {
        Cond::True => Ok(true),
        Cond::False => Ok(false),
        Cond::Compare(how, left, right) => {
            let first = value(left.get(), store)?;
            let second = value(right.get(), store)?;
            Ok(how.answer(first.compare(second)))
        }
        Cond::Not(part) => {
            let inner = holds(part.get(), store)?;
            Ok(!inner)
        }
        Cond::And(left, right) => {
            let first = holds(left.get(), store)?;
            let second = holds(right.get(), store)?;
            Ok(first & second)
        }
        Cond::Or(left, right) => {
            let first = holds(left.get(), store)?;
            let second = holds(right.get(), store)?;
            Ok(first | second)
        }
    }
}
