//! The end moment of the domain of an evolution.

ghost use Rattle.std.specs.Prelude.{◌≤◌, IsTrue};
ghost use Rattle.hc_term.specs.Profile.{reach, reach_in};

use hc_cross::{affine, end_moment};
use hc_frac::Frac;
use hc_limits::MOST_VARIABLES;
use hc_list::Boxed;
use hc_rows::Words;
use hc_term::{Comparison, Cond, Expr, Rate, Stmt, System, form_of, is_affine};
use std::alloc::{AllocError, Global};

/// Whether the variables of an expression are below so many.
fn is_within(expr: &Expr, variables: usize) -> bool
    ensures { IsTrue result → reach expr.now ≤ variables }
{
    match expr {
        Expr::Number(_) => true,
        Expr::Variable(variable) => (*variable as usize) < variables,
        Expr::Neg(part) => is_within(part.get(), variables),
        Expr::Binary(_, left, right) => {
            is_within(left.get(), variables) && is_within(right.get(), variables)
        }
    }
}

/// Whether those of a condition are.
fn is_test_within(cond: &Cond, variables: usize) -> bool
    ensures { IsTrue result → reach_in cond.now ≤ variables }
{
    match cond {
        Cond::True | Cond::False => true,
        Cond::Compare(_, left, right) => {
            is_within(left.get(), variables) && is_within(right.get(), variables)
        }
        Cond::Not(part) => is_test_within(part.get(), variables),
        Cond::And(left, right) | Cond::Or(left, right) => {
            is_test_within(left.get(), variables) && is_test_within(right.get(), variables)
        }
    }
}

/// The value of an expression, where it fits.
fn value_of(expr: &Expr, store: &[Frac]) -> Option<Frac> {
    let still = [None; MOST_VARIABLES];
    let is_known = store.len() == MOST_VARIABLES && is_within(expr, MOST_VARIABLES);
    if !is_known || !form_of(&still, expr).affine {
        return None;
    }
    match affine(expr, store, &still) {
        Ok(line) => Some(line.at),
        Err(_) => None,
    }
}

/// Sets a variable to the value of the expression, where it fits.
fn set(store: &mut [Frac], variable: u32, expr: &Expr) {
    let Some(value) = value_of(expr, store) else {
        return;
    };
    if let Some(cell) = store.get_mut(variable as usize) {
        *cell = value;
    }
}

/// The rates of an evolution that begins in this store, where they fit.
fn rates_of(rates: &[Rate], store: &[Frac]) -> Option<[Option<Frac>; MOST_VARIABLES]> {
    let mut found = [None; MOST_VARIABLES];
    for rate in rates {
        let value = value_of(&rate.value, store)?;
        if let Some(cell) = found.get_mut(rate.variable as usize) {
            *cell = Some(value);
        }
    }
    Some(found)
}

/// The end moment of a domain in this store with these rates, as a text.
fn end_text(
    alloc: Global,
    domain: &Cond,
    store: &[Frac],
    rates: &[Option<Frac>],
) -> Result<String, AllocError> {
    let is_known = store.len() == rates.len() && is_test_within(domain, store.len());
    if !is_known || !is_affine(rates, domain) {
        return String::from_str(alloc, "unknown");
    }
    match end_moment(domain, store, rates) {
        Ok(Some(moment)) => String::from_str(alloc, moment.text().as_str()),
        Ok(None) => String::from_str(alloc, "none"),
        Err(_) => String::from_str(alloc, "unfit"),
    }
}

/// The end moment of the first evolution of the first process, which assignments may precede.
pub(crate) fn end_of(alloc: Global, system: &System) -> Result<String, AllocError> {
    let mut store = [Frac::zero(); MOST_VARIABLES];
    let Some(process) = system.processes.as_slice().first() else {
        return String::from_str(alloc, "unknown");
    };
    for stmt in process.body.as_slice() {
        match stmt {
            Stmt::Assign { variable, value } => set(&mut store, *variable, value),
            Stmt::Evolve { rates, domain, .. } => {
                return match rates_of(rates.as_slice(), &store) {
                    Some(rates) => end_text(alloc, domain, &store, &rates),
                    None => String::from_str(alloc, "unfit"),
                };
            }
            _ => {}
        }
    }
    String::from_str(alloc, "unknown")
}

/// Either condition, or `!x >= LIMIT` where x is variable 0.
fn or_below(alloc: Global, cond: Cond, limit: Frac) -> Result<Cond, AllocError> {
    let left = Boxed::new(alloc, Expr::Variable(0))?;
    let right = Boxed::new(alloc, Expr::Number(limit))?;
    let reached = Cond::Compare(Comparison::AtLeast, left, right);
    let below = Cond::Not(Boxed::new(alloc, reached)?);
    Ok(Cond::Or(Boxed::new(alloc, cond)?, Boxed::new(alloc, below)?))
}

/// The end moment of `!x >= 1 || !x >= 2 || ..`, with so many comparisons, where x begins with 0 and has the rate 1.
pub(crate) fn end_of_many(alloc: Global, count: &str) -> Result<String, AllocError> {
    let (Some(count), Some(one)) = (Words::of(count).number(), Frac::new(1, 1)) else {
        return String::from_str(alloc, "unknown");
    };
    let mut cond = Cond::False;
    let mut limit = Frac::zero();
    for _made in 0..count {
        let Some(next) = limit.add(one) else {
            return String::from_str(alloc, "unfit");
        };
        limit = next;
        cond = or_below(alloc, cond, limit)?;
    }
    end_text(alloc, &cond, &[Frac::zero()], &[Some(one)])
}
