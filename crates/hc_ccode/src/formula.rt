//! Expressions with places in place of names.

ghost use Rattle.std.specs.Prelude.{◌≡◌, IfOk, IsTrue};
ghost use Rattle.hc_cmach.specs.Expression.{written};
ghost use Rattle.hc_cmach.specs.Calls.{is_small};
ghost use Rattle.hc_ccode.specs.Placed as spec;

use crate::Formula;
use crate::places::{array_in, array_len, place_in};
use hc_cast::{CExpr, CProgram};
use hc_frac::Name;
use hc_list::{Boxed, List};
use std::alloc::{AllocError, Global};

/// An expression in a body with these names.
#[cycle(placing)]
pub(crate) fn placed(
    alloc: Global,
    program: &CProgram,
    names: &[Name],
    expr: &CExpr,
) -> Result<Formula, AllocError>
    ensures { IfOk result (λ f. f ≡ spec.placed program.now names.now expr.now) }
{
    match expr {
        CExpr::Number(number) => Ok(Formula::Number(*number)),
        CExpr::Local(name) => Ok(Formula::Local(place_in(names, name))),
        CExpr::Element(array, index) => {
            let index = boxed(alloc, program, names, index)?;
            Ok(Formula::Element(array_in(program, array), array_len(program, array), index))
        }
        CExpr::Neg(part) => {
            let part = boxed(alloc, program, names, part)?;
            Ok(Formula::Neg(part))
        }
        CExpr::Not(part) => {
            let part = boxed(alloc, program, names, part)?;
            Ok(Formula::Not(part))
        }
        CExpr::Binary(op, left, right) => {
            let left = boxed(alloc, program, names, left)?;
            let right = boxed(alloc, program, names, right)?;
            Ok(Formula::Binary(*op, left, right))
        }
    }
}

#[cycle(placing)]
fn boxed(
    alloc: Global,
    program: &CProgram,
    names: &[Name],
    part: &Boxed<CExpr>,
) -> Result<Boxed<Formula>, AllocError>
    ensures { IfOk result (λ f. f ≡ spec.placed program.now names.now part.now) }
{
    let formula = placed(alloc, program, names, part.get())?;
    Boxed::new(alloc, formula)
}

/// Expressions, in their order.
pub(crate) fn placed_all(
    alloc: Global,
    program: &CProgram,
    names: &[Name],
    exprs: &[CExpr],
) -> Result<List<Formula>, AllocError>
    ensures { IfOk result (λ fs. fs ≡ spec.placed_all program.now names.now exprs.now) }
{
    let mut found = List::new(alloc);
    for expr in exprs {
        found.push(placed(alloc, program, names, expr)?)?;
    }
    Ok(found)
}

/// The local that takes a result.
pub(crate) fn placed_target(names: &[Name], target: &Option<Name>) -> Option<usize>
    ensures { result ≡ spec.placed_target names.now target.now }
{
    match target {
        Some(name) => Some(place_in(names, name)),
        None => None,
    }
}

/// A number as it is written.
pub(crate) fn number_written(expr: &CExpr) -> i64
    requires { IsTrue (is_small expr.now) }
    ensures { result ≡ written expr.now }
{
    match expr {
        CExpr::Number(number) => *number,
        CExpr::Neg(part) => -number_written(part.get()),
        _ => 0,
    }
}
