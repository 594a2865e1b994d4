//! Expressions. A part may have met want of memory: then the whole has.

ghost use Rattle.std.specs.Prelude.{◌≡◌, true};
ghost use Rattle.hc_cbuild.specs.Names.{is_name};
ghost use Rattle.hc_cbuild.specs.Written as spec;
ghost use Rattle.hc_cast.specs.declared.expr.CExpr.{CExpr};
ghost use Rattle.hc_cast.specs.declared.expr.CExpr.TheVariants as e;
ghost use Rattle.hc_cbuild.specs.Makes.{Makes};

use hc_cast::{CExpr, COp};
use hc_cbuild::word;
use hc_list::Boxed;
use std::alloc::{AllocError, Global};

/// A number.
pub fn number(n: u32) -> Result<CExpr, AllocError>
    ensures { Makes result (spec.number n) }
{
    Ok(CExpr::Number(i64::from(n)))
}

/// -1.
pub fn minus_one(alloc: Global) -> Result<CExpr, AllocError>
    ensures { Makes result spec.minus_one }
{
    let one = Boxed::new(alloc, CExpr::Number(1))?;
    Ok(CExpr::Neg(one))
}

/// A local's value.
pub fn local(name: &[u8]) -> Result<CExpr, AllocError>
    requires { is_name name.now ≡ true }
    ensures { Makes result (spec.local name.now) }
{
    Ok(CExpr::Local(word(name)))
}

/// An element of an array.
pub fn elem(
    alloc: Global,
    array: &[u8],
    index: Result<CExpr, AllocError>,
) -> Result<CExpr, AllocError>
    requires { is_name array.now ≡ true }
    ensures { (i : CExpr) → Makes index i → Makes result (spec.element array.now i) }
{
    let index = Boxed::new(alloc, index?)?;
    Ok(CExpr::Element(word(array), index))
}

/// Its first element.
pub fn first_of(alloc: Global, array: &[u8]) -> Result<CExpr, AllocError>
    requires { is_name array.now ≡ true }
    ensures { Makes result (spec.first_of array.now) }
{
    elem(alloc, array, number(0))
}

/// Two parts joined by a sign.
pub fn binary(
    alloc: Global,
    op: COp,
    left: Result<CExpr, AllocError>,
    right: Result<CExpr, AllocError>,
) -> Result<CExpr, AllocError>
    ensures { (a : CExpr) (b : CExpr) → Makes left a → Makes right b → Makes result (e.Binary op a b) }
{
    let left = Boxed::new(alloc, left?)?;
    let right = Boxed::new(alloc, right?)?;
    Ok(CExpr::Binary(op, left, right))
}

/// `!part`.
pub fn denies(alloc: Global, part: Result<CExpr, AllocError>) -> Result<CExpr, AllocError>
    ensures { (a : CExpr) → Makes part a → Makes result (spec.denies a) }
{
    let part = Boxed::new(alloc, part?)?;
    Ok(CExpr::Not(part))
}

/// A part times a number.
pub fn times(alloc: Global, part: Result<CExpr, AllocError>, n: u32) -> Result<CExpr, AllocError>
    ensures { (a : CExpr) → Makes part a → Makes result (spec.times a n) }
{
    binary(alloc, COp::Mul, part, number(n))
}

/// Whether a part is above 0.
pub fn some(alloc: Global, part: Result<CExpr, AllocError>) -> Result<CExpr, AllocError>
    ensures { (a : CExpr) → Makes part a → Makes result (spec.above_zero a) }
{
    binary(alloc, COp::Less, number(0), part)
}

/// Whether it is below 1.
pub fn none(alloc: Global, part: Result<CExpr, AllocError>) -> Result<CExpr, AllocError>
    ensures { (a : CExpr) → Makes part a → Makes result (spec.below_one a) }
{
    binary(alloc, COp::Less, part, number(1))
}
