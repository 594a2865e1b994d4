//! Expressions.

ghost use Rattle.std.specs.Prelude.{◌≡◌, ◌<◌, ◌^◌, true, unsigned_abs};
ghost use Rattle.hc_cast.specs.declared.expr.CExpr.TheVariants.{Binary};
ghost use Rattle.hc_cbuild.specs.Names.{is_name};
ghost use Rattle.hc_cbuild.specs.Makes.{Makes};
ghost use Rattle.hc_cbuild.specs.Written as spec;

use crate::names::word;
use hc_cast::{CExpr, COp};
use hc_list::{Boxed, List};
use std::alloc::{AllocError, Global};

/// A number.
pub fn number(n: u32) -> CExpr
    ensures { result ≡ spec.number n }
{
    CExpr::Number(i64::from(n))
}

/// `-1`
pub fn minus_one(alloc: Global) -> Result<CExpr, AllocError>
    ensures { Makes result spec.minus_one }
{
    let one = Boxed::new(alloc, CExpr::Number(1))?;
    Ok(CExpr::Neg(one))
}

/// A number with its sign: a minus in front of a number, where it is below 0.
pub fn signed(alloc: Global, z: i64) -> Result<CExpr, AllocError>
    requires { unsigned_abs z < 2 ^ 63 }
    ensures { Makes result (spec.signed z) }
{
    if z < 0 {
        let part = Boxed::new(alloc, CExpr::Number(-z))?;
        Ok(CExpr::Neg(part))
    } else {
        Ok(CExpr::Number(z))
    }
}

/// Numbers as arguments, in their order.
pub fn numbers(alloc: Global, ns: &[u32]) -> Result<List<CExpr>, AllocError>
    ensures { Makes result (spec.numbers ns.now) }
{
    let mut found = List::new(alloc);
    for n in ns {
        found.push(number(*n))?;
    }
    Ok(found)
}

/// A local or a parameter.
pub fn local(name: &[u8]) -> CExpr
    requires { is_name name.now ≡ true }
    ensures { result ≡ spec.local name.now }
{
    CExpr::Local(word(name))
}

/// `array[index]`
pub fn element(alloc: Global, array: &[u8], index: CExpr) -> Result<CExpr, AllocError>
    requires { is_name array.now ≡ true }
    ensures { Makes result (spec.element array.now index) }
{
    let index = Boxed::new(alloc, index)?;
    Ok(CExpr::Element(word(array), index))
}

/// `array[0]`
pub fn first_of(alloc: Global, array: &[u8]) -> Result<CExpr, AllocError>
    requires { is_name array.now ≡ true }
    ensures { Makes result (spec.first_of array.now) }
{
    element(alloc, array, number(0))
}

/// Two expressions with a sign between them.
pub fn binary(alloc: Global, op: COp, left: CExpr, right: CExpr) -> Result<CExpr, AllocError>
    ensures { Makes result (Binary op left right) }
{
    let left = Boxed::new(alloc, left)?;
    let right = Boxed::new(alloc, right)?;
    Ok(CExpr::Binary(op, left, right))
}

/// `left + right`
pub fn sum(alloc: Global, left: CExpr, right: CExpr) -> Result<CExpr, AllocError>
    ensures { Makes result (spec.sum left right) }
{
    binary(alloc, COp::Add, left, right)
}

/// `left - right`
pub fn difference(alloc: Global, left: CExpr, right: CExpr) -> Result<CExpr, AllocError>
    ensures { Makes result (spec.difference left right) }
{
    binary(alloc, COp::Sub, left, right)
}

/// `part * n`
pub fn times(alloc: Global, part: CExpr, n: u32) -> Result<CExpr, AllocError>
    ensures { Makes result (spec.times part n) }
{
    binary(alloc, COp::Mul, part, number(n))
}

/// `left < right`
pub fn less(alloc: Global, left: CExpr, right: CExpr) -> Result<CExpr, AllocError>
    ensures { Makes result (spec.less left right) }
{
    binary(alloc, COp::Less, left, right)
}

/// `left == right`
pub fn equals(alloc: Global, left: CExpr, right: CExpr) -> Result<CExpr, AllocError>
    ensures { Makes result (spec.equals left right) }
{
    binary(alloc, COp::Equal, left, right)
}

/// `left != right`
pub fn differs(alloc: Global, left: CExpr, right: CExpr) -> Result<CExpr, AllocError>
    ensures { Makes result (spec.differs left right) }
{
    binary(alloc, COp::NotEqual, left, right)
}

/// `left && right`
pub fn both(alloc: Global, left: CExpr, right: CExpr) -> Result<CExpr, AllocError>
    ensures { Makes result (spec.both left right) }
{
    binary(alloc, COp::And, left, right)
}

/// `left || right`
pub fn either(alloc: Global, left: CExpr, right: CExpr) -> Result<CExpr, AllocError>
    ensures { Makes result (spec.either left right) }
{
    binary(alloc, COp::Or, left, right)
}

/// `!part`
pub fn denies(alloc: Global, part: CExpr) -> Result<CExpr, AllocError>
    ensures { Makes result (spec.denies part) }
{
    let part = Boxed::new(alloc, part)?;
    Ok(CExpr::Not(part))
}

/// `0 < part`
pub fn above_zero(alloc: Global, part: CExpr) -> Result<CExpr, AllocError>
    ensures { Makes result (spec.above_zero part) }
{
    less(alloc, number(0), part)
}

/// `part < 1`
pub fn below_one(alloc: Global, part: CExpr) -> Result<CExpr, AllocError>
    ensures { Makes result (spec.below_one part) }
{
    less(alloc, part, number(1))
}

/// `name == n`
pub fn local_is(alloc: Global, name: &[u8], n: u32) -> Result<CExpr, AllocError>
    requires { is_name name.now ≡ true }
    ensures { Makes result (spec.local_is name.now n) }
{
    equals(alloc, local(name), number(n))
}
