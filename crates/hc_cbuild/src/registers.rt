//! Statements on the fractions in a row's registers, and blocks that are passed by once a value didn't fit.

ghost use Rattle.std.specs.Prelude.{◌≡◌};
ghost use Rattle.hc_cbuild.specs.Makes.{Makes};
ghost use Rattle.hc_cbuild.specs.Written as spec;

use crate::expressions::{local_is, number, numbers, signed};
use crate::statements::{if_then, prim, single, take_prim};
use hc_cast::{CExpr, CStmt, Primitive};
use hc_frac::Frac;
use hc_list::List;
use hc_term::Op;
use std::alloc::{AllocError, Global};

/// Register `d` of row `r` becomes a fraction.
pub fn set_register(alloc: Global, r: u32, d: u32, q: Frac) -> Result<CStmt, AllocError>
    ensures { Makes result (spec.set_register r d q) }
{
    let mut arguments = List::new(alloc);
    arguments.push(number(r))?;
    arguments.push(number(d))?;
    arguments.push(signed(alloc, q.num())?)?;
    arguments.push(CExpr::Number(q.den()))?;
    Ok(prim(Primitive::FrSet, arguments))
}

/// Register `d` of row `r` becomes 0.
pub fn clear_register(alloc: Global, r: u32, d: u32) -> Result<CStmt, AllocError>
    ensures { Makes result (spec.clear_register r d) }
{
    let arguments = numbers(alloc, &[r, d, 0, 1])?;
    Ok(prim(Primitive::FrSet, arguments))
}

/// Register `d` of row `r` becomes register `x`.
pub fn move_register(alloc: Global, r: u32, d: u32, x: u32) -> Result<CStmt, AllocError>
    ensures { Makes result (spec.move_register r d x) }
{
    let arguments = numbers(alloc, &[r, d, r, x])?;
    Ok(prim(Primitive::FrMove, arguments))
}

/// The primitive of a sign of the source.
pub fn primitive_of(op: Op) -> Primitive
    ensures { result ≡ spec.primitive_of op }
{
    match op {
        Op::Add => Primitive::FrAdd,
        Op::Sub => Primitive::FrSub,
        Op::Mul => Primitive::FrMul,
        Op::Div => Primitive::FrDiv,
    }
}

/// A block that is done as long as all values fit.
pub fn guarded_block(alloc: Global, block: List<CStmt>) -> Result<CStmt, AllocError>
    ensures { Makes result (spec.guarded_block block) }
{
    let test = local_is(alloc, b"v_ok", 1)?;
    Ok(if_then(test, block))
}

/// `if (v_ok == 1) { v_ok = p(r, d, x, y); }`
pub fn guarded(
    alloc: Global,
    p: Primitive,
    r: u32,
    d: u32,
    x: u32,
    y: u32,
) -> Result<CStmt, AllocError>
    ensures { Makes result (spec.guarded p r d x y) }
{
    let arguments = numbers(alloc, &[r, d, x, y])?;
    let block = single(alloc, take_prim(b"v_ok", p, arguments))?;
    guarded_block(alloc, block)
}
