//! The code of the comparisons' crossings.

ghost use Rattle.std.specs.Prelude.{◌≡◌, ◌≤◌, ◌++◌, ◌∷◌, [], IfOk, OnOk};
ghost use Rattle.hc_cend.specs.Lining.{guard};
ghost use Rattle.hc_cend.specs.Preparing as spec;
ghost use Rattle.hc_cend.specs.Law.{places};

use crate::places::{AT, crossing_at, slope_at};
use crate::search::{is_below, sets};
use crate::sign::{adds_one, are_opposite, own, push_signs};
use hc_cast::{CExpr, CStmt, Primitive};
use hc_cbuild::{if_then, local_is, number, prim, take_prim, while_do};
use hc_list::List;
use std::alloc::{AllocError, Global};

/// `if (v_ok == 1) { .. }`
pub fn guards(alloc: Global, code: List<CStmt>) -> Result<CStmt, AllocError>
    ensures { IfOk result (λ s. s ≡ guard code) }
{
    let test = local_is(alloc, b"v_ok", 1)?;
    Ok(if_then(test, code))
}

/// The crossing of comparison `v_i`.
fn divides(alloc: Global, p: u32, n: u32) -> Result<List<CStmt>, AllocError>
    requires { n ≤ 200 }
    ensures { IfOk result (λ ss. ss ≡ spec.divides p (places n)) }
{
    let mut code = List::new(alloc);
    let to = own(alloc, crossing_at(n))?;
    let at = own(alloc, AT)?;
    let mut arguments = List::new(alloc);
    arguments.push(number(p))?;
    arguments.push(to)?;
    arguments.push(at)?;
    code.push(prim(Primitive::FrNeg, arguments))?;
    let to = own(alloc, crossing_at(n))?;
    let from = own(alloc, crossing_at(n))?;
    let slope = own(alloc, slope_at(n))?;
    let mut others = List::new(alloc);
    others.push(number(p))?;
    others.push(to)?;
    others.push(from)?;
    others.push(slope)?;
    code.push(take_prim(b"v_ok", Primitive::FrDiv, others))?;
    Ok(code)
}

/// The same, where all fits so far.
fn divides_if(alloc: Global, p: u32, n: u32) -> Result<List<CStmt>, AllocError>
    requires { n ≤ 200 }
    ensures { IfOk result (λ ss. ss ≡ spec.divides_if p (places n)) }
{
    let mut code = List::new(alloc);
    let body = divides(alloc, p, n)?;
    code.push(guards(alloc, body)?)?;
    Ok(code)
}

/// For one comparison.
fn push_one_crossing(
    alloc: Global,
    code: &mut List<CStmt>,
    p: u32,
    n: u32,
) -> Result<(), AllocError>
    requires { n ≤ 200 }
    ensures { OnOk result (code.new ≡ code.old ++ spec.one_crossing p (places n)) }
{
    push_signs(alloc, code, p, n)?;
    let test = are_opposite(alloc)?;
    let some = divides_if(alloc, p, n)?;
    code.push(if_then(test, some))?;
    code.push(adds_one(alloc, b"v_i")?)
}

/// For all of them.
pub fn push_crossings(
    alloc: Global,
    code: &mut List<CStmt>,
    p: u32,
    n: u32,
) -> Result<(), AllocError>
    requires { n ≤ 200 }
    ensures { OnOk result (code.new ≡ code.old ++ spec.crossings p (places n) n) }
{
    code.push(sets(b"v_i", 0))?;
    let test = is_below(alloc, b"v_i", n)?;
    let mut body = List::new(alloc);
    push_one_crossing(alloc, &mut body, p, n)?;
    code.push(while_do(test, body))
}
