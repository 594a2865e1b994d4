//! The code that finds what stands for each comparison at a point.

ghost use Rattle.std.specs.Prelude.{◌≡◌, ◌≤◌, ◌++◌, ◌∷◌, [], IfOk, OnOk, true};
ghost use Rattle.hc_cbuild.specs.Names.{is_name};
ghost use Rattle.hc_cast.specs.declared.expr.CExpr.TheVariants.{Binary};
ghost use Rattle.hc_cend.specs.Written as spec;
ghost use Rattle.hc_cend.specs.Search as search;
ghost use Rattle.hc_cend.specs.Law.{places};

use crate::places::{AT, ZERO, crossing_at, moment_at, sign_at, slope_at};
use hc_cast::{CExpr, COp, CStmt, Primitive};
use hc_cbuild::{binary, if_else, local, number, prim, set, single, take_prim, while_do};
use hc_list::List;
use std::alloc::{AllocError, Global};

/// `base + v_i`
pub fn own(alloc: Global, base: u32) -> Result<CExpr, AllocError>
    ensures { IfOk result (λ e. e ≡ spec.own base) }
{
    binary(alloc, COp::Add, number(base), local(b"v_i"))
}

/// `x = fr_cmp(p, d, q);`
pub fn compares(alloc: Global, p: u32, x: &[u8], d: CExpr, q: CExpr) -> Result<CStmt, AllocError>
    requires { is_name x.now ≡ true }
    ensures { IfOk result (λ s. s ≡ spec.compares p x.now d q) }
{
    let mut arguments = List::new(alloc);
    arguments.push(number(p))?;
    arguments.push(d)?;
    arguments.push(q)?;
    Ok(take_prim(x, Primitive::FrCmp, arguments))
}

/// `fr_move(p, SIGN + v_i, p, from);` as a list.
fn copies(alloc: Global, p: u32, n: u32, from: CExpr) -> Result<List<CStmt>, AllocError>
    requires { n ≤ 200 }
    ensures { IfOk result (λ ss. ss ≡ spec.copies p (places n) from ∷ []) }
{
    let to = own(alloc, sign_at(n))?;
    let mut arguments = List::new(alloc);
    arguments.push(number(p))?;
    arguments.push(to)?;
    arguments.push(number(p))?;
    arguments.push(from)?;
    single(alloc, prim(Primitive::FrMove, arguments))
}

/// `x == 0`
pub fn is_zero(alloc: Global, x: &[u8]) -> Result<CExpr, AllocError>
    requires { is_name x.now ≡ true }
    ensures { IfOk result (λ e. e ≡ spec.is_number x.now 0) }
{
    binary(alloc, COp::Equal, local(x), number(0))
}

/// `v_y == 0 && v_after == 0`
fn is_there(alloc: Global) -> Result<CExpr, AllocError>
    ensures { IfOk result (λ e. e ≡ spec.is_there) }
{
    let here = is_zero(alloc, b"v_y")?;
    let now = is_zero(alloc, b"v_after")?;
    binary(alloc, COp::And, here, now)
}

/// Where the values of a comparison and of its slope lie to 0.
pub fn push_signs(alloc: Global, code: &mut List<CStmt>, p: u32, n: u32) -> Result<(), AllocError>
    requires { n ≤ 200 }
    ensures { OnOk result (code.new ≡ code.old ++ spec.signs p (places n)) }
{
    let at = own(alloc, AT)?;
    code.push(compares(alloc, p, b"v_x", at, number(ZERO))?)?;
    let slope = own(alloc, slope_at(n))?;
    code.push(compares(alloc, p, b"v_y", slope, number(ZERO))?)
}

/// Behind the comparison with a crossing: at it, or beyond it.
fn reached(alloc: Global, p: u32, n: u32) -> Result<List<CStmt>, AllocError>
    requires { n ≤ 200 }
    ensures { IfOk result (λ ss. ss ≡ spec.reached p (places n)) }
{
    let test = is_there(alloc)?;
    let there = copies(alloc, p, n, number(ZERO))?;
    let slope = own(alloc, slope_at(n))?;
    let beyond = copies(alloc, p, n, slope)?;
    single(alloc, if_else(test, there, beyond))
}

/// For a comparison with a crossing.
fn crossed(alloc: Global, p: u32, n: u32) -> Result<List<CStmt>, AllocError>
    requires { n ≤ 200 }
    ensures { IfOk result (λ ss. ss ≡ spec.crossed p (places n)) }
{
    let mut code = List::new(alloc);
    let crossing = own(alloc, crossing_at(n))?;
    code.push(compares(alloc, p, b"v_y", number(moment_at(n)), crossing)?)?;
    let test = binary(alloc, COp::Less, local(b"v_y"), number(0))?;
    let at = own(alloc, AT)?;
    let before = copies(alloc, p, n, at)?;
    let behind = reached(alloc, p, n)?;
    code.push(if_else(test, before, behind))?;
    Ok(code)
}

/// For one without.
fn uncrossed(alloc: Global, p: u32, n: u32) -> Result<List<CStmt>, AllocError>
    requires { n ≤ 200 }
    ensures { IfOk result (λ ss. ss ≡ spec.uncrossed p (places n)) }
{
    let mut code = List::new(alloc);
    code.push(compares(alloc, p, b"v_y", number(moment_at(n)), number(ZERO))?)?;
    let apart = binary(alloc, COp::NotEqual, local(b"v_x"), number(0))?;
    let there = is_there(alloc)?;
    let test = binary(alloc, COp::Or, apart, there)?;
    let at = own(alloc, AT)?;
    let first = copies(alloc, p, n, at)?;
    let slope = own(alloc, slope_at(n))?;
    let second = copies(alloc, p, n, slope)?;
    code.push(if_else(test, first, second))?;
    Ok(code)
}

/// `v_x * v_y < 0`
pub fn are_opposite(alloc: Global) -> Result<CExpr, AllocError>
    ensures { IfOk result (λ e. e ≡ spec.are_opposite) }
{
    let product = binary(alloc, COp::Mul, local(b"v_x"), local(b"v_y"))?;
    binary(alloc, COp::Less, product, number(0))
}

/// `x = x + 1;`
pub fn adds_one(alloc: Global, x: &[u8]) -> Result<CStmt, AllocError>
    requires { is_name x.now ≡ true }
    ensures { IfOk result (λ s. s ≡ search.adds_one x.now) }
{
    let sum = binary(alloc, COp::Add, local(x), number(1))?;
    Ok(set(x, sum))
}

/// For one comparison.
fn push_one_sign(alloc: Global, code: &mut List<CStmt>, p: u32, n: u32) -> Result<(), AllocError>
    requires { n ≤ 200 }
    ensures { OnOk result (code.new ≡ code.old ++ spec.one_sign p (places n)) }
{
    push_signs(alloc, code, p, n)?;
    let test = are_opposite(alloc)?;
    let with = crossed(alloc, p, n)?;
    let without = uncrossed(alloc, p, n)?;
    code.push(if_else(test, with, without))?;
    code.push(adds_one(alloc, b"v_i")?)
}

/// `while (v_i < n) { .. }` for all of them.
pub fn push_all_signs(
    alloc: Global,
    code: &mut List<CStmt>,
    p: u32,
    n: u32,
) -> Result<(), AllocError>
    requires { n ≤ 200 }
    ensures { OnOk result (code.new ≡ code.old ++ spec.all_signs p (places n) n) }
{
    let test = binary(alloc, COp::Less, local(b"v_i"), number(n))?;
    let mut body = List::new(alloc);
    push_one_sign(alloc, &mut body, p, n)?;
    code.push(while_do(test, body))
}
