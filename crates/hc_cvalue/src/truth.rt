//! The code of a condition.

ghost use Rattle.std.specs.Prelude.{◌≡◌, ◌<◌, ◌^◌, ◌+◌, ◌++◌, ◌∷◌, [], OnOk};
ghost use Rattle.hc_rational.specs.Words.{zero_ℚ, one_ℚ};
ghost use Rattle.hc_term.specs.Profile.{nodes_in};
ghost use Rattle.hc_cvalue.specs.Truths.{truth_code, test_code};
ghost use Rattle.hc_cvalue.specs.Truths as spec;
ghost use Rattle.hc_cbuild.specs.Makes.{Makes};
ghost use Rattle.hc_cbuild.specs.Written as written;

use crate::value::push_value;
use hc_cast::{CExpr, COp, CStmt, Primitive};
use hc_cbuild::{
    binary, differs, if_else, if_then, local, local_is, move_register, number, numbers, prim,
    set_number, set_register, single, take_prim,
};
use hc_frac::Frac;
use hc_list::List;
use hc_term::{Comparison, Cond};
use std::alloc::{AllocError, Global};

/// The sign of C that compares so.
fn compared_by(how: Comparison) -> COp
    ensures { result ≡ spec.compared_by how }
{
    match how {
        Comparison::Less => COp::Less,
        Comparison::AtMost => COp::AtMost,
        Comparison::Equal => COp::Equal,
        Comparison::NotEqual => COp::NotEqual,
        Comparison::AtLeast => COp::AtLeast,
        Comparison::Greater => COp::Greater,
    }
}

/// `fr_set(p, d, 1, 1);`
#[tactic(auto, using(crate::proofs::One::sets_one))]
fn set_one(alloc: Global, p: u32, d: u32) -> Result<CStmt, AllocError>
    ensures { Makes result (written.set_register p d one_ℚ) }
{
    let arguments = numbers(alloc, &[p, d, 1, 1])?;
    Ok(prim(Primitive::FrSet, arguments))
}

/// `fr_set(p, d, 0, 1);`
fn set_zero(alloc: Global, p: u32, d: u32) -> Result<CStmt, AllocError>
    ensures { Makes result (written.set_register p d zero_ℚ) }
{
    set_register(alloc, p, d, Frac::zero())
}

/// Register `d` becomes 1 where a test holds, and else 0.
fn set_by(alloc: Global, p: u32, d: u32, test: CExpr) -> Result<CStmt, AllocError>
    ensures { Makes result (spec.set_by p d test) }
{
    let yes = single(alloc, set_one(alloc, p, d)?)?;
    let no = single(alloc, set_zero(alloc, p, d)?)?;
    Ok(if_else(test, yes, no))
}

/// `v_truth = fr_sign(p, d);`
fn look(alloc: Global, p: u32, d: u32) -> Result<CStmt, AllocError>
    ensures { Makes result (spec.look p d) }
{
    let arguments = numbers(alloc, &[p, d])?;
    Ok(take_prim(b"v_truth", Primitive::FrSign, arguments))
}

/// Register `d` becomes the answer of a comparison of registers `d` and `d + 1`.
fn push_compares(
    alloc: Global,
    code: &mut List<CStmt>,
    p: u32,
    how: Comparison,
    d: u32,
) -> Result<(), AllocError>
    requires { d + 1 < 2 ^ 32 }
    ensures { OnOk result (code.new ≡ code.old ++ spec.compares p how d) }
{
    let arguments = numbers(alloc, &[p, d, d + 1])?;
    code.push(take_prim(b"v_truth", Primitive::FrCmp, arguments))?;
    let test = binary(alloc, compared_by(how), local(b"v_truth"), number(0))?;
    code.push(set_by(alloc, p, d, test)?)?;
    code.push(set_number(b"v_truth", 0))
}

/// Register `d` becomes the other truth.
fn push_inverts(alloc: Global, code: &mut List<CStmt>, p: u32, d: u32) -> Result<(), AllocError>
    ensures { OnOk result (code.new ≡ code.old ++ spec.inverts p d) }
{
    code.push(look(alloc, p, d)?)?;
    let test = local_is(alloc, b"v_truth", 0)?;
    code.push(set_by(alloc, p, d, test)?)
}

/// Register `d` becomes whether both of `d` and `d + 1` hold.
fn push_conjoins(alloc: Global, code: &mut List<CStmt>, p: u32, d: u32) -> Result<(), AllocError>
    requires { d + 1 < 2 ^ 32 }
    ensures { OnOk result (code.new ≡ code.old ++ spec.conjoins p d) }
{
    code.push(look(alloc, p, d)?)?;
    let test = differs(alloc, local(b"v_truth"), number(0))?;
    let yes = single(alloc, move_register(alloc, p, d, d + 1)?)?;
    code.push(if_then(test, yes))
}

/// Register `d` becomes whether one of `d` and `d + 1` holds.
fn push_disjoins(alloc: Global, code: &mut List<CStmt>, p: u32, d: u32) -> Result<(), AllocError>
    requires { d + 1 < 2 ^ 32 }
    ensures { OnOk result (code.new ≡ code.old ++ spec.disjoins p d) }
{
    code.push(look(alloc, p, d)?)?;
    let test = local_is(alloc, b"v_truth", 0)?;
    let yes = single(alloc, move_register(alloc, p, d, d + 1)?)?;
    code.push(if_then(test, yes))
}

/// The code that puts the truth of a condition into register `d` of row `p`, behind other code.
pub fn push_truth(
    alloc: Global,
    code: &mut List<CStmt>,
    p: u32,
    d: u32,
    cond: &Cond,
) -> Result<(), AllocError>
    requires { d + nodes_in cond.now < 2 ^ 31 }
    ensures { OnOk result (code.new ≡ code.old ++ truth_code p d cond.now) }
{
    match cond {
        Cond::True => code.push(set_one(alloc, p, d)?),
        Cond::False => code.push(set_zero(alloc, p, d)?),
        Cond::Compare(how, left, right) => {
            push_value(alloc, code, p, d, left.get())?;
            push_value(alloc, code, p, d + 1, right.get())?;
            push_compares(alloc, code, p, *how, d)
        }
        Cond::Not(part) => {
            push_truth(alloc, code, p, d, part.get())?;
            push_inverts(alloc, code, p, d)
        }
        Cond::And(left, right) => {
            push_truth(alloc, code, p, d, left.get())?;
            push_truth(alloc, code, p, d + 1, right.get())?;
            push_conjoins(alloc, code, p, d)
        }
        Cond::Or(left, right) => {
            push_truth(alloc, code, p, d, left.get())?;
            push_truth(alloc, code, p, d + 1, right.get())?;
            push_disjoins(alloc, code, p, d)
        }
    }
}

/// The same, with the truth in `v_truth`.
pub fn push_test(
    alloc: Global,
    code: &mut List<CStmt>,
    p: u32,
    d: u32,
    cond: &Cond,
) -> Result<(), AllocError>
    requires { d + nodes_in cond.now < 2 ^ 31 }
    ensures { OnOk result (code.new ≡ code.old ++ test_code p d cond.now) }
{
    push_truth(alloc, code, p, d, cond)?;
    code.push(look(alloc, p, d)?)
}
