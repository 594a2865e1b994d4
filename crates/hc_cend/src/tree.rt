//! The code that evaluates the tree of a condition.

ghost use Rattle.std.specs.Prelude.{◌≡◌, ◌<◌, ◌≤◌, ◌^◌, ◌+◌, ◌++◌, ◌∷◌, [], IfOk, OnOk};
ghost use Rattle.hc_term.specs.Profile.{nodes_in};
ghost use Rattle.hc_cend.specs.Tree as spec;
ghost use Rattle.hc_cend.specs.Law.{places};

use crate::places::ZERO;
use crate::sign::compares;
use hc_cast::{COp, CStmt, Primitive};
use hc_cbuild::{
    binary, if_else, if_then, local, local_is, move_register, number, numbers, prim, single,
    take_prim,
};
use hc_list::List;
use hc_term::{Comparison, Cond};
use std::alloc::{AllocError, Global};

/// `fr_set(p, d, k, 1);`
pub fn puts(alloc: Global, p: u32, d: u32, k: u32) -> Result<CStmt, AllocError>
    ensures { IfOk result (λ s. s ≡ spec.puts p d k) }
{
    let arguments = numbers(alloc, &[p, d, k, 1])?;
    Ok(prim(Primitive::FrSet, arguments))
}

/// The sign of C that compares so.
fn sign_for(how: Comparison) -> COp
    ensures { result ≡ spec.sign_for how }
{
    match how {
        Comparison::Less => COp::Less,
        Comparison::AtMost => COp::AtMost,
        Comparison::Equal => COp::Equal,
        Comparison::NotEqual => COp::NotEqual,
        Comparison::AtLeast => COp::AtLeast,
        Comparison::Greater => COp::Greater,
    }
}

/// `v_x = fr_sign(p, d);`
pub fn reads(alloc: Global, p: u32, d: u32) -> Result<CStmt, AllocError>
    ensures { IfOk result (λ s. s ≡ spec.reads p d) }
{
    let arguments = numbers(alloc, &[p, d])?;
    Ok(take_prim(b"v_x", Primitive::FrSign, arguments))
}

/// Register `d` becomes the answer of a comparison whose sign stands in register `s`.
fn push_leaf(
    alloc: Global,
    code: &mut List<CStmt>,
    p: u32,
    n: u32,
    how: Comparison,
    s: u32,
    d: u32,
) -> Result<(), AllocError>
    ensures { OnOk result (code.new ≡ code.old ++ spec.leaf p (places n) how s d) }
{
    code.push(compares(alloc, p, b"v_x", number(s), number(ZERO))?)?;
    let test = binary(alloc, sign_for(how), local(b"v_x"), number(0))?;
    let yes = single(alloc, puts(alloc, p, d, 1)?)?;
    let no = single(alloc, puts(alloc, p, d, 0)?)?;
    code.push(if_else(test, yes, no))
}

/// Register `d` becomes the other truth.
fn push_turns_over(alloc: Global, code: &mut List<CStmt>, p: u32, d: u32) -> Result<(), AllocError>
    ensures { OnOk result (code.new ≡ code.old ++ spec.turns_over p d) }
{
    code.push(reads(alloc, p, d)?)?;
    let test = local_is(alloc, b"v_x", 1)?;
    let yes = single(alloc, puts(alloc, p, d, 0)?)?;
    let no = single(alloc, puts(alloc, p, d, 1)?)?;
    code.push(if_else(test, yes, no))
}

/// Register `d` becomes the next one, where its truth is `k`.
fn push_takes_second(
    alloc: Global,
    code: &mut List<CStmt>,
    p: u32,
    d: u32,
    k: u32,
) -> Result<(), AllocError>
    requires { d + 1 < 2 ^ 32 }
    ensures { OnOk result (code.new ≡ code.old ++ spec.takes_second p d k) }
{
    code.push(reads(alloc, p, d)?)?;
    let test = local_is(alloc, b"v_x", k)?;
    let yes = single(alloc, move_register(alloc, p, d, d + 1)?)?;
    code.push(if_then(test, yes))
}

/// The code that puts the truth of a condition into register `d`, behind other code, where the signs of its comparisons stand from register `s` on;
/// and how many comparisons it has.
pub fn push_tree(
    alloc: Global,
    code: &mut List<CStmt>,
    p: u32,
    n: u32,
    s: u32,
    d: u32,
    cond: &Cond,
) -> Result<u32, AllocError>
    requires { (s + nodes_in cond.now < 2 ^ 31) × (d + nodes_in cond.now < 2 ^ 31) }
    ensures { IfOk result (λ size. (code.new ≡ code.old ++ (spec.tree p (places n) cond.now).code s d) × (size ≡ (spec.tree p (places n) cond.now).size) × (size ≤ nodes_in cond.now)) }
{
    match cond {
        Cond::True => {
            code.push(puts(alloc, p, d, 1)?)?;
            Ok(0)
        }
        Cond::False => {
            code.push(puts(alloc, p, d, 0)?)?;
            Ok(0)
        }
        Cond::Compare(how, _, _) => {
            push_leaf(alloc, code, p, n, *how, s, d)?;
            Ok(1)
        }
        Cond::Not(part) => {
            let size = push_tree(alloc, code, p, n, s, d, part.get())?;
            push_turns_over(alloc, code, p, d)?;
            Ok(size)
        }
        Cond::And(left, right) => {
            let first = push_tree(alloc, code, p, n, s, d, left.get())?;
            let second = push_tree(alloc, code, p, n, s + first, d + 1, right.get())?;
            push_takes_second(alloc, code, p, d, 1)?;
            Ok(first + second)
        }
        Cond::Or(left, right) => {
            let first = push_tree(alloc, code, p, n, s, d, left.get())?;
            let second = push_tree(alloc, code, p, n, s + first, d + 1, right.get())?;
            push_takes_second(alloc, code, p, d, 0)?;
            Ok(first + second)
        }
    }
}
