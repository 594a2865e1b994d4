//! The code of the search, candidate by candidate.

ghost use Rattle.std.specs.Prelude.{None, ◌≡◌, ◌<◌, ◌≤◌, ◌^◌, ◌+◌, ◌++◌, ◌∷◌, [], IfOk, OnOk, true};
ghost use Rattle.hc_cbuild.specs.Names.{is_name};
ghost use Rattle.hc_term.specs.Profile.{nodes_in};
ghost use Rattle.hc_cast.specs.declared.stmt.CStmt.TheVariants as form;
ghost use Rattle.hc_cend.specs.Searching as searching;
ghost use Rattle.hc_cend.specs.Written as written;
ghost use Rattle.hc_cend.specs.Search as spec;
ghost use Rattle.hc_cend.specs.Law.{places};

use crate::places::{best_at, crossing_at, moment_at, sign_at, truth_at};
use crate::sign::{adds_one, are_opposite, compares, own, push_all_signs, push_signs};
use crate::tree::{push_tree, puts, reads};
use hc_cast::{CExpr, COp, CStmt, Primitive};
use hc_cbuild::{binary, if_else, if_then, local, local_is, number, prim, set, single, while_do};
use hc_list::List;
use hc_term::Cond;
use std::alloc::{AllocError, Global};

/// A local becomes a number.
pub fn sets(x: &[u8], k: u32) -> CStmt
    requires { is_name x.now ≡ true }
    ensures { result ≡ spec.set x.now k }
{
    set(x, number(k))
}

/// `x < k`
pub fn is_below(alloc: Global, x: &[u8], k: u32) -> Result<CExpr, AllocError>
    requires { is_name x.now ≡ true }
    ensures { IfOk result (λ e. e ≡ spec.is_below x.now k) }
{
    binary(alloc, COp::Less, local(x), number(k))
}

/// Register `d` becomes the register that an expression names.
pub fn moves(alloc: Global, p: u32, d: u32, x: CExpr) -> Result<CStmt, AllocError>
    ensures { IfOk result (λ s. s ≡ spec.moves p d x) }
{
    let mut arguments = List::new(alloc);
    arguments.push(number(p))?;
    arguments.push(number(d))?;
    arguments.push(number(p))?;
    arguments.push(x)?;
    Ok(prim(Primitive::FrMove, arguments))
}

/// `if (v_x == 0) { v_fails = 1; }`
fn notes_failure(alloc: Global) -> Result<CStmt, AllocError>
    ensures { IfOk result (λ s. s ≡ form.If (written.is_number searching.v_x 0) (spec.set searching.v_fails 1 ∷ []) None) }
{
    let test = local_is(alloc, b"v_x", 0)?;
    let fails = single(alloc, sets(b"v_fails", 1))?;
    Ok(if_then(test, fails))
}

/// `v_after = 1;`
fn goes_after() -> CStmt
    ensures { result ≡ spec.set searching.v_after 1 }
{
    sets(b"v_after", 1)
}

/// `v_turn = v_turn + 1;`
fn next_turn(alloc: Global) -> Result<CStmt, AllocError>
    ensures { IfOk result (λ s. s ≡ spec.adds_one searching.v_turn) }
{
    adds_one(alloc, b"v_turn")
}

/// What is noted of one point.
fn push_notes(alloc: Global, code: &mut List<CStmt>, p: u32, n: u32) -> Result<(), AllocError>
    requires { n ≤ 200 }
    ensures { OnOk result (code.new ≡ code.old ++ spec.notes p (places n)) }
{
    code.push(reads(alloc, p, truth_at(n))?)?;
    code.push(notes_failure(alloc)?)?;
    code.push(goes_after())?;
    code.push(next_turn(alloc)?)
}

/// The truth of the domain at one point.
fn push_point(
    alloc: Global,
    code: &mut List<CStmt>,
    p: u32,
    n: u32,
    cond: &Cond,
) -> Result<(), AllocError>
    requires { (n ≤ 200) × (nodes_in cond.now ≤ 200) }
    ensures { OnOk result (code.new ≡ code.old ++ spec.point p (places n) n cond.now) }
{
    code.push(sets(b"v_i", 0))?;
    push_all_signs(alloc, code, p, n)?;
    push_tree(alloc, code, p, n, sign_at(n), truth_at(n), cond)?;
    push_notes(alloc, code, p, n)
}

/// A candidate at both its points.
fn push_trial(
    alloc: Global,
    code: &mut List<CStmt>,
    p: u32,
    n: u32,
    cond: &Cond,
) -> Result<(), AllocError>
    requires { (n ≤ 200) × (nodes_in cond.now ≤ 200) }
    ensures { OnOk result (code.new ≡ code.old ++ spec.trial p (places n) n cond.now) }
{
    code.push(sets(b"v_fails", 0))?;
    code.push(sets(b"v_after", 0))?;
    code.push(sets(b"v_turn", 0))?;
    let test = is_below(alloc, b"v_turn", 2)?;
    let mut body = List::new(alloc);
    push_point(alloc, &mut body, p, n, cond)?;
    code.push(while_do(test, body))
}

/// The crossing of comparison `v_i` is the candidate.
fn takes_crossing(alloc: Global, p: u32, n: u32) -> Result<List<CStmt>, AllocError>
    requires { n ≤ 200 }
    ensures { IfOk result (λ ss. ss ≡ spec.takes_crossing p (places n)) }
{
    let mut code = List::new(alloc);
    let crossing = own(alloc, crossing_at(n))?;
    code.push(moves(alloc, p, moment_at(n), crossing)?)?;
    code.push(sets(b"v_x", 1))?;
    Ok(code)
}

/// Now is the candidate.
fn takes_now(alloc: Global, p: u32, n: u32) -> Result<List<CStmt>, AllocError>
    requires { n ≤ 200 }
    ensures { IfOk result (λ ss. ss ≡ spec.takes_now p (places n)) }
{
    let mut code = List::new(alloc);
    code.push(puts(alloc, p, moment_at(n), 0)?)?;
    code.push(sets(b"v_x", 1))?;
    Ok(code)
}

/// The crossing, if comparison `v_i` has one.
fn takes_later(alloc: Global, p: u32, n: u32) -> Result<List<CStmt>, AllocError>
    requires { n ≤ 200 }
    ensures { IfOk result (λ ss. ss ≡ spec.takes_later p (places n)) }
{
    let mut code = List::new(alloc);
    push_signs(alloc, &mut code, p, n)?;
    let test = are_opposite(alloc)?;
    let some = takes_crossing(alloc, p, n)?;
    let none = single(alloc, sets(b"v_x", 0))?;
    code.push(if_else(test, some, none))?;
    Ok(code)
}

/// The candidate of number `v_j`.
fn push_chooses(alloc: Global, code: &mut List<CStmt>, p: u32, n: u32) -> Result<(), AllocError>
    requires { n ≤ 200 }
    ensures { OnOk result (code.new ≡ code.old ++ spec.chooses p (places n)) }
{
    let test = local_is(alloc, b"v_j", 0)?;
    let now = takes_now(alloc, p, n)?;
    let later = takes_later(alloc, p, n)?;
    code.push(if_else(test, now, later))
}

/// Whether it is below the best so far.
fn push_betters(alloc: Global, code: &mut List<CStmt>, p: u32, n: u32) -> Result<(), AllocError>
    requires { n ≤ 200 }
    ensures { OnOk result (code.new ≡ code.old ++ spec.betters p (places n)) }
{
    let there = local_is(alloc, b"v_x", 1)?;
    let found = local_is(alloc, b"v_truth", 1)?;
    let test = binary(alloc, COp::And, there, found)?;
    let mut body = List::new(alloc);
    body.push(compares(alloc, p, b"v_y", number(moment_at(n)), number(best_at(n)))?)?;
    let below = is_below(alloc, b"v_y", 0)?;
    body.push(set(b"v_x", below))?;
    code.push(if_then(test, body))
}

/// It takes the place of the best so far, where it passes.
fn push_keeps(alloc: Global, code: &mut List<CStmt>, p: u32, n: u32) -> Result<(), AllocError>
    requires { n ≤ 200 }
    ensures { OnOk result (code.new ≡ code.old ++ spec.keeps p (places n)) }
{
    let test = local_is(alloc, b"v_fails", 1)?;
    let mut body = List::new(alloc);
    body.push(moves(alloc, p, best_at(n), number(moment_at(n)))?)?;
    body.push(sets(b"v_truth", 1))?;
    code.push(if_then(test, body))
}

/// It is tried, where there is one that is below.
fn push_tries(
    alloc: Global,
    code: &mut List<CStmt>,
    p: u32,
    n: u32,
    cond: &Cond,
) -> Result<(), AllocError>
    requires { (n ≤ 200) × (nodes_in cond.now ≤ 200) }
    ensures { OnOk result (code.new ≡ code.old ++ spec.tries p (places n) n cond.now) }
{
    let test = local_is(alloc, b"v_x", 1)?;
    let mut body = List::new(alloc);
    push_trial(alloc, &mut body, p, n, cond)?;
    push_keeps(alloc, &mut body, p, n)?;
    code.push(if_then(test, body))
}

/// One candidate.
fn push_candidate(
    alloc: Global,
    code: &mut List<CStmt>,
    p: u32,
    n: u32,
    cond: &Cond,
) -> Result<(), AllocError>
    requires { (n ≤ 200) × (nodes_in cond.now ≤ 200) }
    ensures { OnOk result (code.new ≡ code.old ++ spec.candidate p (places n) n cond.now) }
{
    push_chooses(alloc, code, p, n)?;
    push_betters(alloc, code, p, n)?;
    push_tries(alloc, code, p, n, cond)?;
    code.push(set(b"v_i", local(b"v_j")))?;
    code.push(adds_one(alloc, b"v_j")?)
}

/// All of them.
pub fn push_search(
    alloc: Global,
    code: &mut List<CStmt>,
    p: u32,
    n: u32,
    cond: &Cond,
) -> Result<(), AllocError>
    requires { (n ≤ 200) × (nodes_in cond.now ≤ 200) }
    ensures { OnOk result (code.new ≡ code.old ++ spec.search p (places n) n cond.now) }
{
    code.push(sets(b"v_truth", 0))?;
    code.push(sets(b"v_i", 0))?;
    code.push(sets(b"v_j", 0))?;
    let test = is_below(alloc, b"v_j", n + 1)?;
    let mut body = List::new(alloc);
    push_candidate(alloc, &mut body, p, n, cond)?;
    code.push(while_do(test, body))
}
