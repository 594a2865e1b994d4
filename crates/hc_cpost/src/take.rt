//! Taking over.

ghost use Rattle.std.specs.Prelude.{◌≡◌, ◌<◌, ◌≤◌, ◌+◌, ◌*◌, ◌^◌, ◌∷◌, ◌++◌, [], true, length, IfOk, OnOk};
ghost use Rattle.std.specs.List.{list_all};
ghost use Rattle.hc_cbuild.specs.Names.{is_name};
ghost use Rattle.hc_csection.specs.Words.{ways_of};
ghost use Rattle.hc_cpost.specs.Parts.{below, own_registers};
ghost use Rattle.hc_cpost.specs.Written.{is_small};
ghost use Rattle.hc_cpost.specs.Taking as spec;

use crate::post::{case, switch};
use crate::words::{calls, either, elem, first_of, less, local, number, set, some, when};
use hc_cast::{CCase, CExpr, CStmt};
use hc_code::{Instr, ProcCode, Way};
use hc_list::List;
use std::alloc::{AllocError, Global};

/// Register `d` comes from process `p`'s part of the common row.
fn fetch(alloc: Global, p: u32, d: u32) -> Result<CStmt, AllocError>
    requires { p * 320 + d < 2 ^ 32 }
    ensures { IfOk result (λ s. s ≡ spec.fetch p d) }
{
    let mut arguments = List::new(alloc);
    arguments.push(number(p))?;
    arguments.push(number(d))?;
    arguments.push(number(64))?;
    arguments.push(number(p * 320 + d))?;
    Ok(calls(b"fr_move", arguments))
}

/// The clock comes from the common row.
fn fetch_clock(alloc: Global, p: u32) -> Result<CStmt, AllocError>
    ensures { IfOk result (λ s. s ≡ spec.fetch_clock p) }
{
    let mut arguments = List::new(alloc);
    arguments.push(number(p))?;
    arguments.push(number(64))?;
    arguments.push(number(64))?;
    arguments.push(number(64))?;
    Ok(calls(b"fr_move", arguments))
}

/// The variables' registers, the last first.
#[tactic(auto, using(crate::proofs::Built::fetched_step))]
fn fetch_variables(alloc: Global, found: &mut List<CStmt>, p: u32, n: u32) -> Result<(), AllocError>
    requires low { p < 64 }
    requires few { n ≤ 64 }
    ensures { OnOk result (found.new ≡ found.old ++ spec.fetches p (below n)) }
{
    if n == 0 {
        Ok(())
    } else {
        found.push(fetch(alloc, p, n - 1)?)?;
        fetch_variables(alloc, found, p, n - 1)
    }
}

/// Bound and variables.
fn own_fetches(alloc: Global, p: u32, n: u32) -> Result<List<CStmt>, AllocError>
    requires low { p < 64 }
    requires few { n ≤ 64 }
    ensures { IfOk result (λ ss. ss ≡ spec.fetches p (own_registers n)) }
{
    let mut found = List::new(alloc);
    found.push(fetch(alloc, p, 66)?)?;
    fetch_variables(alloc, &mut found, p, n)?;
    Ok(found)
}

/// The number of the branch by which the process has met, and 1, or 0.
fn met_of(alloc: Global, p: u32) -> Result<CExpr, AllocError>
    ensures { IfOk result (λ e. e ≡ spec.met_of p) }
{
    elem(alloc, b"a_met", number(p))
}

/// The process goes on at this place.
fn follower(alloc: Global, next: u32) -> Result<List<CStmt>, AllocError>
    ensures { IfOk result (λ ss. ss ≡ spec.follower next) }
{
    let mut found = List::new(alloc);
    found.push(set(b"v_place", number(next)))?;
    Ok(found)
}

/// The cases of the branches.
#[tactic(auto, using(crate::proofs::Built::follow_step))]
fn follow_cases(alloc: Global, ways: &[Way]) -> Result<List<CCase>, AllocError>
    requires few { length ways.now ≤ 32 }
    ensures { IfOk result (λ cs. cs ≡ spec.follow_cases 1 ways.now) }
{
    let mut found = List::new(alloc);
    for (at, way) in ways.iter().enumerate() {
        let body = follower(alloc, way.next)?;
        found.push(case(at as u32 + 1, body))?;
    }
    Ok(found)
}

/// The place behind the branch by which the process has met.
fn follows(alloc: Global, p: u32, ways: &[Way]) -> Result<CStmt, AllocError>
    requires few { length ways.now ≤ 32 }
    ensures { IfOk result (λ s. s ≡ spec.follows p ways.now) }
{
    let met = met_of(alloc, p)?;
    let cases = follow_cases(alloc, ways)?;
    Ok(switch(alloc, met, cases))
}

/// The case of an instruction.
fn take_case(alloc: Global, p: u32, instr: &Instr) -> Result<List<CStmt>, AllocError>
    requires few { length (ways_of instr.now) ≤ 32 }
    ensures { IfOk result (λ ss. ss ≡ spec.take_case p instr.now) }
{
    match instr {
        Instr::Meet { branches } => {
            let mut found = List::new(alloc);
            found.push(follows(alloc, p, branches.as_slice())?)?;
            Ok(found)
        }
        Instr::Evolve { branches, .. } => {
            let mut found = List::new(alloc);
            found.push(follows(alloc, p, branches.as_slice())?)?;
            Ok(found)
        }
        _ => Ok(List::new(alloc)),
    }
}

/// The cases of all places.
fn take_cases(alloc: Global, p: u32, code: &ProcCode) -> Result<List<CCase>, AllocError>
    requires small { list_all is_small code.now.instrs ≡ true }
    ensures { IfOk result (λ cs. cs ≡ spec.take_cases p 0 code.now.instrs) }
{
    let mut found = List::new(alloc);
    for place in 0..code.len() {
        let body = take_case(alloc, p, code.at(place))?;
        found.push(case(place, body))?;
    }
    Ok(found)
}

/// The process goes on behind the branch by which it has met.
fn goes_again(alloc: Global, p: u32, code: &ProcCode) -> Result<List<CStmt>, AllocError>
    requires small { list_all is_small code.now.instrs ≡ true }
    ensures { IfOk result (λ ss. ss ≡ spec.goes_again p code.now.instrs) }
{
    let cases = take_cases(alloc, p, code)?;
    let mut found = List::new(alloc);
    found.push(set(b"v_mark", number(0)))?;
    found.push(set(b"v_bounded", number(0)))?;
    found.push(switch(alloc, local(b"v_place"), cases))?;
    Ok(found)
}

/// Whether a stop stands or the process has ended.
fn sets_done(alloc: Global, p: u32) -> Result<CStmt, AllocError>
    ensures { IfOk result (λ s. s ≡ spec.sets_done p) }
{
    let stop = some(alloc, first_of(alloc, b"a_stop")?)?;
    let phase = elem(alloc, b"a_phase", number(p))?;
    let ended = less(alloc, number(1), phase)?;
    Ok(set(b"v_done", either(alloc, stop, ended)?))
}

/// What a process takes over that goes on.
fn take_parts(alloc: Global, p: u32, n: u32, code: &ProcCode) -> Result<List<CStmt>, AllocError>
    requires low { p < 64 }
    requires few { n ≤ 64 }
    requires small { list_all is_small code.now.instrs ≡ true }
    ensures { IfOk result (λ ss. ss ≡ spec.take_parts p n code.now.instrs) }
{
    let again = goes_again(alloc, p, code)?;
    let met = some(alloc, met_of(alloc, p)?)?;
    let mut behind = List::new(alloc);
    behind.push(fetch_clock(alloc, p)?)?;
    behind.push(when(met, again))?;
    let mut found = own_fetches(alloc, p, n)?;
    found.append(behind)?;
    Ok(found)
}

/// Taking over: process `p`, of `n` variables and with this code, goes on from what has become of it, or is done.
pub fn take_code(alloc: Global, p: u32, n: u32, code: &ProcCode) -> Result<List<CStmt>, AllocError>
    requires low { p < 64 }
    requires few { n ≤ 64 }
    requires small { list_all is_small code.now.instrs ≡ true }
    ensures { IfOk result (λ ss. ss ≡ spec.take_code p n code.now.instrs) }
{
    let parts = take_parts(alloc, p, n, code)?;
    let goes_on = less(alloc, local(b"v_done"), number(1))?;
    let mut found = List::new(alloc);
    found.push(sets_done(alloc, p)?)?;
    found.push(when(goes_on, parts))?;
    Ok(found)
}
