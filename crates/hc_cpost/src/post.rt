//! Posting.

ghost use Rattle.std.specs.Prelude.{◌≡◌, ◌<◌, ◌≤◌, ◌+◌, ◌*◌, ◌^◌, ◌∷◌, ◌++◌, [], true, nat_lt, length, IfOk, OnOk};
ghost use Rattle.std.specs.List.{list_all};
ghost use Rattle.hc_cbuild.specs.Names.{is_name};
ghost use Rattle.hc_cbuild.specs.Written as word;
ghost use Rattle.hc_code.specs.Kept.{ios_of};
ghost use Rattle.hc_cpost.specs.Parts.{below, own_registers, rate_registers, sent_registers, all_sent_registers, ios_at, rates_at};
ghost use Rattle.hc_cast.specs.declared.stmt.CStmt.TheVariants.{Switch};
ghost use Rattle.hc_clogic.specs.Cases.{case_of};
ghost use Rattle.hc_cpost.specs.Written.{is_small};
ghost use Rattle.hc_cpost.specs.Written as spec;

use crate::words::{both, calls, local, number, same, set, store, takes, when, when_else};
use hc_cast::{CCase, CExpr, CStmt};
use hc_code::{Instr, ProcCode, Way};
use hc_list::List;
use hc_term::{Io, Rate};
use std::alloc::{AllocError, Global};

/// Register `d` of process `p` goes to its part of the common row.
pub(crate) fn copy(alloc: Global, p: u32, d: u32) -> Result<CStmt, AllocError>
    requires { p * 320 + d < 2 ^ 32 }
    ensures { IfOk result (λ s. s ≡ spec.copy p d) }
{
    let mut arguments = List::new(alloc);
    arguments.push(number(64))?;
    arguments.push(number(p * 320 + d))?;
    arguments.push(number(p))?;
    arguments.push(number(d))?;
    Ok(calls(b"fr_move", arguments))
}

/// The process's bound and phase, and that it hasn't met.
fn phases(alloc: Global, p: u32) -> Result<List<CStmt>, AllocError>
    ensures { IfOk result (λ ss. ss ≡ spec.phases p) }
{
    let mut found = List::new(alloc);
    found.push(store(b"a_bounded", number(p), local(b"v_bounded")))?;
    found.push(store(b"a_met", number(p), number(0)))?;
    found.push(store(b"a_phase", number(p), local(b"v_mark")))?;
    Ok(found)
}

/// The variables' registers, the last first.
#[tactic(auto, using(crate::proofs::Built::variables_step))]
fn put_variables(alloc: Global, found: &mut List<CStmt>, p: u32, n: u32) -> Result<(), AllocError>
    requires low { p < 64 }
    requires few { n ≤ 64 }
    ensures { OnOk result (found.new ≡ found.old ++ spec.copies p (below n)) }
{
    if n == 0 {
        Ok(())
    } else {
        found.push(copy(alloc, p, n - 1)?)?;
        put_variables(alloc, found, p, n - 1)
    }
}

/// Bound and variables.
fn own_copies(alloc: Global, p: u32, n: u32) -> Result<List<CStmt>, AllocError>
    requires low { p < 64 }
    requires few { n ≤ 64 }
    ensures { IfOk result (λ ss. ss ≡ spec.copies p (own_registers n)) }
{
    let mut found = List::new(alloc);
    found.push(copy(alloc, p, 66)?)?;
    put_variables(alloc, &mut found, p, n)?;
    Ok(found)
}

/// The code of a branch.
fn code_stmts(alloc: Global, p: u32, g: u32, io: &Io) -> Result<List<CStmt>, AllocError>
    requires low { p < 64 }
    requires few { g < 32 }
    ensures { IfOk result (λ ss. ss ≡ spec.code_stmts p g io.now) }
{
    let code = p * 32 + 1 + g;
    let mut found = List::new(alloc);
    match io {
        Io::Send { channel, .. } => {
            found.push(store(b"a_send", number(*channel), number(code)))?;
            Ok(found)
        }
        Io::Receive { channel, variable } => {
            found.push(store(b"a_receive", number(*channel), number(code)))?;
            found.push(store(b"a_into", number(*channel), number(*variable)))?;
            Ok(found)
        }
    }
}

#[tactic(auto, using(crate::proofs::Built::codes_step))]
fn all_codes(alloc: Global, p: u32, ways: &[Way]) -> Result<List<CStmt>, AllocError>
    requires low { p < 64 }
    requires few { length ways.now ≤ 32 }
    ensures { IfOk result (λ ss. ss ≡ spec.all_codes p 0 (ios_of ways.now)) }
{
    let mut found = List::new(alloc);
    for (at, way) in ways.iter().enumerate() {
        let more = code_stmts(alloc, p, at as u32, &way.io)?;
        found.append(more)?;
    }
    Ok(found)
}

/// Value and slope of what a branch sends.
fn sent_copies(alloc: Global, p: u32, g: u32, io: &Io) -> Result<List<CStmt>, AllocError>
    requires low { p < 64 }
    requires few { g < 32 }
    ensures { IfOk result (λ ss. ss ≡ spec.copies p (sent_registers g io.now)) }
{
    let mut found = List::new(alloc);
    match io {
        Io::Send { .. } => {
            found.push(copy(alloc, p, 192 + g)?)?;
            found.push(copy(alloc, p, 256 + g)?)?;
            Ok(found)
        }
        Io::Receive { .. } => Ok(found),
    }
}

#[tactic(auto, using(crate::proofs::Built::sent_step))]
fn all_sent_copies(alloc: Global, p: u32, ways: &[Way]) -> Result<List<CStmt>, AllocError>
    requires low { p < 64 }
    requires few { length ways.now ≤ 32 }
    ensures { IfOk result (λ ss. ss ≡ spec.copies p (all_sent_registers 0 (ios_of ways.now))) }
{
    let mut found = List::new(alloc);
    for (at, way) in ways.iter().enumerate() {
        let more = sent_copies(alloc, p, at as u32, &way.io)?;
        found.append(more)?;
    }
    Ok(found)
}

fn offers(alloc: Global, p: u32, ways: &[Way]) -> Result<List<CStmt>, AllocError>
    requires low { p < 64 }
    requires few { length ways.now ≤ 32 }
    ensures { IfOk result (λ ss. ss ≡ spec.offers p (ios_of ways.now)) }
{
    let mut found = all_sent_copies(alloc, p, ways)?;
    let more = all_codes(alloc, p, ways)?;
    found.append(more)?;
    Ok(found)
}

/// Whether the bound has run out.
fn tests_over(alloc: Global, p: u32) -> Result<List<CStmt>, AllocError>
    ensures { IfOk result (λ ss. ss ≡ spec.tests_over p) }
{
    let mut arguments = List::new(alloc);
    arguments.push(number(p))?;
    arguments.push(number(66))?;
    let bounded = same(alloc, local(b"v_bounded"), number(1))?;
    let none = same(alloc, local(b"v_truth"), number(0))?;
    let over = both(alloc, bounded, none)?;
    let mut found = List::new(alloc);
    found.push(takes(b"v_truth", b"fr_sign", arguments))?;
    found.push(set(b"v_truth", over))?;
    Ok(found)
}

/// Where the process has arrived.
fn where_arrived(alloc: Global, stmts: List<CStmt>) -> Result<List<CStmt>, AllocError>
    ensures { IfOk result (λ ss. ss ≡ spec.where_arrived stmts) }
{
    let test = same(alloc, local(b"v_mark"), number(1))?;
    let mut found = List::new(alloc);
    found.push(when(test, stmts))?;
    Ok(found)
}

/// The rates of what evolves.
fn rate_copies(alloc: Global, p: u32, rates: &[Rate]) -> Result<List<CStmt>, AllocError>
    requires low { p < 64 }
    requires few { list_all (λ r. nat_lt r.variable 64) rates.now ≡ true }
    ensures { IfOk result (λ ss. ss ≡ spec.copies p (rate_registers rates.now)) }
{
    let mut found = List::new(alloc);
    for rate in rates {
        found.push(copy(alloc, p, 128 + rate.variable)?)?;
    }
    Ok(found)
}

/// The marks of what evolves.
fn marks(alloc: Global, p: u32, rates: &[Rate]) -> Result<List<CStmt>, AllocError>
    requires low { p < 64 }
    requires few { list_all (λ r. nat_lt r.variable 64) rates.now ≡ true }
    ensures { IfOk result (λ ss. ss ≡ spec.marks p rates.now) }
{
    let mut found = List::new(alloc);
    for rate in rates {
        found.push(store(b"a_moves", number(p * 64 + rate.variable), number(1)))?;
    }
    Ok(found)
}

/// What is offered unless the bound has run out.
fn offers_unless(alloc: Global, p: u32, ways: &[Way]) -> Result<CStmt, AllocError>
    requires low { p < 64 }
    requires few { length ways.now ≤ 32 }
    ensures { IfOk result (λ s. s ≡ spec.offers_unless p (ios_of ways.now)) }
{
    let over = same(alloc, local(b"v_truth"), number(1))?;
    let nothing = List::new(alloc);
    let offers = offers(alloc, p, ways)?;
    Ok(when_else(over, nothing, offers))
}

fn evolves(alloc: Global, p: u32, rates: &[Rate], ways: &[Way]) -> Result<List<CStmt>, AllocError>
    requires low { p < 64 }
    requires few { length ways.now ≤ 32 }
    requires variables { list_all (λ r. nat_lt r.variable 64) rates.now ≡ true }
    ensures { IfOk result (λ ss. ss ≡ spec.evolves p rates.now (ios_of ways.now)) }
{
    let mut last = tests_over(alloc, p)?;
    last.push(offers_unless(alloc, p, ways)?)?;
    let mut behind = marks(alloc, p, rates)?;
    behind.append(last)?;
    let mut found = rate_copies(alloc, p, rates)?;
    found.append(behind)?;
    Ok(found)
}

/// The case of an instruction.
fn show_case(alloc: Global, p: u32, instr: &Instr) -> Result<List<CStmt>, AllocError>
    requires low { p < 64 }
    requires few { length (ios_at instr.now) ≤ 32 }
    requires variables { list_all (λ r. nat_lt r.variable 64) (rates_at instr.now) ≡ true }
    ensures { IfOk result (λ ss. ss ≡ spec.show_case p instr.now) }
{
    match instr {
        Instr::End => {
            let mut found = List::new(alloc);
            found.push(store(b"a_phase", number(p), number(2)))?;
            Ok(found)
        }
        Instr::Meet { branches } => {
            let offers = offers(alloc, p, branches.as_slice())?;
            where_arrived(alloc, offers)
        }
        Instr::Evolve {
            rates,
            branches,
            ..
        } => {
            let evolves = evolves(alloc, p, rates.as_slice(), branches.as_slice())?;
            where_arrived(alloc, evolves)
        }
        _ => Ok(List::new(alloc)),
    }
}

/// The case of a place.
pub(crate) fn case(number: u32, body: List<CStmt>) -> CCase
    ensures { result ≡ case_of number body }
{
    CCase {
        number: i64::from(number),
        body,
    }
}

pub(crate) fn switch(alloc: Global, on: CExpr, cases: List<CCase>) -> CStmt
    ensures { result ≡ Switch on cases [] }
{
    CStmt::Switch {
        on,
        cases,
        otherwise: List::new(alloc),
    }
}

/// The cases of all places.
fn show_cases(alloc: Global, p: u32, code: &ProcCode) -> Result<List<CCase>, AllocError>
    requires low { p < 64 }
    requires small { list_all is_small code.now.instrs ≡ true }
    ensures { IfOk result (λ cs. cs ≡ spec.show_cases p 0 code.now.instrs) }
{
    let mut found = List::new(alloc);
    for place in 0..code.len() {
        let body = show_case(alloc, p, code.at(place))?;
        found.push(case(place, body))?;
    }
    Ok(found)
}

/// Posting: process `p`, of `n` variables and with this code, puts up what it shows.
pub fn post_code(alloc: Global, p: u32, n: u32, code: &ProcCode) -> Result<List<CStmt>, AllocError>
    requires low { p < 64 }
    requires few { n ≤ 64 }
    requires small { list_all is_small code.now.instrs ≡ true }
    ensures { IfOk result (λ ss. ss ≡ spec.post_code p n code.now.instrs) }
{
    let mut arguments = List::new(alloc);
    arguments.push(number(p))?;
    let cases = show_cases(alloc, p, code)?;
    let mut behind = phases(alloc, p)?;
    behind.push(switch(alloc, local(b"v_place"), cases))?;
    let mut found = List::new(alloc);
    found.push(calls(b"f_go", arguments))?;
    found.append(own_copies(alloc, p, n)?)?;
    found.append(behind)?;
    Ok(found)
}
