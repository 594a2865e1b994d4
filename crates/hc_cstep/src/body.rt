//! The whole of private code: one loop round a flat switch, with a case for each place of the flat code.

ghost use Rattle.std.specs.Prelude.{◌≡◌, ◌<◌, ◌≤◌, ◌+◌, ◌^◌, ◌++◌, ◌∷◌, [], length, map, nat_lt, IsTrue, IfOk, OnOk};
ghost use Rattle.std.specs.List.{list_all};
ghost use Rattle.hc_code.specs.Kept.{ios_of};
ghost use Rattle.hc_cast.specs.declared.expr.CExpr.TheVariants as expr;
ghost use Rattle.hc_cast.specs.declared.stmt.CStmt.TheVariants as stmt;
ghost use Rattle.hc_cstep.specs.Locals as locals;
ghost use Rattle.hc_cstep.specs.Parts.{Parts};
ghost use Rattle.hc_cstep.specs.Words as words;
ghost use Rattle.hc_cstep.specs.Waiting as waiting;
ghost use Rattle.hc_cstep.specs.Sending as sending;
ghost use Rattle.hc_cstep.specs.Evolving as evolving;
ghost use Rattle.hc_cstep.specs.Premises.{has_code, in_range, is_sent};
ghost use Rattle.hc_cstep.specs.Written as spec;

use crate::acts::{assigns, begins, comes, goes, logs, meets, turns};
use crate::blocks::{
    arrived, due_block, push_bounds, push_guarded, push_rate, push_sent_line, push_sent_value,
};
use crate::choice::picks;
use crate::commit::commit;
use crate::numbers::{ENDS_ENDED, GOES_ON};
use hc_cast::{CCase, CStmt};
use hc_cbuild::{if_else, local, local_is, set_number, single, while_do};
use hc_code::{Instr, ProcCode, Way};
use hc_list::List;
use hc_term::{Cond, Expr, Io, Rate};
use std::alloc::{AllocError, Global};

/// The code of values, conditions, lines and end moments, out of which private code is made.
pub trait Blocks {
    // what it is, and for which expressions and conditions there is code
    ghost parts: { Self → Parts };

    /// The value of an expression into register 320, behind other code.
    fn push_value(
        &self,
        alloc: Global,
        code: &mut List<CStmt>,
        expr: &Expr,
    ) -> Result<(), AllocError>
        requires { IsTrue ((parts self.now).is_value expr.now) }
        ensures { OnOk result (code.new ≡ code.old ++ (parts self.now).value expr.now) };

    /// The answer of a condition into `v_truth`, behind other code.
    fn push_test(
        &self,
        alloc: Global,
        code: &mut List<CStmt>,
        test: &Cond,
    ) -> Result<(), AllocError>
        requires { IsTrue ((parts self.now).is_test test.now) }
        ensures { OnOk result (code.new ≡ code.old ++ (parts self.now).test test.now) };

    /// The value and the slope of an expression into registers 320 and 321, where variables move with these rates, behind other code.
    fn push_line(
        &self,
        alloc: Global,
        code: &mut List<CStmt>,
        rates: &[Rate],
        expr: &Expr,
    ) -> Result<(), AllocError>
        requires { IsTrue ((parts self.now).is_line expr.now) }
        ensures { OnOk result (code.new ≡ code.old ++ (parts self.now).line rates.now expr.now) };

    /// The moment at which a domain ends into register 320, and into `v_truth` whether there is one, behind other code.
    fn push_end(
        &self,
        alloc: Global,
        code: &mut List<CStmt>,
        rates: &[Rate],
        domain: &Cond,
    ) -> Result<(), AllocError>
        requires { IsTrue ((parts self.now).is_end domain.now) }
        ensures { OnOk result (code.new ≡ code.old ++ (parts self.now).ends rates.now domain.now) };
}

/// The acts of a step behind other code, where all fits.
fn push_commit(alloc: Global, code: &mut List<CStmt>, acts: List<CStmt>) -> Result<(), AllocError>
    ensures { OnOk result (code.new ≡ code.old ++ spec.commit acts ∷ []) }
{
    code.push(commit(alloc, acts)?)
}

/// A case that works out the value of an expression and then does these acts.
fn with_value<B: Blocks>(
    alloc: Global,
    blocks: &B,
    expr: &Expr,
    acts: List<CStmt>,
) -> Result<List<CStmt>, AllocError>
    requires { IsTrue ((B.parts blocks.now).is_value expr.now) }
    ensures { IfOk result (λ ss. ss ≡ (B.parts blocks.now).value expr.now ++ spec.commit acts ∷ []) }
{
    let mut code = List::new(alloc);
    blocks.push_value(alloc, &mut code, expr)?;
    push_commit(alloc, &mut code, acts)?;
    Ok(code)
}

/// The case of a test.
fn with_test<B: Blocks>(
    alloc: Global,
    blocks: &B,
    test: &Cond,
    acts: List<CStmt>,
) -> Result<List<CStmt>, AllocError>
    requires { IsTrue ((B.parts blocks.now).is_test test.now) }
    ensures { IfOk result (λ ss. ss ≡ (B.parts blocks.now).test test.now ++ spec.commit acts ∷ []) }
{
    let mut code = List::new(alloc);
    blocks.push_test(alloc, &mut code, test)?;
    push_commit(alloc, &mut code, acts)?;
    Ok(code)
}

/// The case of a wait.
fn with_bound<B: Blocks>(
    alloc: Global,
    blocks: &B,
    p: u32,
    time: &Expr,
) -> Result<List<CStmt>, AllocError>
    requires { IsTrue ((B.parts blocks.now).is_value time.now) }
    ensures { IfOk result (λ ss. ss ≡ ((B.parts blocks.now).value time.now ++ waiting.bounds p) ++ spec.commit (spec.comes p) ∷ []) }
{
    let mut code = List::new(alloc);
    blocks.push_value(alloc, &mut code, time)?;
    push_bounds(alloc, &mut code, p)?;
    let acts = comes(alloc, p)?;
    push_commit(alloc, &mut code, acts)?;
    Ok(code)
}

/// A block for each branch that sends, behind other code, where nothing moves; the first branch is number `g`.
fn push_values<B: Blocks>(
    alloc: Global,
    blocks: &B,
    code: &mut List<CStmt>,
    p: u32,
    g: u32,
    ways: &[Way],
) -> Result<(), AllocError>
    requires few { g + length ways.now ≤ 64 }
    requires coded { IsTrue (list_all (is_sent (B.parts blocks.now).is_value) (ios_of ways.now)) }
    ensures { OnOk result (code.new ≡ code.old ++ words.each (sending.all_sent (sending.sends_value (B.parts blocks.now) p) g (ios_of ways.now))) }
{
    match ways.split_first() {
        None => Ok(()),
        Some((way, rest)) => {
            if let Io::Send { value, .. } = &way.io {
                let mut block = List::new(alloc);
                blocks.push_value(alloc, &mut block, value)?;
                push_sent_value(alloc, &mut block, p, g)?;
                push_guarded(alloc, code, block)?;
            }
            push_values(alloc, blocks, code, p, g + 1, rest)
        }
    }
}

/// A block for each branch that sends, behind other code, where variables move with these rates; the first branch is number `g`.
fn push_lines<B: Blocks>(
    alloc: Global,
    blocks: &B,
    code: &mut List<CStmt>,
    p: u32,
    rates: &[Rate],
    g: u32,
    ways: &[Way],
) -> Result<(), AllocError>
    requires few { g + length ways.now ≤ 64 }
    requires coded { IsTrue (list_all (is_sent (B.parts blocks.now).is_line) (ios_of ways.now)) }
    ensures { OnOk result (code.new ≡ code.old ++ words.each (sending.all_sent (sending.sends_line (B.parts blocks.now) p rates.now) g (ios_of ways.now))) }
{
    match ways.split_first() {
        None => Ok(()),
        Some((way, rest)) => {
            if let Io::Send { value, .. } = &way.io {
                let mut block = List::new(alloc);
                blocks.push_line(alloc, &mut block, rates, value)?;
                push_sent_line(alloc, &mut block, p, g)?;
                push_guarded(alloc, code, block)?;
            }
            push_lines(alloc, blocks, code, p, rates, g + 1, rest)
        }
    }
}

/// A block for each rate, behind other code.
fn push_rates<B: Blocks>(
    alloc: Global,
    blocks: &B,
    code: &mut List<CStmt>,
    p: u32,
    rates: &[Rate],
) -> Result<(), AllocError>
    requires small { IsTrue (list_all (λ r. nat_lt r.variable 64) rates.now) }
    requires coded { IsTrue (list_all (λ r. (B.parts blocks.now).is_value r.value) rates.now) }
    ensures { OnOk result (code.new ≡ code.old ++ words.each (map (evolving.rate_block (B.parts blocks.now) p) rates.now)) }
{
    match rates.split_first() {
        None => Ok(()),
        Some((rate, rest)) => {
            let mut block = List::new(alloc);
            blocks.push_value(alloc, &mut block, &rate.value)?;
            push_rate(alloc, &mut block, p, rate.variable)?;
            push_guarded(alloc, code, block)?;
            push_rates(alloc, blocks, code, p, rest)
        }
    }
}

/// The case of an evolution.
fn with_evolution<B: Blocks>(
    alloc: Global,
    blocks: &B,
    p: u32,
    rates: &[Rate],
    domain: &Cond,
    ways: &[Way],
) -> Result<List<CStmt>, AllocError>
    requires few { length ways.now ≤ 64 }
    requires small { IsTrue (list_all (λ r. nat_lt r.variable 64) rates.now) }
    requires rated { IsTrue (list_all (λ r. (B.parts blocks.now).is_value r.value) rates.now) }
    requires lined { IsTrue (list_all (is_sent (B.parts blocks.now).is_line) (ios_of ways.now)) }
    requires ended { IsTrue ((B.parts blocks.now).is_end domain.now) }
    ensures { IfOk result (λ ss. ss ≡ evolving.evolves (B.parts blocks.now) p rates.now domain.now (ios_of ways.now) ++ spec.commit (spec.begins p) ∷ []) }
{
    let mut code = List::new(alloc);
    push_rates(alloc, blocks, &mut code, p, rates)?;
    push_lines(alloc, blocks, &mut code, p, rates, 0, ways)?;
    let mut ends = List::new(alloc);
    blocks.push_end(alloc, &mut ends, rates, domain)?;
    push_guarded(alloc, &mut code, ends)?;
    let due = due_block(alloc, p)?;
    push_guarded(alloc, &mut code, due)?;
    let acts = begins(alloc, p)?;
    push_commit(alloc, &mut code, acts)?;
    Ok(code)
}

/// The case of communications.
fn with_ways<B: Blocks>(
    alloc: Global,
    blocks: &B,
    p: u32,
    ways: &[Way],
) -> Result<List<CStmt>, AllocError>
    requires few { length ways.now ≤ 64 }
    requires coded { IsTrue (list_all (is_sent (B.parts blocks.now).is_value) (ios_of ways.now)) }
    ensures { IfOk result (λ ss.
        ss ≡ words.each (sending.all_sent (sending.sends_value (B.parts blocks.now) p) 0 (ios_of ways.now)) ++ spec.commit (words.set locals.v_mark 1 ∷ []) ∷ []) }
{
    let mut code = List::new(alloc);
    push_values(alloc, blocks, &mut code, p, 0, ways)?;
    let acts = meets(alloc)?;
    push_commit(alloc, &mut code, acts)?;
    Ok(code)
}

/// A case in which nothing is worked out.
fn only(alloc: Global, acts: List<CStmt>) -> Result<List<CStmt>, AllocError>
    ensures { IfOk result (λ ss. ss ≡ spec.commit acts ∷ []) }
{
    single(alloc, commit(alloc, acts)?)
}

/// The case of a going process.
fn going<B: Blocks>(
    alloc: Global,
    blocks: &B,
    p: u32,
    seed: u64,
    instr: &Instr,
) -> Result<List<CStmt>, AllocError>
    requires coded { IsTrue (has_code (B.parts blocks.now) instr.now) }
    requires ranged { IsTrue (in_range instr.now) }
    ensures { IfOk result (λ ss. ss ≡ spec.going (B.parts blocks.now) p seed instr.now) }
{
    match instr {
        Instr::Skip { next } => {
            let acts = goes(alloc, *next)?;
            only(alloc, acts)
        }
        Instr::Again { next } => {
            let acts = goes(alloc, *next)?;
            only(alloc, acts)
        }
        Instr::Assign {
            variable,
            value,
            next,
        } => {
            let acts = assigns(alloc, p, *variable, *next)?;
            with_value(alloc, blocks, value, acts)
        }
        Instr::Log { value, next } => {
            let acts = logs(alloc, p, *next)?;
            with_value(alloc, blocks, value, acts)
        }
        Instr::Test { test, yes, no } => {
            let acts = turns(alloc, *yes, *no)?;
            with_test(alloc, blocks, test, acts)
        }
        Instr::Pick { left, right } => {
            let acts = picks(alloc, p, seed, *left, *right)?;
            only(alloc, acts)
        }
        Instr::Wait { time, .. } => with_bound(alloc, blocks, p, time),
        Instr::Meet { branches } => with_ways(alloc, blocks, p, branches.as_slice()),
        Instr::Evolve {
            rates,
            domain,
            branches,
            ..
        } => with_evolution(
            alloc,
            blocks,
            p,
            rates.as_slice(),
            domain,
            branches.as_slice(),
        ),
        Instr::End => Ok(List::new(alloc)),
    }
}

/// The case of an instruction.
fn case_of<B: Blocks>(
    alloc: Global,
    blocks: &B,
    p: u32,
    seed: u64,
    instr: &Instr,
) -> Result<List<CStmt>, AllocError>
    requires coded { IsTrue (has_code (B.parts blocks.now) instr.now) }
    requires ranged { IsTrue (in_range instr.now) }
    ensures { IfOk result (λ ss. ss ≡ spec.case_of (B.parts blocks.now) p seed instr.now) }
{
    match instr {
        Instr::End => single(alloc, set_number(b"v_end", ENDS_ENDED)),
        _ => {
            let test = local_is(alloc, b"v_mark", 1)?;
            let yes = arrived(alloc, p, instr)?;
            let other = going(alloc, blocks, p, seed, instr)?;
            single(alloc, if_else(test, yes, other))
        }
    }
}

/// A case for each place.
fn cases_of<B: Blocks>(
    alloc: Global,
    blocks: &B,
    p: u32,
    seed: u64,
    code: &ProcCode,
) -> Result<List<CCase>, AllocError>
    requires coded { IsTrue (list_all (has_code (B.parts blocks.now)) code.now.instrs) }
    requires ranged { IsTrue (list_all in_range code.now.instrs) }
    ensures { IfOk result (λ cs. cs ≡ spec.cases_of (B.parts blocks.now) p seed code.now.instrs) }
{
    let mut cases = List::new(alloc);
    for place in 0..code.len() {
        let body = case_of(alloc, blocks, p, seed, code.at(place))?;
        cases.push(CCase {
            number: i64::from(place),
            body,
        })?;
    }
    Ok(cases)
}

/// `v_ok = 1; switch (v_place) { .. }`
fn round(alloc: Global, cases: List<CCase>) -> Result<List<CStmt>, AllocError>
    ensures { IfOk result (λ ss. ss ≡ words.set locals.v_ok 1 ∷ stmt.Switch (expr.Local locals.v_place) cases [] ∷ []) }
{
    let mut found = single(alloc, set_number(b"v_ok", 1))?;
    found.push(CStmt::Switch {
        on: local(b"v_place"),
        cases,
        otherwise: List::new(alloc),
    })?;
    Ok(found)
}

/// The private code of process p with this seed, whose flat code this is.
pub fn private_code<B: Blocks>(
    alloc: Global,
    blocks: &B,
    p: u32,
    seed: u64,
    code: &ProcCode,
) -> Result<List<CStmt>, AllocError>
    requires coded { IsTrue (list_all (has_code (B.parts blocks.now)) code.now.instrs) }
    requires ranged { IsTrue (list_all in_range code.now.instrs) }
    ensures { IfOk result (λ ss. ss ≡ spec.private_code (B.parts blocks.now) p seed code.now.instrs) }
{
    let mut found = single(alloc, set_number(b"v_steps", 0))?;
    found.push(set_number(b"v_end", GOES_ON))?;
    let test = local_is(alloc, b"v_end", GOES_ON)?;
    let cases = cases_of(alloc, blocks, p, seed, code)?;
    let body = round(alloc, cases)?;
    found.push(while_do(test, body))?;
    Ok(found)
}
