//! From statements to instructions.

ghost use Rattle.std.specs.Prelude.{◌≡◌, ◌+◌, ◌≤◌, ◌<◌, [], ◌∷◌, ◌++◌, length, IsTrue, IfOk, OnOk};
ghost use Rattle.hc_limits.specs.Limits.{most_statements};
ghost use Rattle.hc_term.specs.declared.stmt.Stmt.{out-Stmt};
ghost use Rattle.hc_term.specs.Rules.{statements, body_statements};
ghost use Rattle.hc_code.specs.Stands.{Stands, HasOneEach};
ghost use Rattle.hc_code.specs.Kept.{KeepsRules};
ghost use Rattle.hc_code.specs.Measure.{IsMeasured};
ghost use Rattle.hc_code.specs.Pieces.{all_statements, branch_statements, entry, entries, bodies, ways_at, is_leaf, Adds};

use crate::count::{count_all, count_one};
use crate::{Instr, ProcCode, Way};
use hc_limits::MOST_STATEMENTS;
use hc_list::List;
use hc_term::{Branch, Cond, Io, Process, Rate, Stmt};
use std::alloc::{AllocError, Global};

/// The ways of branches whose statements stand from the place `here` on, one after the other.
fn ways_of(
    alloc: Global,
    branches: &[Branch],
    here: u32,
    next: u32,
) -> Result<List<Way>, AllocError>
    requires low { here ≤ 10001 }
    requires few { branch_statements branches.now ≤ most_statements }
    ensures { IfOk result (λ ways. ways ≡ ways_at here next branches.now) }
{
    let mut ways = List::new(alloc);
    let mut place = here;
    for branch in branches {
        let body = branch.body.as_slice();
        ways.push(Way {
            io: branch.io.copy(alloc)?,
            next: entry_of(place, next, body),
        })?;
        place += count_all(body);
    }
    Ok(ways)
}

/// The place at which statements begin: here, or the next where there is none.
fn entry_of(here: u32, next: u32, stmts: &[Stmt]) -> u32
    ensures { result ≡ entry here next stmts.now }
{
    match stmts {
        [] => next,
        _ => here,
    }
}

/// One instruction more.
fn put(code: &mut List<Instr>, instr: Instr) -> Result<(), AllocError>
    ensures put { OnOk result (code.new ≡ code.old ++ instr ∷ []) }
    ensures grown { OnOk result (length code.new ≡ length code.old + 1) }
{
    code.push(instr)
}

/// Puts the instruction of a statement without parts behind what is there.
fn emit_leaf(
    alloc: Global,
    code: &mut List<Instr>,
    stmt: &Stmt,
    next: u32,
) -> Result<(), AllocError>
    requires leaf { IsTrue (is_leaf (out-Stmt stmt.now)) }
    ensures grown { OnOk result (length code.new ≡ length code.old + 1) }
    ensures adds { OnOk result (Adds code.old code.new next (length code.old ∷ []) ((stmt.now ∷ []) ∷ [])) }
{
    match stmt {
        Stmt::Skip => {
            put(code, Instr::Skip { next })?;
            Ok(())
        }
        Stmt::Assign { variable, value } => {
            let value = value.copy(alloc)?;
            put(
                code,
                Instr::Assign {
                    variable: *variable,
                    value,
                    next,
                },
            )?;
            Ok(())
        }
        Stmt::Wait { time } => {
            let time = time.copy(alloc)?;
            put(code, Instr::Wait { time, next })?;
            Ok(())
        }
        Stmt::Log { value } => {
            let value = value.copy(alloc)?;
            put(code, Instr::Log { value, next })?;
            Ok(())
        }
        Stmt::Io(io) => {
            let branches = one_way(alloc, io, next)?;
            put(code, Instr::Meet { branches })?;
            Ok(())
        }
        _ => unreachable!(),
    }
}

fn one_way(alloc: Global, io: &Io, next: u32) -> Result<List<Way>, AllocError>
    ensures { IfOk result (λ ways. ways ≡ record { io = io.now; next = next } ∷ []) }
{
    let mut ways = List::new(alloc);
    ways.push(Way {
        io: io.copy(alloc)?,
        next,
    })?;
    Ok(ways)
}

/// Puts the test of an `if` behind what is there. Both sides come next, one after the other.
fn put_if(
    alloc: Global,
    code: &mut List<Instr>,
    test: &Cond,
    yes: &[Stmt],
    no: &[Stmt],
    next: u32,
) -> Result<(), AllocError>
    requires room { length code.old + (1 + all_statements yes.now) ≤ most_statements }
    ensures put { OnOk result (code.new ≡ code.old ++ Instr.Test test.now (entry (length code.old + 1) next yes.now)
        (entry (length code.old + 1 + all_statements yes.now) next no.now) ∷ []) }
    ensures grown { OnOk result (length code.new ≡ length code.old + 1) }
{
    let first = code.len() as u32 + 1;
    let second = first + count_all(yes);
    let test = test.copy(alloc)?;
    put(
        code,
        Instr::Test {
            test,
            yes: entry_of(first, next, yes),
            no: entry_of(second, next, no),
        },
    )
}

/// Puts an internal choice behind what is there. Both sides come next, one after the other.
fn put_pick(
    code: &mut List<Instr>,
    left: &[Stmt],
    right: &[Stmt],
    next: u32,
) -> Result<(), AllocError>
    requires room { length code.old + (1 + all_statements left.now) ≤ most_statements }
    ensures put { OnOk result (code.new ≡ code.old ++ Instr.Pick (entry (length code.old + 1) next left.now)
        (entry (length code.old + 1 + all_statements left.now) next right.now) ∷ []) }
    ensures grown { OnOk result (length code.new ≡ length code.old + 1) }
{
    let first = code.len() as u32 + 1;
    let second = first + count_all(left);
    put(
        code,
        Instr::Pick {
            left: entry_of(first, next, left),
            right: entry_of(second, next, right),
        },
    )
}

/// Puts the beginning of a loop without a test behind what is there. Its body comes next, and goes on at the loop.
fn put_forever(code: &mut List<Instr>, body: &[Stmt]) -> Result<(), AllocError>
    requires room { length code.old + 1 ≤ most_statements }
    ensures put { OnOk result (code.new ≡ code.old ++ Instr.Again (entry (length code.old + 1) (length code.old) body.now) ∷ []) }
    ensures grown { OnOk result (length code.new ≡ length code.old + 1) }
{
    let here = code.len() as u32;
    put(
        code,
        Instr::Again {
            next: entry_of(here + 1, here, body),
        },
    )
}

/// Puts the test of a loop behind what is there. Its body comes next, and goes on at the test.
fn put_loop(
    alloc: Global,
    code: &mut List<Instr>,
    test: &Cond,
    body: &[Stmt],
    next: u32,
) -> Result<(), AllocError>
    requires room { length code.old + 1 ≤ most_statements }
    ensures put { OnOk result (code.new ≡ code.old ++ Instr.Test test.now (entry (length code.old + 1) (length code.old) body.now) next ∷ []) }
    ensures grown { OnOk result (length code.new ≡ length code.old + 1) }
{
    let here = code.len() as u32;
    let test = test.copy(alloc)?;
    put(
        code,
        Instr::Test {
            test,
            yes: entry_of(here + 1, here, body),
            no: next,
        },
    )
}

/// Puts an external choice behind what is there. The statements behind its branches come next.
fn put_choice(
    alloc: Global,
    code: &mut List<Instr>,
    branches: &[Branch],
    next: u32,
) -> Result<(), AllocError>
    requires room { length code.old + (1 + branch_statements branches.now) ≤ most_statements }
    ensures put { OnOk result (code.new ≡ code.old ++ Instr.Meet (ways_at (length code.old + 1) next branches.now) ∷ []) }
    ensures grown { OnOk result (length code.new ≡ length code.old + 1) }
{
    let first = code.len() as u32 + 1;
    let branches = ways_of(alloc, branches, first, next)?;
    put(code, Instr::Meet { branches })
}

/// Puts an evolution behind what is there. The statements behind its branches come next.
fn put_evolve(
    alloc: Global,
    code: &mut List<Instr>,
    rates: &[Rate],
    domain: &Cond,
    branches: &[Branch],
    next: u32,
) -> Result<(), AllocError>
    requires room { length code.old + (1 + branch_statements branches.now) ≤ most_statements }
    ensures put { OnOk result (code.new ≡ code.old ++ Instr.Evolve rates.now domain.now (ways_at (length code.old + 1) next branches.now) next ∷ []) }
    ensures grown { OnOk result (length code.new ≡ length code.old + 1) }
{
    let first = code.len() as u32 + 1;
    let branches = ways_of(alloc, branches, first, next)?;
    let rates = copy_of_rates(alloc, rates)?;
    let domain = domain.copy(alloc)?;
    put(
        code,
        Instr::Evolve {
            rates,
            domain,
            branches,
            next,
        },
    )
}

fn copy_of_rates(alloc: Global, rates: &[Rate]) -> Result<List<Rate>, AllocError>
    ensures { IfOk result (λ copy. copy ≡ rates.now) }
{
    let mut copy = List::new(alloc);
    for rate in rates {
        copy.push(rate.copy(alloc)?)?;
    }
    Ok(copy)
}

/// Puts the code of the statements behind branches behind what is there, one after the other.
#[cycle(emits)]
fn emit_branches(
    alloc: Global,
    code: &mut List<Instr>,
    branches: &[Branch],
    next: u32,
) -> Result<(), AllocError>
    requires room { length code.old + branch_statements branches.now ≤ most_statements }
    ensures grown { OnOk result (length code.new ≡ length code.old + branch_statements branches.now) }
    ensures adds { OnOk result (Adds code.old code.new next (entries (length code.old) next branches.now) (bodies branches.now)) }
{
    for branch in branches {
        emit_all(alloc, code, branch.body.as_slice(), next)?;
    }
    Ok(())
}

/// Puts the code of one statement behind what is there. What follows the statement begins at the place `next`.
#[cycle(emits)]
fn emit_one(alloc: Global, code: &mut List<Instr>, stmt: &Stmt, next: u32) -> Result<(), AllocError>
    requires room { length code.old + statements stmt.now ≤ most_statements }
    ensures grown { OnOk result (length code.new ≡ length code.old + statements stmt.now) }
    ensures adds { OnOk result (Adds code.old code.new next (length code.old ∷ []) ((stmt.now ∷ []) ∷ [])) }
{
    let here = code.len() as u32;
    match stmt {
        Stmt::If { test, yes, no } => {
            let yes = yes.as_slice();
            let no = no.as_slice();
            put_if(alloc, code, test, yes, no, next)?;
            emit_all(alloc, code, yes, next)?;
            emit_all(alloc, code, no, next)?;
            Ok(())
        }
        Stmt::Pick { left, right } => {
            let left = left.as_slice();
            let right = right.as_slice();
            put_pick(code, left, right, next)?;
            emit_all(alloc, code, left, next)?;
            emit_all(alloc, code, right, next)?;
            Ok(())
        }
        Stmt::Forever { body } => {
            let body = body.as_slice();
            put_forever(code, body)?;
            emit_all(alloc, code, body, here)?;
            Ok(())
        }
        Stmt::Loop { test, body } => {
            let body = body.as_slice();
            put_loop(alloc, code, test, body, next)?;
            emit_all(alloc, code, body, here)?;
            Ok(())
        }
        Stmt::Choice { branches } => {
            let branches = branches.as_slice();
            put_choice(alloc, code, branches, next)?;
            emit_branches(alloc, code, branches, next)?;
            Ok(())
        }
        Stmt::Evolve {
            rates,
            domain,
            branches,
        } => {
            let branches = branches.as_slice();
            let rates = rates.as_slice();
            put_evolve(alloc, code, rates, domain, branches, next)?;
            emit_branches(alloc, code, branches, next)?;
            Ok(())
        }
        _ => emit_leaf(alloc, code, stmt, next),
    }
}

/// Puts the code of statements behind what is there. What follows them begins at the place `next`.
#[cycle(emits)]
fn emit_all(
    alloc: Global,
    code: &mut List<Instr>,
    stmts: &[Stmt],
    next: u32,
) -> Result<(), AllocError>
    requires room { length code.old + all_statements stmts.now ≤ most_statements }
    ensures grown { OnOk result (length code.new ≡ length code.old + all_statements stmts.now) }
    ensures adds { OnOk result (Adds code.old code.new next (entry (length code.old) next stmts.now ∷ []) (stmts.now ∷ [])) }
{
    for (at, stmt) in stmts.iter().enumerate() {
        let behind = code.len() as u32 + count_one(stmt);
        prove!(behind <= MOST_STATEMENTS);
        let after = entry_of(behind, next, &stmts[at + 1..]);
        emit_one(alloc, code, stmt, after)?;
    }
    Ok(())
}

/// The code of a process of at most 10,000 statements.
pub fn compile(alloc: Global, process: &Process) -> Result<ProcCode, AllocError>
    requires { body_statements process.now ≤ most_statements }
    ensures stands { IfOk result (λ code. Stands code.instrs process.now.body) }
    ensures one_each { IfOk result (λ code. HasOneEach process.now code.instrs) }
    ensures kept { IfOk result (λ code. KeepsRules process.now.body code.instrs) }
    ensures measured { IfOk result (λ code. IsMeasured process.now code.instrs) }
{
    let body = process.body.as_slice();
    let end = count_all(body);
    let mut instrs = List::new(alloc);
    emit_all(alloc, &mut instrs, body, end)?;
    instrs.push(Instr::End)?;
    Ok(ProcCode { instrs })
}
