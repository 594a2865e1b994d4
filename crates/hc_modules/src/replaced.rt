//! A module's statements in a call: arguments stand where parameters stood.

ghost use Rattle.std.specs.Prelude.{◌≡◌, map, Some, None, IfOk};
ghost use Rattle.hc_ast.specs.declared.stmt.StmtKind.TheVariants as a;
ghost use Rattle.hc_modules.specs.Calls.{bindings};
ghost use Rattle.hc_modules.specs.Replaced as spec;

use crate::call::Call;
use hc_ast::{
    BranchTree, CondKind, CondTree, ExprKind, ExprTree, IoTree, RateTree, StmtKind, StmtTree,
};
use hc_list::{Boxed, List};
use std::alloc::{AllocError, Global};

/// An expression in a call.
#[cycle(exprs)]
fn expr_in(alloc: Global, call: &Call, expr: &ExprTree) -> Result<ExprTree, AllocError>
    ensures { IfOk result (λ t. t ≡ spec.expr_in (bindings call.now) expr.now) }
{
    let place = expr.place;
    match &expr.kind {
        ExprKind::Number(number) => {
            let kind = ExprKind::Number(*number);
            Ok(ExprTree { place, kind })
        }
        ExprKind::Name(name) => match call.value(name) {
            Some(argument) => argument.copy(alloc),
            None => {
                let kind = ExprKind::Name(name.copy());
                Ok(ExprTree { place, kind })
            }
        },
        ExprKind::Neg(part) => {
            let part = boxed_expr_in(alloc, call, part)?;
            let kind = ExprKind::Neg(part);
            Ok(ExprTree { place, kind })
        }
        ExprKind::Binary(op, left, right) => {
            let left = boxed_expr_in(alloc, call, left)?;
            let right = boxed_expr_in(alloc, call, right)?;
            let kind = ExprKind::Binary(*op, left, right);
            Ok(ExprTree { place, kind })
        }
    }
}

#[cycle(exprs)]
fn boxed_expr_in(
    alloc: Global,
    call: &Call,
    part: &Boxed<ExprTree>,
) -> Result<Boxed<ExprTree>, AllocError>
    ensures { IfOk result (λ t. t ≡ spec.expr_in (bindings call.now) part.now) }
{
    let part = expr_in(alloc, call, part.get())?;
    Boxed::new(alloc, part)
}

/// A condition in a call.
#[cycle(conds)]
fn cond_in(alloc: Global, call: &Call, cond: &CondTree) -> Result<CondTree, AllocError>
    ensures { IfOk result (λ t. t ≡ spec.cond_in (bindings call.now) cond.now) }
{
    let kind = cond_kind_in(alloc, call, &cond.kind)?;
    Ok(CondTree {
        place: cond.place,
        kind,
    })
}

#[cycle(conds)]
fn cond_kind_in(alloc: Global, call: &Call, kind: &CondKind) -> Result<CondKind, AllocError>
    ensures { IfOk result (λ t. t ≡ spec.cond_kind_in (bindings call.now) kind.now) }
{
    match kind {
        CondKind::True => Ok(CondKind::True),
        CondKind::False => Ok(CondKind::False),
        CondKind::Compare(how, left, right) => {
            let left = boxed_expr_in(alloc, call, left)?;
            let right = boxed_expr_in(alloc, call, right)?;
            Ok(CondKind::Compare(*how, left, right))
        }
        CondKind::Not(part) => {
            let part = boxed_cond_in(alloc, call, part)?;
            Ok(CondKind::Not(part))
        }
        CondKind::And(left, right) => {
            let left = boxed_cond_in(alloc, call, left)?;
            let right = boxed_cond_in(alloc, call, right)?;
            Ok(CondKind::And(left, right))
        }
        CondKind::Or(left, right) => {
            let left = boxed_cond_in(alloc, call, left)?;
            let right = boxed_cond_in(alloc, call, right)?;
            Ok(CondKind::Or(left, right))
        }
    }
}

#[cycle(conds)]
fn boxed_cond_in(
    alloc: Global,
    call: &Call,
    part: &Boxed<CondTree>,
) -> Result<Boxed<CondTree>, AllocError>
    ensures { IfOk result (λ t. t ≡ spec.cond_in (bindings call.now) part.now) }
{
    let part = cond_in(alloc, call, part.get())?;
    Boxed::new(alloc, part)
}

/// A communication in a call.
fn io_in(alloc: Global, call: &Call, io: &IoTree) -> Result<IoTree, AllocError>
    ensures { IfOk result (λ t. t ≡ spec.io_in (bindings call.now) io.now) }
{
    match io {
        IoTree::Send { channel, value } => {
            let value = expr_in(alloc, call, value)?;
            Ok(IoTree::Send {
                channel: call.channel(channel),
                value,
            })
        }
        IoTree::Receive { channel, target } => Ok(IoTree::Receive {
            channel: call.channel(channel),
            target: target.copy(),
        }),
    }
}

fn rate_in(alloc: Global, call: &Call, rate: &RateTree) -> Result<RateTree, AllocError>
    ensures { IfOk result (λ t. t ≡ spec.rate_in (bindings call.now) rate.now) }
{
    let value = expr_in(alloc, call, &rate.value)?;
    Ok(RateTree {
        place: rate.place,
        variable: rate.variable.copy(),
        value,
    })
}

fn rates_in(alloc: Global, call: &Call, rates: &[RateTree]) -> Result<List<RateTree>, AllocError>
    ensures { IfOk result (λ found. found ≡ map (spec.rate_in (bindings call.now)) rates.now) }
{
    let mut found = List::new(alloc);
    for rate in rates {
        found.push(rate_in(alloc, call, rate)?)?;
    }
    Ok(found)
}

/// A statement in a call.
#[cycle(stmts)]
fn stmt_in(alloc: Global, call: &Call, stmt: &StmtTree) -> Result<StmtTree, AllocError>
    ensures { IfOk result (λ t. t ≡ spec.stmt_in (bindings call.now) stmt.now) }
{
    let kind = stmt_kind_in(alloc, call, &stmt.kind)?;
    Ok(StmtTree {
        place: stmt.place,
        kind,
    })
}

#[cycle(stmts)]
fn stmt_kind_in(alloc: Global, call: &Call, kind: &StmtKind) -> Result<StmtKind, AllocError>
    ensures { IfOk result (λ t. t ≡ spec.stmt_kind_in (bindings call.now) kind.now) }
{
    match kind {
        StmtKind::Skip => Ok(StmtKind::Skip),
        StmtKind::Assign { target, value } => {
            let value = expr_in(alloc, call, value)?;
            Ok(StmtKind::Assign {
                target: target.copy(),
                value,
            })
        }
        StmtKind::Wait { time } => {
            let time = expr_in(alloc, call, time)?;
            Ok(StmtKind::Wait { time })
        }
        StmtKind::Io(io) => {
            let io = io_in(alloc, call, io)?;
            Ok(StmtKind::Io(io))
        }
        StmtKind::Log { value } => {
            let value = expr_in(alloc, call, value)?;
            Ok(StmtKind::Log { value })
        }
        StmtKind::If {
            test,
            yes,
            no: None,
        } => if_in(alloc, call, yes.as_slice(), test),
        StmtKind::If {
            test,
            yes,
            no: Some(no),
        } => {
            let yes = statements_in(alloc, call, yes.as_slice())?;
            if_else_in(alloc, call, no.as_slice(), test, yes)
        }
        StmtKind::Pick { left, right } => {
            let left = statements_in(alloc, call, left.as_slice())?;
            pick_in(alloc, call, right.as_slice(), left)
        }
        StmtKind::Forever { body } => {
            let body = statements_in(alloc, call, body.as_slice())?;
            Ok(StmtKind::Forever { body })
        }
        StmtKind::Loop { test, body } => loop_in(alloc, call, body.as_slice(), test),
        StmtKind::Choice { branches } => {
            let branches = branches_in(alloc, call, branches.as_slice())?;
            Ok(StmtKind::Choice { branches })
        }
        StmtKind::Evolve {
            rates,
            domain,
            branches,
        } => evolve_in(alloc, call, branches.as_slice(), rates.as_slice(), domain),
    }
}

// The forms with several parts have functions of their own, whose first part is the one that they go down; a part that
// stands in the call already is handed on.

#[cycle(stmts)]
fn if_in(
    alloc: Global,
    call: &Call,
    yes: &[StmtTree],
    test: &CondTree,
) -> Result<StmtKind, AllocError>
    ensures { IfOk result (λ t. t ≡ a.If (spec.cond_in (bindings call.now) test.now) (map (spec.stmt_in (bindings call.now)) yes.now) None) }
{
    let test = cond_in(alloc, call, test)?;
    let yes = statements_in(alloc, call, yes)?;
    Ok(StmtKind::If {
        test,
        yes,
        no: None,
    })
}

#[cycle(stmts)]
fn if_else_in(
    alloc: Global,
    call: &Call,
    no: &[StmtTree],
    test: &CondTree,
    yes: List<StmtTree>,
) -> Result<StmtKind, AllocError>
    ensures { IfOk result (λ t. t ≡ a.If (spec.cond_in (bindings call.now) test.now) yes (Some (map (spec.stmt_in (bindings call.now)) no.now))) }
{
    let test = cond_in(alloc, call, test)?;
    let no = statements_in(alloc, call, no)?;
    Ok(StmtKind::If {
        test,
        yes,
        no: Some(no),
    })
}

#[cycle(stmts)]
fn pick_in(
    alloc: Global,
    call: &Call,
    right: &[StmtTree],
    left: List<StmtTree>,
) -> Result<StmtKind, AllocError>
    ensures { IfOk result (λ t. t ≡ a.Pick left (map (spec.stmt_in (bindings call.now)) right.now)) }
{
    let right = statements_in(alloc, call, right)?;
    Ok(StmtKind::Pick { left, right })
}

#[cycle(stmts)]
fn loop_in(
    alloc: Global,
    call: &Call,
    body: &[StmtTree],
    test: &CondTree,
) -> Result<StmtKind, AllocError>
    ensures { IfOk result (λ t. t ≡ a.Loop (spec.cond_in (bindings call.now) test.now) (map (spec.stmt_in (bindings call.now)) body.now)) }
{
    let test = cond_in(alloc, call, test)?;
    let body = statements_in(alloc, call, body)?;
    Ok(StmtKind::Loop { test, body })
}

#[cycle(stmts)]
fn evolve_in(
    alloc: Global,
    call: &Call,
    branches: &[BranchTree],
    rates: &[RateTree],
    domain: &CondTree,
) -> Result<StmtKind, AllocError>
    ensures { IfOk result (λ t. t ≡ a.Evolve
        (map (spec.rate_in (bindings call.now)) rates.now)
        (spec.cond_in (bindings call.now) domain.now)
        (map (spec.branch_in (bindings call.now)) branches.now)) }
{
    let rates = rates_in(alloc, call, rates)?;
    let domain = cond_in(alloc, call, domain)?;
    let branches = branches_in(alloc, call, branches)?;
    Ok(StmtKind::Evolve {
        rates,
        domain,
        branches,
    })
}

/// The statements of a module in a call.
#[cycle(stmts)]
pub(crate) fn statements_in(
    alloc: Global,
    call: &Call,
    statements: &[StmtTree],
) -> Result<List<StmtTree>, AllocError>
    ensures { IfOk result (λ found. found ≡ map (spec.stmt_in (bindings call.now)) statements.now) }
{
    let mut found = List::new(alloc);
    for statement in statements {
        found.push(stmt_in(alloc, call, statement)?)?;
    }
    Ok(found)
}

#[cycle(stmts)]
fn branch_in(alloc: Global, call: &Call, branch: &BranchTree) -> Result<BranchTree, AllocError>
    ensures { IfOk result (λ t. t ≡ spec.branch_in (bindings call.now) branch.now) }
{
    let io = io_in(alloc, call, &branch.io)?;
    let body = statements_in(alloc, call, branch.body.as_slice())?;
    Ok(BranchTree {
        place: branch.place,
        io,
        body,
    })
}

#[cycle(stmts)]
fn branches_in(
    alloc: Global,
    call: &Call,
    branches: &[BranchTree],
) -> Result<List<BranchTree>, AllocError>
    ensures { IfOk result (λ found. found ≡ map (spec.branch_in (bindings call.now)) branches.now) }
{
    let mut found = List::new(alloc);
    for branch in branches {
        found.push(branch_in(alloc, call, branch)?)?;
    }
    Ok(found)
}
