//! Names by their numbers, and numbers as fractions.

ghost use Rattle.std.specs.Prelude.{◌≡◌, ◌<◌, ◌^◌, [], length, map, IfOk};
ghost use Rattle.hc_term.specs.declared.stmt.Stmt.TheVariants as a;
ghost use Rattle.hc_finds.specs.Names.{number_in};
ghost use Rattle.hc_check.specs.Numbered as spec;
ghost use Rattle.hc_check.specs.Numberings.{IsSmall};

use hc_ast::{
    BranchTree, CondKind, CondTree, ExprKind, ExprTree, IoTree, RateTree, StmtKind, StmtTree,
};
use hc_frac::Name;
use hc_list::{Boxed, List};
use hc_term::{Branch, Comparison, Cond, Expr, Io, Op, Rate, Stmt};
use indexmap::IndexSet;
use std::alloc::{AllocError, Global};

/// The number of a name: how many names stand before it.
fn number(names: &IndexSet<Name>, name: &Name) -> u32
    requires { length names.now.keys < 2 ^ 32 }
    ensures { result ≡ number_in names.now.keys name.now }
{
    match names.get_index_of(name) {
        Some(at) => at as u32,
        None => names.len() as u32,
    }
}

fn op_of(op: hc_ast::Op) -> Op
    ensures { result ≡ spec.op_of op }
{
    match op {
        hc_ast::Op::Add => Op::Add,
        hc_ast::Op::Sub => Op::Sub,
        hc_ast::Op::Mul => Op::Mul,
        hc_ast::Op::Div => Op::Div,
    }
}

fn comparison_of(how: hc_ast::Comparison) -> Comparison
    ensures { result ≡ spec.comparison_of how }
{
    match how {
        hc_ast::Comparison::Less => Comparison::Less,
        hc_ast::Comparison::AtMost => Comparison::AtMost,
        hc_ast::Comparison::Equal => Comparison::Equal,
        hc_ast::Comparison::NotEqual => Comparison::NotEqual,
        hc_ast::Comparison::AtLeast => Comparison::AtLeast,
        hc_ast::Comparison::Greater => Comparison::Greater,
    }
}

/// An expression over these variables.
#[cycle(exprs)]
fn number_expr(
    alloc: Global,
    variables: &IndexSet<Name>,
    expr: &ExprTree,
) -> Result<Expr, AllocError>
    requires { length variables.now.keys < 2 ^ 32 }
    ensures { IfOk result (λ e. e ≡ spec.expr_over variables.now.keys expr.now) }
{
    match &expr.kind {
        ExprKind::Number(number) => Ok(Expr::Number(number.value())),
        ExprKind::Name(name) => Ok(Expr::Variable(number(variables, name))),
        ExprKind::Neg(part) => {
            let part = boxed_expr(alloc, variables, part)?;
            Ok(Expr::Neg(part))
        }
        ExprKind::Binary(op, left, right) => {
            let left = boxed_expr(alloc, variables, left)?;
            let right = boxed_expr(alloc, variables, right)?;
            Ok(Expr::Binary(op_of(*op), left, right))
        }
    }
}

#[cycle(exprs)]
fn boxed_expr(
    alloc: Global,
    variables: &IndexSet<Name>,
    part: &Boxed<ExprTree>,
) -> Result<Boxed<Expr>, AllocError>
    requires { length variables.now.keys < 2 ^ 32 }
    ensures { IfOk result (λ e. e ≡ spec.expr_over variables.now.keys part.now) }
{
    let part = number_expr(alloc, variables, part.get())?;
    Boxed::new(alloc, part)
}

/// A condition over these variables.
#[cycle(conds)]
fn number_cond(
    alloc: Global,
    variables: &IndexSet<Name>,
    cond: &CondTree,
) -> Result<Cond, AllocError>
    requires { length variables.now.keys < 2 ^ 32 }
    ensures { IfOk result (λ c. c ≡ spec.cond_over variables.now.keys cond.now) }
{
    match &cond.kind {
        CondKind::True => Ok(Cond::True),
        CondKind::False => Ok(Cond::False),
        CondKind::Compare(how, left, right) => {
            let left = boxed_expr(alloc, variables, left)?;
            let right = boxed_expr(alloc, variables, right)?;
            Ok(Cond::Compare(comparison_of(*how), left, right))
        }
        CondKind::Not(part) => {
            let part = boxed_cond(alloc, variables, part)?;
            Ok(Cond::Not(part))
        }
        CondKind::And(left, right) => {
            let left = boxed_cond(alloc, variables, left)?;
            let right = boxed_cond(alloc, variables, right)?;
            Ok(Cond::And(left, right))
        }
        CondKind::Or(left, right) => {
            let left = boxed_cond(alloc, variables, left)?;
            let right = boxed_cond(alloc, variables, right)?;
            Ok(Cond::Or(left, right))
        }
    }
}

#[cycle(conds)]
fn boxed_cond(
    alloc: Global,
    variables: &IndexSet<Name>,
    part: &Boxed<CondTree>,
) -> Result<Boxed<Cond>, AllocError>
    requires { length variables.now.keys < 2 ^ 32 }
    ensures { IfOk result (λ c. c ≡ spec.cond_over variables.now.keys part.now) }
{
    let part = number_cond(alloc, variables, part.get())?;
    Boxed::new(alloc, part)
}

/// The names by which statements are numbered.
#[derive(Clone, Copy)]
pub(crate) struct Numbering<'a> {
    pub(crate) channels: &'a IndexSet<Name>,
    pub(crate) variables: &'a IndexSet<Name>,
}

fn number_io(alloc: Global, names: Numbering<'_>, io: &IoTree) -> Result<Io, AllocError>
    requires { IsSmall names }
    ensures { IfOk result (λ i. i ≡ spec.io_over names.entry.channels.now.keys names.entry.variables.now.keys io.now) }
{
    match io {
        IoTree::Send { channel, value } => {
            let value = number_expr(alloc, names.variables, value)?;
            Ok(Io::Send {
                channel: number(names.channels, channel),
                value,
            })
        }
        IoTree::Receive { channel, target } => Ok(Io::Receive {
            channel: number(names.channels, channel),
            variable: number(names.variables, target),
        }),
    }
}

fn number_rates(
    alloc: Global,
    variables: &IndexSet<Name>,
    rates: &[RateTree],
) -> Result<List<Rate>, AllocError>
    requires { length variables.now.keys < 2 ^ 32 }
    ensures { IfOk result (λ rs. rs ≡ map (spec.rate_over variables.now.keys) rates.now) }
{
    let mut found = List::new(alloc);
    for rate in rates {
        let value = number_expr(alloc, variables, &rate.value)?;
        found.push(Rate {
            variable: number(variables, &rate.variable),
            value,
        })?;
    }
    Ok(found)
}

/// A statement over these channels and variables.
#[cycle(numbered)]
fn number_stmt(alloc: Global, names: Numbering<'_>, stmt: &StmtTree) -> Result<Stmt, AllocError>
    requires { IsSmall names }
    ensures { IfOk result (λ s. s ≡ spec.stmt_over names.entry.channels.now.keys names.entry.variables.now.keys stmt.now) }
{
    match &stmt.kind {
        StmtKind::Skip => Ok(Stmt::Skip),
        StmtKind::Assign { target, value } => {
            let value = number_expr(alloc, names.variables, value)?;
            Ok(Stmt::Assign {
                variable: number(names.variables, target),
                value,
            })
        }
        StmtKind::Wait { time } => {
            let time = number_expr(alloc, names.variables, time)?;
            Ok(Stmt::Wait { time })
        }
        StmtKind::Io(io) => {
            let io = number_io(alloc, names, io)?;
            Ok(Stmt::Io(io))
        }
        StmtKind::Log { value } => {
            let value = number_expr(alloc, names.variables, value)?;
            Ok(Stmt::Log { value })
        }
        StmtKind::If {
            test,
            yes,
            no: None,
        } => number_if(alloc, names, yes.as_slice(), test),
        StmtKind::If {
            test,
            yes,
            no: Some(no),
        } => {
            let yes = number_stmts(alloc, names, yes.as_slice())?;
            number_if_else(alloc, names, no.as_slice(), test, yes)
        }
        StmtKind::Pick { left, right } => {
            let left = number_stmts(alloc, names, left.as_slice())?;
            number_pick(alloc, names, right.as_slice(), left)
        }
        StmtKind::Forever { body } => {
            let body = number_stmts(alloc, names, body.as_slice())?;
            Ok(Stmt::Forever { body })
        }
        StmtKind::Loop { test, body } => number_loop(alloc, names, body.as_slice(), test),
        StmtKind::Choice { branches } => {
            let branches = number_branches(alloc, names, branches.as_slice())?;
            Ok(Stmt::Choice { branches })
        }
        StmtKind::Evolve {
            rates,
            domain,
            branches,
        } => number_evolve(alloc, names, branches.as_slice(), rates.as_slice(), domain),
    }
}

// The forms with several parts have functions of their own, whose first part is the one that they go down; a part that
// was numbered before is handed on.

#[cycle(numbered)]
fn number_if(
    alloc: Global,
    names: Numbering<'_>,
    yes: &[StmtTree],
    test: &CondTree,
) -> Result<Stmt, AllocError>
    requires { IsSmall names }
    ensures { IfOk result (λ s. s ≡ a.If (spec.cond_over names.entry.variables.now.keys test.now) (map (spec.stmt_over names.entry.channels.now.keys names.entry.variables.now.keys) yes.now) []) }
{
    let test = number_cond(alloc, names.variables, test)?;
    let yes = number_stmts(alloc, names, yes)?;
    Ok(Stmt::If {
        test,
        yes,
        no: List::new(alloc),
    })
}

#[cycle(numbered)]
fn number_if_else(
    alloc: Global,
    names: Numbering<'_>,
    no: &[StmtTree],
    test: &CondTree,
    yes: List<Stmt>,
) -> Result<Stmt, AllocError>
    requires { IsSmall names }
    ensures { IfOk result (λ s. s ≡ a.If (spec.cond_over names.entry.variables.now.keys test.now) yes (map (spec.stmt_over names.entry.channels.now.keys names.entry.variables.now.keys) no.now)) }
{
    let test = number_cond(alloc, names.variables, test)?;
    let no = number_stmts(alloc, names, no)?;
    Ok(Stmt::If { test, yes, no })
}

#[cycle(numbered)]
fn number_pick(
    alloc: Global,
    names: Numbering<'_>,
    right: &[StmtTree],
    left: List<Stmt>,
) -> Result<Stmt, AllocError>
    requires { IsSmall names }
    ensures { IfOk result (λ s. s ≡ a.Pick left (map (spec.stmt_over names.entry.channels.now.keys names.entry.variables.now.keys) right.now)) }
{
    let right = number_stmts(alloc, names, right)?;
    Ok(Stmt::Pick { left, right })
}

#[cycle(numbered)]
fn number_loop(
    alloc: Global,
    names: Numbering<'_>,
    body: &[StmtTree],
    test: &CondTree,
) -> Result<Stmt, AllocError>
    requires { IsSmall names }
    ensures { IfOk result (λ s. s ≡ a.Loop (spec.cond_over names.entry.variables.now.keys test.now) (map (spec.stmt_over names.entry.channels.now.keys names.entry.variables.now.keys) body.now)) }
{
    let test = number_cond(alloc, names.variables, test)?;
    let body = number_stmts(alloc, names, body)?;
    Ok(Stmt::Loop { test, body })
}

#[cycle(numbered)]
fn number_evolve(
    alloc: Global,
    names: Numbering<'_>,
    branches: &[BranchTree],
    rates: &[RateTree],
    domain: &CondTree,
) -> Result<Stmt, AllocError>
    requires { IsSmall names }
    ensures { IfOk result (λ s. s ≡ a.Evolve
        (map (spec.rate_over names.entry.variables.now.keys) rates.now)
        (spec.cond_over names.entry.variables.now.keys domain.now)
        (map (spec.branch_over names.entry.channels.now.keys names.entry.variables.now.keys) branches.now)) }
{
    let rates = number_rates(alloc, names.variables, rates)?;
    let domain = number_cond(alloc, names.variables, domain)?;
    let branches = number_branches(alloc, names, branches)?;
    Ok(Stmt::Evolve {
        rates,
        domain,
        branches,
    })
}

/// Statements over these channels and variables, in their order.
#[cycle(numbered)]
pub(crate) fn number_stmts(
    alloc: Global,
    names: Numbering<'_>,
    stmts: &[StmtTree],
) -> Result<List<Stmt>, AllocError>
    requires { IsSmall names }
    ensures { IfOk result (λ ss. ss ≡ map (spec.stmt_over names.entry.channels.now.keys names.entry.variables.now.keys) stmts.now) }
{
    let mut found = List::new(alloc);
    for stmt in stmts {
        found.push(number_stmt(alloc, names, stmt)?)?;
    }
    Ok(found)
}

#[cycle(numbered)]
fn number_branches(
    alloc: Global,
    names: Numbering<'_>,
    branches: &[BranchTree],
) -> Result<List<Branch>, AllocError>
    requires { IsSmall names }
    ensures { IfOk result (λ bs. bs ≡ map (spec.branch_over names.entry.channels.now.keys names.entry.variables.now.keys) branches.now) }
{
    let mut found = List::new(alloc);
    for branch in branches {
        found.push(number_branch(alloc, names, branch)?)?;
    }
    Ok(found)
}

#[cycle(numbered)]
fn number_branch(
    alloc: Global,
    names: Numbering<'_>,
    branch: &BranchTree,
) -> Result<Branch, AllocError>
    requires { IsSmall names }
    ensures { IfOk result (λ b. b ≡ spec.branch_over names.entry.channels.now.keys names.entry.variables.now.keys branch.now) }
{
    let io = number_io(alloc, names, &branch.io)?;
    let body = number_stmts(alloc, names, branch.body.as_slice())?;
    Ok(Branch { io, body })
}
