//! Whether two terms are equal.

ghost use Rattle.std.specs.Prelude.{◌≡◌, ◌↔◌, IsTrue};

use crate::{Branch, Cond, Expr, Io, Process, Rate, Stmt, System, Task};
use hc_frac::Name;

/// Whether two expressions are equal.
pub fn same_expr(left: &Expr, right: &Expr) -> bool
    ensures { IsTrue result ↔ (left.now ≡ right.now) }
{
    match (left, right) {
        (Expr::Number(number), Expr::Number(other)) => number.same(*other),
        (Expr::Variable(variable), Expr::Variable(other)) => variable == other,
        (Expr::Neg(part), Expr::Neg(other)) => same_expr(part.get(), other.get()),
        (Expr::Binary(op, first, second), Expr::Binary(other, third, fourth)) => op == other
            && same_expr(first.get(), third.get())
            && same_expr(second.get(), fourth.get()),
        _ => false,
    }
}

/// Whether two conditions are.
pub fn same_cond(left: &Cond, right: &Cond) -> bool
    ensures { IsTrue result ↔ (left.now ≡ right.now) }
{
    match (left, right) {
        (Cond::True, Cond::True) | (Cond::False, Cond::False) => true,
        (Cond::Compare(how, first, second), Cond::Compare(other, third, fourth)) => how == other
            && same_expr(first.get(), third.get())
            && same_expr(second.get(), fourth.get()),
        (Cond::Not(part), Cond::Not(other)) => same_cond(part.get(), other.get()),
        (Cond::And(first, second), Cond::And(third, fourth))
        | (Cond::Or(first, second), Cond::Or(third, fourth)) => same_cond(first.get(), third.get())
            && same_cond(second.get(), fourth.get()),
        _ => false,
    }
}

/// Whether two communications are.
pub fn same_io(left: &Io, right: &Io) -> bool
    ensures { IsTrue result ↔ (left.now ≡ right.now) }
{
    match (left, right) {
        (
            Io::Send { channel, value },
            Io::Send {
                channel: other,
                value: sent,
            },
        ) => channel == other && same_expr(value, sent),
        (
            Io::Receive { channel, variable },
            Io::Receive {
                channel: other,
                variable: taken,
            },
        ) => channel == other && variable == taken,
        _ => false,
    }
}

/// Whether two rates are.
fn same_rate(left: &Rate, right: &Rate) -> bool
    ensures { IsTrue result ↔ (left.now ≡ right.now) }
{
    left.variable == right.variable && same_expr(&left.value, &right.value)
}

/// Whether two lists of rates are.
pub fn same_rates(left: &[Rate], right: &[Rate]) -> bool
    ensures { IsTrue result ↔ (left.now ≡ right.now) }
{
    if left.len() != right.len() {
        return false;
    }
    for (at, rate) in left.iter().enumerate() {
        if !same_rate(rate, &right[at]) {
            return false;
        }
    }
    true
}

/// Whether two statements are equal.
#[cycle(same_stmts)]
fn same_stmt(left: &Stmt, right: &Stmt) -> bool
    ensures { IsTrue result ↔ (left.now ≡ right.now) }
{
    match (left, right) {
        (Stmt::Skip, Stmt::Skip) => true,
        (
            Stmt::Assign { variable, value },
            Stmt::Assign {
                variable: other,
                value: more,
            },
        ) => variable == other && same_expr(value, more),
        (Stmt::Wait { time: value }, Stmt::Wait { time: more })
        | (Stmt::Log { value }, Stmt::Log { value: more }) => same_expr(value, more),
        (Stmt::Io(io), Stmt::Io(other)) => same_io(io, other),
        (
            Stmt::If { test, yes, no },
            Stmt::If {
                test: other,
                yes: first,
                no: second,
            },
        ) => same_cond(test, other)
            && same_stmts(yes.as_slice(), first.as_slice())
            && same_stmts(no.as_slice(), second.as_slice()),
        (
            Stmt::Pick { left, right },
            Stmt::Pick {
                left: first,
                right: second,
            },
        ) => same_stmts(left.as_slice(), first.as_slice())
            && same_stmts(right.as_slice(), second.as_slice()),
        (Stmt::Forever { body }, Stmt::Forever { body: other }) => same_stmts(
            body.as_slice(),
            other.as_slice(),
        ),
        (
            Stmt::Loop { test, body },
            Stmt::Loop {
                test: other,
                body: more,
            },
        ) => same_cond(test, other) && same_stmts(body.as_slice(), more.as_slice()),
        (Stmt::Choice { branches }, Stmt::Choice { branches: others }) => same_branches(
            branches.as_slice(),
            others.as_slice(),
        ),
        (
            Stmt::Evolve {
                rates,
                domain,
                branches,
            },
            Stmt::Evolve {
                rates: moving,
                domain: kept,
                branches: others,
            },
        ) => same_rates(rates.as_slice(), moving.as_slice())
            && same_cond(domain, kept)
            && same_branches(branches.as_slice(), others.as_slice()),
        _ => false,
    }
}

#[cycle(same_stmts)]
fn same_stmts(left: &[Stmt], right: &[Stmt]) -> bool
    ensures { IsTrue result ↔ (left.now ≡ right.now) }
{
    if left.len() != right.len() {
        return false;
    }
    for (at, stmt) in left.iter().enumerate() {
        if !same_stmt(stmt, &right[at]) {
            return false;
        }
    }
    true
}

#[cycle(same_stmts)]
fn same_branch(left: &Branch, right: &Branch) -> bool
    ensures { IsTrue result ↔ (left.now ≡ right.now) }
{
    same_io(&left.io, &right.io) && same_stmts(left.body.as_slice(), right.body.as_slice())
}

#[cycle(same_stmts)]
fn same_branches(left: &[Branch], right: &[Branch]) -> bool
    ensures { IsTrue result ↔ (left.now ≡ right.now) }
{
    if left.len() != right.len() {
        return false;
    }
    for (at, branch) in left.iter().enumerate() {
        if !same_branch(branch, &right[at]) {
            return false;
        }
    }
    true
}

fn same_name(left: &Name, right: &Name) -> bool
    ensures { IsTrue result ↔ (left.now ≡ right.now) }
{
    left == right
}

fn same_names(left: &[Name], right: &[Name]) -> bool
    ensures { IsTrue result ↔ (left.now ≡ right.now) }
{
    if left.len() != right.len() {
        return false;
    }
    for (at, name) in left.iter().enumerate() {
        if !same_name(name, &right[at]) {
            return false;
        }
    }
    true
}

fn same_process(left: &Process, right: &Process) -> bool
    ensures { IsTrue result ↔ (left.now ≡ right.now) }
{
    same_name(&left.name, &right.name)
        && same_names(left.variables.as_slice(), right.variables.as_slice())
        && same_stmts(left.body.as_slice(), right.body.as_slice())
}

fn same_processes(left: &[Process], right: &[Process]) -> bool
    ensures { IsTrue result ↔ (left.now ≡ right.now) }
{
    if left.len() != right.len() {
        return false;
    }
    for (at, process) in left.iter().enumerate() {
        if !same_process(process, &right[at]) {
            return false;
        }
    }
    true
}

fn same_system(left: &System, right: &System) -> bool
    ensures { IsTrue result ↔ (left.now ≡ right.now) }
{
    same_processes(left.processes.as_slice(), right.processes.as_slice())
        && same_names(left.channels.as_slice(), right.channels.as_slice())
}

/// Whether two tasks are equal.
pub fn same_task(left: &Task, right: &Task) -> bool
    ensures { IsTrue result ↔ (left.now ≡ right.now) }
{
    left.seed == right.seed
        && left.limit == right.limit
        && left.horizon.same(right.horizon)
        && same_system(&left.system, &right.system)
}
