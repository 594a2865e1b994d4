//! That all numbers of a task are fractions. Only a fraction itself tells that it fits, so each is read.

ghost use Rattle.std.specs.Prelude.{◌&&◌, IsTrue};
ghost use Rattle.std.specs.List.{list_all};
ghost use Rattle.hc_term.specs.declared.stmt.Branch.{out-Branch};
ghost use Rattle.hc_runs.specs.Fractions.{numbers, numbers_sent, numbers_in, all_numbers, task_numbers};

use hc_term::{Branch, Expr, Io, Process, Rate, Stmt, Task};

fn read_expr(expr: &Expr)
    ensures { IsTrue (numbers expr.now) }
{
    match expr {
        Expr::Number(number) => {
            let _numerator = number.num();
        }
        Expr::Variable(_) => {}
        Expr::Neg(part) => read_expr(part.get()),
        Expr::Binary(_, left, right) => {
            read_expr(left.get());
            read_expr(right.get());
        }
    }
}

fn read_io(io: &Io)
    ensures { IsTrue (numbers_sent io.now) }
{
    match io {
        Io::Send { channel: _, value } => read_expr(value),
        Io::Receive { .. } => {}
    }
}

fn read_rates(rates: &[Rate])
    ensures { IsTrue (list_all (λ r. numbers r.value) rates.now) }
{
    for rate in rates {
        read_expr(&rate.value);
    }
}

#[cycle(statements)]
fn read_stmt(stmt: &Stmt)
    ensures { IsTrue (numbers_in stmt.now) }
{
    match stmt {
        Stmt::Skip => {}
        Stmt::Assign { variable: _, value } => read_expr(value),
        Stmt::Wait { time } => read_expr(time),
        Stmt::Io(io) => read_io(io),
        Stmt::Log { value } => read_expr(value),
        Stmt::If { test: _, yes, no } => {
            read_all(yes.as_slice());
            read_all(no.as_slice());
        }
        Stmt::Pick { left, right } => {
            read_all(left.as_slice());
            read_all(right.as_slice());
        }
        Stmt::Forever { body } => read_all(body.as_slice()),
        Stmt::Loop { test: _, body } => read_all(body.as_slice()),
        Stmt::Choice { branches } => read_branches(branches.as_slice()),
        Stmt::Evolve {
            rates,
            domain: _,
            branches,
        } => {
            read_rates(rates.as_slice());
            read_branches(branches.as_slice());
        }
    }
}

#[cycle(statements)]
fn read_all(stmts: &[Stmt])
    ensures { IsTrue (all_numbers stmts.now) }
{
    for stmt in stmts {
        read_stmt(stmt);
    }
}

#[cycle(statements)]
fn read_branches(branches: &[Branch])
    ensures { IsTrue (list_all (λ b. numbers_sent (out-Branch b).io && all_numbers (out-Branch b).body) branches.now) }
{
    for branch in branches {
        read_io(&branch.io);
        read_all(branch.body.as_slice());
    }
}

fn read_processes(processes: &[Process])
    ensures { IsTrue (list_all (λ p. all_numbers p.body) processes.now) }
{
    for process in processes {
        read_all(process.body.as_slice());
    }
}

/// All numbers of a task are fractions, which is what the laws of fractions ask of it.
pub fn read_numbers(task: &Task)
    ensures { IsTrue (task_numbers task.now) }
{
    read_processes(task.system.processes.as_slice());
}
