//! Determinate systems.

ghost use Rattle.std.specs.Prelude.{◌≡◌};
ghost use Rattle.std.specs.List.{list_all};
ghost use Rattle.hc_order.specs.Determinate.{is_single, is_determinate};
ghost use Rattle.hc_det.specs.Single.{one_branch};

use hc_term::{Branch, Process, Stmt, System};

/// Whether each choice and each evolution of the system has at most one branch, so that no process ever chooses between
/// communications.
pub fn determinate(system: &System) -> bool
    ensures { result ≡ is_determinate system.now }
{
    are_single(system.processes.as_slice())
}

fn are_single(processes: &[Process]) -> bool
    ensures { result ≡ list_all (λ p. list_all is_single p.body) processes.now }
{
    for process in processes {
        if !all_single(process.body.as_slice()) {
            return false;
        }
    }
    true
}

/// Whether each choice and each evolution in the statement has at most one branch.
#[cycle(single)]
fn is_single(stmt: &Stmt) -> bool
    ensures { result ≡ is_single stmt.now }
{
    match stmt {
        Stmt::Skip | Stmt::Assign { .. } | Stmt::Wait { .. } | Stmt::Log { .. } | Stmt::Io(_) =>
            true,
        Stmt::If { test: _, yes, no } => {
            let first = all_single(yes.as_slice());
            let second = all_single(no.as_slice());
            first & second
        }
        Stmt::Pick { left, right } => {
            let first = all_single(left.as_slice());
            let second = all_single(right.as_slice());
            first & second
        }
        Stmt::Forever { body } => all_single(body.as_slice()),
        Stmt::Loop { test: _, body } => all_single(body.as_slice()),
        Stmt::Choice { branches } => is_one_branch(branches.as_slice()),
        Stmt::Evolve {
            rates: _,
            domain: _,
            branches,
        } => is_one_branch(branches.as_slice()),
    }
}

#[cycle(single)]
fn all_single(stmts: &[Stmt]) -> bool
    ensures { result ≡ list_all is_single stmts.now }
{
    for stmt in stmts {
        if !is_single(stmt) {
            return false;
        }
    }
    true
}

/// Whether there is at most one branch, and its statements are single.
#[cycle(single)]
fn is_one_branch(branches: &[Branch]) -> bool
    ensures { result ≡ one_branch branches.now }
{
    match branches {
        [] => true,
        [branch] => all_single(branch.body.as_slice()),
        _ => false,
    }
}
