//! The numbers of statements, for those of at most 10,000.

ghost use Rattle.std.specs.Prelude.{◌≡◌, ◌≤◌, sum_by};
ghost use Rattle.hc_limits.specs.Limits.{most_statements};
ghost use Rattle.hc_term.specs.Rules.{statements};
ghost use Rattle.hc_code.specs.Pieces.{branch_statements};

use hc_term::{Branch, Stmt};

/// One for each statement, with those inside it.
#[cycle(counts)]
pub(crate) fn count_one(stmt: &Stmt) -> u32
    requires { statements stmt.now ≤ most_statements }
    ensures { result ≡ statements stmt.now }
{
    match stmt {
        Stmt::If { test: _, yes, no } => 1 + count_all(yes.as_slice()) + count_all(no.as_slice()),
        Stmt::Pick { left, right } => 1 + count_all(left.as_slice()) + count_all(right.as_slice()),
        Stmt::Forever { body } => 1 + count_all(body.as_slice()),
        Stmt::Loop { test: _, body } => 1 + count_all(body.as_slice()),
        Stmt::Choice { branches } => 1 + count_branches(branches.as_slice()),
        Stmt::Evolve {
            rates: _,
            domain: _,
            branches,
        } => 1 + count_branches(branches.as_slice()),
        _ => 1,
    }
}

#[cycle(counts)]
pub(crate) fn count_all(stmts: &[Stmt]) -> u32
    requires { sum_by statements stmts.now ≤ most_statements }
    ensures { result ≡ sum_by statements stmts.now }
{
    let mut total: u32 = 0;
    for stmt in stmts {
        total += count_one(stmt);
    }
    total
}

#[cycle(counts)]
fn count_branches(branches: &[Branch]) -> u32
    requires { branch_statements branches.now ≤ most_statements }
    ensures { result ≡ branch_statements branches.now }
{
    let mut total: u32 = 0;
    for branch in branches {
        total += count_all(branch.body.as_slice());
    }
    total
}
