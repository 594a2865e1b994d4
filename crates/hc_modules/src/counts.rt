//! How many statements there are, and how many nodes an expression has. Counts stop at the greatest number of 32 bits, which is above each limit.

ghost use Rattle.std.specs.Prelude.{◌≡◌, min, sum_by};
ghost use Rattle.hc_ast.specs.declared.stmt.BranchTree.{out-BranchTree};
ghost use Rattle.hc_modules.specs.Sizes as spec;

use hc_ast::{BranchTree, CondKind, CondTree, ExprKind, ExprTree, StmtKind, StmtTree};

/// One for the statement, with those inside it besides.
#[cycle(counts)]
fn statements_of(stmt: &StmtTree) -> u32
    ensures { result ≡ min (spec.statements stmt.now) 4294967295 }
{
    match &stmt.kind {
        StmtKind::If { test: _, yes, no } => {
            let first = statements_of_all(yes.as_slice()).saturating_add(1);
            match no {
                Some(no) => first.saturating_add(statements_of_all(no.as_slice())),
                None => first,
            }
        }
        StmtKind::Pick { left, right } => {
            let first = statements_of_all(left.as_slice()).saturating_add(1);
            first.saturating_add(statements_of_all(right.as_slice()))
        }
        StmtKind::Forever { body } => statements_of_all(body.as_slice()).saturating_add(1),
        StmtKind::Loop { test: _, body } => statements_of_all(body.as_slice()).saturating_add(1),
        StmtKind::Choice { branches } => statements_of_branches(branches.as_slice()).saturating_add(
            1,
        ),
        StmtKind::Evolve {
            rates: _,
            domain: _,
            branches,
        } => statements_of_branches(branches.as_slice()).saturating_add(1),
        _ => 1,
    }
}

/// Those of all of them.
#[cycle(counts)]
pub(crate) fn statements_of_all(stmts: &[StmtTree]) -> u32
    ensures { result ≡ min (sum_by spec.statements stmts.now) 4294967295 }
{
    let mut total: u32 = 0;
    for stmt in stmts {
        total = total.saturating_add(statements_of(stmt));
    }
    total
}

#[cycle(counts)]
fn statements_of_branches(branches: &[BranchTree]) -> u32
    ensures { result ≡ min (sum_by (λ b. sum_by spec.statements (out-BranchTree b).body) branches.now) 4294967295 }
{
    let mut total: u32 = 0;
    for branch in branches {
        total = total.saturating_add(statements_of_all(branch.body.as_slice()));
    }
    total
}

/// The nodes of an expression, up to the greatest number of 32 bits.
pub fn nodes_of(expr: &ExprTree) -> u32
    ensures { result ≡ min (spec.nodes expr.now) 4294967295 }
{
    match &expr.kind {
        ExprKind::Number(_) | ExprKind::Name(_) => 1,
        ExprKind::Neg(part) => nodes_of(part.get()).saturating_add(1),
        ExprKind::Binary(_, left, right) => {
            let both = nodes_of(left.get()).saturating_add(nodes_of(right.get()));
            both.saturating_add(1)
        }
    }
}

/// Those of a condition with its expressions, up to the same number.
pub fn cond_nodes_of(cond: &CondTree) -> u32
    ensures { result ≡ min (spec.cond_nodes cond.now) 4294967295 }
{
    match &cond.kind {
        CondKind::True | CondKind::False => 1,
        CondKind::Compare(_, left, right) => {
            let both = nodes_of(left.get()).saturating_add(nodes_of(right.get()));
            both.saturating_add(1)
        }
        CondKind::Not(part) => cond_nodes_of(part.get()).saturating_add(1),
        CondKind::And(left, right) | CondKind::Or(left, right) => {
            let first = cond_nodes_of(left.get());
            let both = first.saturating_add(cond_nodes_of(right.get()));
            both.saturating_add(1)
        }
    }
}
