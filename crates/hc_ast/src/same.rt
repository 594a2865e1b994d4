//! Whether two trees are equal in all but places.

ghost use Rattle.std.specs.Prelude.{◌≡◌, ◌↔◌, IsTrue};
ghost use Rattle.hc_ast.specs.Unplaced.{bare_expr, bare_cond, bare_io, bare_rate, bare_stmt, bare_stmts, bare_branch, bare_branches};

use crate::lists::{Alike, all_alike};
use crate::{
    BranchTree, CondKind, CondTree, ExprKind, ExprTree, IoTree, RateTree, StmtKind, StmtTree,
};

/// Whether two expressions are.
pub(crate) fn same_expr(left: &ExprTree, right: &ExprTree) -> bool
    ensures { IsTrue result ↔ (bare_expr left.now ≡ bare_expr right.now) }
{
    match (&left.kind, &right.kind) {
        (ExprKind::Number(left), ExprKind::Number(right)) => left == right,
        (ExprKind::Name(left), ExprKind::Name(right)) => left == right,
        (ExprKind::Neg(left), ExprKind::Neg(right)) => same_expr(left.get(), right.get()),
        (ExprKind::Binary(op, left, more), ExprKind::Binary(other, right, rest)) => op == other
            && same_expr(left.get(), right.get())
            && same_expr(more.get(), rest.get()),
        _ => false,
    }
}

/// Whether two conditions are.
pub(crate) fn same_cond(left: &CondTree, right: &CondTree) -> bool
    ensures { IsTrue result ↔ (bare_cond left.now ≡ bare_cond right.now) }
{
    match (&left.kind, &right.kind) {
        (CondKind::True, CondKind::True) | (CondKind::False, CondKind::False) => true,
        (CondKind::Compare(how, left, more), CondKind::Compare(other, right, rest)) => how == other
            && same_expr(left.get(), right.get())
            && same_expr(more.get(), rest.get()),
        (CondKind::Not(left), CondKind::Not(right)) => same_cond(left.get(), right.get()),
        (CondKind::And(left, more), CondKind::And(right, rest))
        | (CondKind::Or(left, more), CondKind::Or(right, rest)) => same_cond(
            left.get(),
            right.get(),
        ) && same_cond(more.get(), rest.get()),
        _ => false,
    }
}

fn same_io(left: &IoTree, right: &IoTree) -> bool
    ensures { IsTrue result ↔ (bare_io left.now ≡ bare_io right.now) }
{
    match (left, right) {
        (
            IoTree::Send { channel, value },
            IoTree::Send {
                channel: other,
                value: sent,
            },
        ) => channel == other && same_expr(value, sent),
        (
            IoTree::Receive { channel, target },
            IoTree::Receive {
                channel: other,
                target: taken,
            },
        ) => channel == other && target == taken,
        _ => false,
    }
}

fn same_rate(left: &RateTree, right: &RateTree) -> bool
    ensures { IsTrue result ↔ (bare_rate left.now ≡ bare_rate right.now) }
{
    left.variable == right.variable && same_expr(&left.value, &right.value)
}

impl Alike for RateTree {
    ghost use Rattle.hc_ast.specs.Bare.{BareRate};
    ghost use Rattle.hc_ast.specs.Unplaced.{bare_rate};

    ghost Bare = { BareRate };

    ghost bare = { bare_rate };

    fn is_like(&self, other: &RateTree) -> bool {
        same_rate(self, other)
    }
}

impl Alike for ExprTree {
    ghost use Rattle.hc_ast.specs.Bare.{BareExpr};
    ghost use Rattle.hc_ast.specs.Unplaced.{bare_expr};

    ghost Bare = { BareExpr };

    ghost bare = { bare_expr };

    fn is_like(&self, other: &ExprTree) -> bool {
        same_expr(self, other)
    }
}

/// Whether two statements are.
#[cycle(same_stmts)]
#[tactic(auto, using(crate::proofs::BareForms::forms))]
fn same_stmt(left: &StmtTree, right: &StmtTree) -> bool
    ensures { IsTrue result ↔ (bare_stmt left.now ≡ bare_stmt right.now) }
{
    match (&left.kind, &right.kind) {
        (StmtKind::Skip, StmtKind::Skip) => true,
        (
            StmtKind::Assign { target, value },
            StmtKind::Assign {
                target: other,
                value: more,
            },
        ) => target == other && same_expr(value, more),
        (StmtKind::Wait { time }, StmtKind::Wait { time: other }) => same_expr(time, other),
        (StmtKind::Io(io), StmtKind::Io(other)) => same_io(io, other),
        (StmtKind::Log { value }, StmtKind::Log { value: other }) => same_expr(value, other),
        (
            StmtKind::If { test, yes, no },
            StmtKind::If {
                test: other,
                yes: body,
                no: rest,
            },
        ) => {
            if !same_cond(test, other) {
                return false;
            }
            if !same_statements(yes.as_slice(), body.as_slice()) {
                return false;
            }
            match (no, rest) {
                (Some(no), Some(rest)) => same_statements(no.as_slice(), rest.as_slice()),
                (None, None) => true,
                _ => false,
            }
        }
        (
            StmtKind::Pick { left, right },
            StmtKind::Pick {
                left: first,
                right: second,
            },
        ) => same_statements(left.as_slice(), first.as_slice())
            && same_statements(right.as_slice(), second.as_slice()),
        (StmtKind::Forever { body }, StmtKind::Forever { body: other }) => same_statements(
            body.as_slice(),
            other.as_slice(),
        ),
        (
            StmtKind::Loop { test, body },
            StmtKind::Loop {
                test: other,
                body: more,
            },
        ) => same_cond(test, other) && same_statements(body.as_slice(), more.as_slice()),
        (StmtKind::Choice { branches }, StmtKind::Choice { branches: others }) => same_branches(
            branches.as_slice(),
            others.as_slice(),
        ),
        (
            StmtKind::Evolve {
                rates,
                domain,
                branches,
            },
            StmtKind::Evolve {
                rates: other_rates,
                domain: other,
                branches: others,
            },
        ) => all_alike(rates.as_slice(), other_rates.as_slice())
            && same_cond(domain, other)
            && same_branches(branches.as_slice(), others.as_slice()),
        _ => false,
    }
}

/// Whether two lists of statements are.
#[cycle(same_stmts)]
pub(crate) fn same_statements(left: &[StmtTree], right: &[StmtTree]) -> bool
    ensures { IsTrue result ↔ (bare_stmts left.now ≡ bare_stmts right.now) }
{
    if left.len() != right.len() {
        return false;
    }
    for (at, statement) in left.iter().enumerate() {
        if !same_stmt(statement, &right[at]) {
            return false;
        }
    }
    true
}

#[cycle(same_stmts)]
#[tactic(auto, using(crate::proofs::BareForms::forms))]
fn same_branch(left: &BranchTree, right: &BranchTree) -> bool
    ensures { IsTrue result ↔ (bare_branch left.now ≡ bare_branch right.now) }
{
    same_io(&left.io, &right.io) && same_statements(left.body.as_slice(), right.body.as_slice())
}

#[cycle(same_stmts)]
fn same_branches(left: &[BranchTree], right: &[BranchTree]) -> bool
    ensures { IsTrue result ↔ (bare_branches left.now ≡ bare_branches right.now) }
{
    if left.len() != right.len() {
        return false;
    }
    for (at, branch) in left.iter().enumerate() {
        if !same_branch(branch, &right[at]) {
            return false;
        }
    }
    true
}
