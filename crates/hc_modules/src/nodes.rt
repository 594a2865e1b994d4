//! How many nodes the expressions of statements have in a call.

ghost use Rattle.std.specs.Prelude.{◌≡◌, ◌∷◌, [], map, flat_map, fold, min};
ghost use Rattle.hc_modules.specs.Calls.{bindings};
ghost use Rattle.hc_modules.specs.Counted.{add};
ghost use Rattle.hc_modules.specs.Outermost as out;
ghost use Rattle.hc_modules.specs.Replaced as spec;
ghost use Rattle.hc_modules.specs.Sizes.{nodes, cond_nodes};

use crate::call::Call;
use crate::counts::nodes_of;
use hc_ast::{
    BranchTree, CondKind, CondTree, ExprKind, ExprTree, IoTree, RateTree, StmtKind, StmtTree,
};
use hc_frac::Place;
use hc_limits::MOST_NODES_IN_ALL;

/// How many nodes were met so far, or where the first expression or condition is with which there are too many.
#[derive(Clone, Copy)]
pub(crate) enum NodeCount {
    Within(u32),
    Beyond(Place),
}

/// The nodes that an expression has in a call.
fn nodes_in(call: &Call, expr: &ExprTree) -> u32
    ensures { result ≡ min (nodes (spec.expr_in (bindings call.now) expr.now)) 4294967295 }
{
    match &expr.kind {
        ExprKind::Number(_) => 1,
        ExprKind::Name(name) => match call.value(name) {
            Some(argument) => nodes_of(argument),
            None => 1,
        },
        ExprKind::Neg(part) => nodes_in(call, part.get()).saturating_add(1),
        ExprKind::Binary(_, left, right) => {
            let both = nodes_in(call, left.get()).saturating_add(nodes_in(call, right.get()));
            both.saturating_add(1)
        }
    }
}

/// Those of a condition with its expressions.
fn cond_nodes_in(call: &Call, cond: &CondTree) -> u32
    ensures { result ≡ min (cond_nodes (spec.cond_in (bindings call.now) cond.now)) 4294967295 }
{
    match &cond.kind {
        CondKind::True | CondKind::False => 1,
        CondKind::Compare(_, left, right) => {
            let both = nodes_in(call, left.get()).saturating_add(nodes_in(call, right.get()));
            both.saturating_add(1)
        }
        CondKind::Not(part) => cond_nodes_in(call, part.get()).saturating_add(1),
        CondKind::And(left, right) | CondKind::Or(left, right) => {
            let first = cond_nodes_in(call, left.get());
            let both = first.saturating_add(cond_nodes_in(call, right.get()));
            both.saturating_add(1)
        }
    }
}

/// Where the root of an expression stands in a call: an argument keeps its place.
fn root_in(call: &Call, expr: &ExprTree) -> Place
    ensures { result ≡ (spec.expr_in (bindings call.now) expr.now).place }
{
    match &expr.kind {
        ExprKind::Name(name) => match call.value(name) {
            Some(argument) => argument.place,
            None => expr.place,
        },
        _ => expr.place,
    }
}

impl NodeCount {
    fn expr(self, call: &Call, expr: &ExprTree) -> NodeCount
        ensures { result ≡ add self (out.of_expr (spec.expr_in (bindings call.now) expr.now)) }
    {
        let NodeCount::Within(counted) = self else {
            return self;
        };
        let counted = counted.saturating_add(nodes_in(call, expr));
        if counted > MOST_NODES_IN_ALL {
            NodeCount::Beyond(root_in(call, expr))
        } else {
            NodeCount::Within(counted)
        }
    }

    fn cond(self, call: &Call, cond: &CondTree) -> NodeCount
        ensures { result ≡ add self (out.of_cond (spec.cond_in (bindings call.now) cond.now)) }
    {
        let NodeCount::Within(counted) = self else {
            return self;
        };
        let counted = counted.saturating_add(cond_nodes_in(call, cond));
        if counted > MOST_NODES_IN_ALL {
            NodeCount::Beyond(cond.place)
        } else {
            NodeCount::Within(counted)
        }
    }

    fn io(self, call: &Call, io: &IoTree) -> NodeCount
        ensures { result ≡ fold add self (out.of_io (spec.io_in (bindings call.now) io.now)) }
    {
        match io {
            IoTree::Send { channel: _, value } => self.expr(call, value),
            IoTree::Receive { .. } => self,
        }
    }

    fn rates(self, call: &Call, rates: &[RateTree]) -> NodeCount
        ensures { result ≡ fold add self (map (λ r. out.of_expr r.value) (map (spec.rate_in (bindings call.now)) rates.now)) }
    {
        let mut count = self;
        for rate in rates {
            count = count.expr(call, &rate.value);
        }
        count
    }

    /// Goes on with the expressions of a statement.
    #[cycle(node_counts)]
    fn stmt(self, call: &Call, stmt: &StmtTree) -> NodeCount
        ensures { result ≡ fold add self (out.outermost (spec.stmt_in (bindings call.now) stmt.now)) }
    {
        match &stmt.kind {
            StmtKind::Skip => self,
            StmtKind::Assign { target: _, value } => self.expr(call, value),
            StmtKind::Wait { time } => self.expr(call, time),
            StmtKind::Io(io) => self.io(call, io),
            StmtKind::Log { value } => self.expr(call, value),
            StmtKind::If { test, yes, no } => {
                let first = self.cond(call, test).stmts(call, yes.as_slice());
                match no {
                    Some(no) => first.stmts(call, no.as_slice()),
                    None => first,
                }
            }
            StmtKind::Pick { left, right } => {
                let first = self.stmts(call, left.as_slice());
                first.stmts(call, right.as_slice())
            }
            StmtKind::Forever { body } => self.stmts(call, body.as_slice()),
            StmtKind::Loop { test, body } => self.stmts(call, body.as_slice()).cond(call, test),
            StmtKind::Choice { branches } => self.branches(call, branches.as_slice()),
            StmtKind::Evolve {
                rates,
                domain,
                branches,
            } => {
                let first = self.rates(call, rates.as_slice()).cond(call, domain);
                first.branches(call, branches.as_slice())
            }
        }
    }

    /// Goes on with the expressions of statements.
    #[cycle(node_counts)]
    pub(crate) fn stmts(self, call: &Call, stmts: &[StmtTree]) -> NodeCount
        ensures { result ≡ fold add self (flat_map out.outermost (map (spec.stmt_in (bindings call.now)) stmts.now)) }
    {
        let mut count = self;
        for stmt in stmts {
            count = count.stmt(call, stmt);
        }
        count
    }

    #[cycle(node_counts)]
    #[tactic(auto, using(crate::proofs::OutermostForms::branch_forms))]
    fn branch(self, call: &Call, branch: &BranchTree) -> NodeCount
        ensures { result ≡ fold add self (out.branch_outermost (spec.branch_in (bindings call.now) branch.now)) }
    {
        let first = self.io(call, &branch.io);
        first.stmts(call, branch.body.as_slice())
    }

    #[cycle(node_counts)]
    fn branches(self, call: &Call, branches: &[BranchTree]) -> NodeCount
        ensures { result ≡ fold add self (flat_map out.branch_outermost (map (spec.branch_in (bindings call.now)) branches.now)) }
    {
        let mut count = self;
        for branch in branches {
            count = count.branch(call, branch);
        }
        count
    }
}
