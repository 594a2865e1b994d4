//! Expressions and conditions.

ghost use Rattle.std.specs.Prelude.{◌≡◌, IfOk};

use crate::lists::Copied;
use hc_frac::{Decimal, Name, Place};
use hc_list::Boxed;
use std::alloc::{AllocError, Global};

/// A sign between two expressions.
#[derive(Clone, Copy, Debug, PartialEq, Eq)]
pub enum Op {
    Add,
    Sub,
    Mul,
    Div,
}

/// How the two sides of a comparison are compared.
#[derive(Clone, Copy, Debug, PartialEq, Eq)]
pub enum Comparison {
    Less,
    AtMost,
    Equal,
    NotEqual,
    AtLeast,
    Greater,
}

/// An expression, at its sign, number or word.
#[derive(Drop)]
#[cycle(expr)]
pub struct ExprTree {
    pub place: Place,
    pub kind: ExprKind,
}

/// What an expression is. Round brackets make no node.
#[derive(Drop)]
#[cycle(expr)]
pub enum ExprKind {
    Number(Decimal),
    Name(Name),
    Neg(Boxed<ExprTree>),
    Binary(Op, Boxed<ExprTree>, Boxed<ExprTree>),
}

/// A condition, at its sign or word.
#[derive(Drop)]
#[cycle(cond)]
pub struct CondTree {
    pub place: Place,
    pub kind: CondKind,
}

/// What a condition is. Square brackets make no node.
#[derive(Drop)]
#[cycle(cond)]
pub enum CondKind {
    True,
    False,
    Compare(Comparison, Boxed<ExprTree>, Boxed<ExprTree>),
    Not(Boxed<CondTree>),
    And(Boxed<CondTree>, Boxed<CondTree>),
    Or(Boxed<CondTree>, Boxed<CondTree>),
}

impl ExprTree {
    /// An equal expression.
    #[cycle(expr_copies)]
    pub fn copy(&self, alloc: Global) -> Result<ExprTree, AllocError>
        ensures { IfOk result (λ t. t ≡ self.now) }
    {
        let kind = self.kind.copy(alloc)?;
        Ok(ExprTree {
            place: self.place,
            kind,
        })
    }
}

impl ExprKind {
    /// An equal expression.
    #[cycle(expr_copies)]
    pub fn copy(&self, alloc: Global) -> Result<ExprKind, AllocError>
        ensures { IfOk result (λ t. t ≡ self.now) }
    {
        match self {
            ExprKind::Number(number) => Ok(ExprKind::Number(*number)),
            ExprKind::Name(name) => Ok(ExprKind::Name(name.copy())),
            ExprKind::Neg(part) => {
                let part = boxed_expr(alloc, part)?;
                Ok(ExprKind::Neg(part))
            }
            ExprKind::Binary(op, left, right) => {
                let left = boxed_expr(alloc, left)?;
                let right = boxed_expr(alloc, right)?;
                Ok(ExprKind::Binary(*op, left, right))
            }
        }
    }
}

#[cycle(expr_copies)]
fn boxed_expr(alloc: Global, part: &Boxed<ExprTree>) -> Result<Boxed<ExprTree>, AllocError>
    ensures { IfOk result (λ t. t ≡ part.now) }
{
    let copy = part.get().copy(alloc)?;
    Boxed::new(alloc, copy)
}

impl CondTree {
    /// An equal condition.
    #[cycle(cond_copies)]
    pub fn copy(&self, alloc: Global) -> Result<CondTree, AllocError>
        ensures { IfOk result (λ t. t ≡ self.now) }
    {
        let kind = self.kind.copy(alloc)?;
        Ok(CondTree {
            place: self.place,
            kind,
        })
    }
}

impl CondKind {
    /// An equal condition.
    #[cycle(cond_copies)]
    pub fn copy(&self, alloc: Global) -> Result<CondKind, AllocError>
        ensures { IfOk result (λ t. t ≡ self.now) }
    {
        match self {
            CondKind::True => Ok(CondKind::True),
            CondKind::False => Ok(CondKind::False),
            CondKind::Compare(how, left, right) => {
                let left = boxed_expr(alloc, left)?;
                let right = boxed_expr(alloc, right)?;
                Ok(CondKind::Compare(*how, left, right))
            }
            CondKind::Not(part) => {
                let part = boxed_cond(alloc, part)?;
                Ok(CondKind::Not(part))
            }
            CondKind::And(left, right) => {
                let left = boxed_cond(alloc, left)?;
                let right = boxed_cond(alloc, right)?;
                Ok(CondKind::And(left, right))
            }
            CondKind::Or(left, right) => {
                let left = boxed_cond(alloc, left)?;
                let right = boxed_cond(alloc, right)?;
                Ok(CondKind::Or(left, right))
            }
        }
    }
}

#[cycle(cond_copies)]
fn boxed_cond(alloc: Global, part: &Boxed<CondTree>) -> Result<Boxed<CondTree>, AllocError>
    ensures { IfOk result (λ t. t ≡ part.now) }
{
    let copy = part.get().copy(alloc)?;
    Boxed::new(alloc, copy)
}

impl Copied for ExprTree {
    fn copied(&self, alloc: Global) -> Result<ExprTree, AllocError> {
        self.copy(alloc)
    }
}
