//! Expressions and conditions over numbered variables.

ghost use Rattle.std.specs.Prelude.{◌≡◌, ◌≢◌, pos, SomeIff, IfOk};
ghost use Rattle.hc_rational.specs.Words.{IsFrac};
ghost use Rattle.hc_term.specs.declared.expr.Op.TheVariants.{Div};
ghost use Rattle.hc_term.specs.Value.{applied, answer};

use hc_frac::Frac;
use hc_list::Boxed;
use std::alloc::{AllocError, Global};
use std::cmp::Ordering;

/// A sign between two expressions.
#[derive(Clone, Copy, Debug, PartialEq, Eq)]
pub enum Op {
    Add,
    Sub,
    Mul,
    Div,
}

impl Op {
    /// What the sign makes of two numbers, of which the second isn't 0 where it divides, or `None` where that doesn't fit.
    pub fn applied(self, left: Frac, right: Frac) -> Option<Frac>
        requires { self ≡ Div → right.num ≢ pos 0 }
        ensures { SomeIff result (IsFrac (applied self left right)) (applied self left right) }
    {
        match self {
            Op::Add => left.add(right),
            Op::Sub => left.sub(right),
            Op::Mul => left.mul(right),
            Op::Div => left.div(right),
        }
    }
}

/// How the two sides of a comparison are compared.
#[derive(Clone, Copy, Debug, PartialEq, Eq)]
pub enum Comparison {
    Less,
    AtMost,
    Equal,
    NotEqual,
    AtLeast,
    Greater,
}

impl Comparison {
    /// The answer of the comparison, by how its left side lies to its right side.
    pub fn answer(self, side: Ordering) -> bool
        ensures { result ≡ answer self side }
    {
        match self {
            Comparison::Less => side == Ordering::Less,
            Comparison::AtMost => side != Ordering::Greater,
            Comparison::Equal => side == Ordering::Equal,
            Comparison::NotEqual => side != Ordering::Equal,
            Comparison::AtLeast => side != Ordering::Less,
            Comparison::Greater => side == Ordering::Greater,
        }
    }
}

/// An expression over the variables of a process, which go by their numbers.
#[derive(Drop)]
pub enum Expr {
    Number(Frac),
    Variable(u32),
    Neg(Boxed<Expr>),
    Binary(Op, Boxed<Expr>, Boxed<Expr>),
}

/// A condition.
#[derive(Drop)]
pub enum Cond {
    True,
    False,
    Compare(Comparison, Boxed<Expr>, Boxed<Expr>),
    Not(Boxed<Cond>),
    And(Boxed<Cond>, Boxed<Cond>),
    Or(Boxed<Cond>, Boxed<Cond>),
}

impl Expr {
    /// An equal expression.
    #[cycle(expr_copies)]
    pub fn copy(&self, alloc: Global) -> Result<Expr, AllocError>
        ensures { IfOk result (λ t. t ≡ self.now) }
    {
        match self {
            Expr::Number(number) => Ok(Expr::Number(*number)),
            Expr::Variable(variable) => Ok(Expr::Variable(*variable)),
            Expr::Neg(part) => {
                let part = boxed_expr(alloc, part)?;
                Ok(Expr::Neg(part))
            }
            Expr::Binary(op, left, right) => {
                let left = boxed_expr(alloc, left)?;
                let right = boxed_expr(alloc, right)?;
                Ok(Expr::Binary(*op, left, right))
            }
        }
    }
}

#[cycle(expr_copies)]
fn boxed_expr(alloc: Global, part: &Boxed<Expr>) -> Result<Boxed<Expr>, AllocError>
    ensures { IfOk result (λ t. t ≡ part.now) }
{
    let copy = part.get().copy(alloc)?;
    Boxed::new(alloc, copy)
}

impl Cond {
    /// An equal condition.
    #[cycle(cond_copies)]
    pub fn copy(&self, alloc: Global) -> Result<Cond, AllocError>
        ensures { IfOk result (λ t. t ≡ self.now) }
    {
        match self {
            Cond::True => Ok(Cond::True),
            Cond::False => Ok(Cond::False),
            Cond::Compare(how, left, right) => {
                let left = boxed_expr(alloc, left)?;
                let right = boxed_expr(alloc, right)?;
                Ok(Cond::Compare(*how, left, right))
            }
            Cond::Not(part) => {
                let part = boxed_cond(alloc, part)?;
                Ok(Cond::Not(part))
            }
            Cond::And(left, right) => {
                let left = boxed_cond(alloc, left)?;
                let right = boxed_cond(alloc, right)?;
                Ok(Cond::And(left, right))
            }
            Cond::Or(left, right) => {
                let left = boxed_cond(alloc, left)?;
                let right = boxed_cond(alloc, right)?;
                Ok(Cond::Or(left, right))
            }
        }
    }
}

#[cycle(cond_copies)]
fn boxed_cond(alloc: Global, part: &Boxed<Cond>) -> Result<Boxed<Cond>, AllocError>
    ensures { IfOk result (λ t. t ≡ part.now) }
{
    let copy = part.get().copy(alloc)?;
    Boxed::new(alloc, copy)
}
