//! What happens between tokens: parts of expressions and conditions end.

ghost use Rattle.std.specs.Prelude.{◌≡◌, OnOk};
ghost use Rattle.hc_parse.specs.Builder as spec;

use crate::values::Values;
use hc_ast::{Comparison, CondKind, CondTree, ExprKind, ExprTree, Mark, Op};
use hc_list::Boxed;
use hc_token::Fixed;
use std::alloc::{AllocError, Global};

/// What the sign of an expression says.
fn op_of(sign: Fixed) -> Op
    ensures { result ≡ spec.op_of sign }
{
    match sign {
        Fixed::Plus => Op::Add,
        Fixed::Minus => Op::Sub,
        Fixed::Star => Op::Mul,
        _ => Op::Div,
    }
}

/// What the sign of a comparison says.
fn comparison_of(sign: Fixed) -> Comparison
    ensures { result ≡ spec.comparison_of sign }
{
    match sign {
        Fixed::Less => Comparison::Less,
        Fixed::LessEqual => Comparison::AtMost,
        Fixed::EqualEqual => Comparison::Equal,
        Fixed::NotEqual => Comparison::NotEqual,
        Fixed::GreaterEqual => Comparison::AtLeast,
        _ => Comparison::Greater,
    }
}

impl Values {
    /// The factor behind a `-` ends.
    pub(crate) fn negate(&mut self, alloc: Global) -> Result<(), AllocError>
        ensures { OnOk result (self.new ≡ spec.at_mark Mark.Negate self.old) }
    {
        let Some(part) = self.exprs.pop() else {
            return Ok(());
        };
        let Some((place, _)) = self.fixed.pop() else {
            return Ok(());
        };
        let part = Boxed::new(alloc, part)?;
        self.exprs.push(ExprTree {
            place,
            kind: ExprKind::Neg(part),
        })
    }

    /// The right part of a sign ends.
    pub(crate) fn binary(&mut self, alloc: Global) -> Result<(), AllocError>
        ensures { OnOk result (self.new ≡ spec.at_mark Mark.Binary self.old) }
    {
        let Some(right) = self.exprs.pop() else {
            return Ok(());
        };
        let Some(left) = self.exprs.pop() else {
            return Ok(());
        };
        let Some((place, sign)) = self.fixed.pop() else {
            return Ok(());
        };
        let left = Boxed::new(alloc, left)?;
        let right = Boxed::new(alloc, right)?;
        self.exprs.push(ExprTree {
            place,
            kind: ExprKind::Binary(op_of(sign), left, right),
        })
    }

    /// The right side of a comparison ends.
    pub(crate) fn compare(&mut self, alloc: Global) -> Result<(), AllocError>
        ensures { OnOk result (self.new ≡ spec.at_mark Mark.Compare self.old) }
    {
        let Some(right) = self.exprs.pop() else {
            return Ok(());
        };
        let Some(left) = self.exprs.pop() else {
            return Ok(());
        };
        let Some((place, sign)) = self.fixed.pop() else {
            return Ok(());
        };
        let left = Boxed::new(alloc, left)?;
        let right = Boxed::new(alloc, right)?;
        self.conds.push(CondTree {
            place,
            kind: CondKind::Compare(comparison_of(sign), left, right),
        })
    }

    /// The condition behind a `!` ends.
    pub(crate) fn not(&mut self, alloc: Global) -> Result<(), AllocError>
        ensures { OnOk result (self.new ≡ spec.at_mark Mark.Not self.old) }
    {
        let Some(part) = self.conds.pop() else {
            return Ok(());
        };
        let Some((place, _)) = self.fixed.pop() else {
            return Ok(());
        };
        let part = Boxed::new(alloc, part)?;
        self.conds.push(CondTree {
            place,
            kind: CondKind::Not(part),
        })
    }

    /// The condition behind a `&&` ends.
    pub(crate) fn and(&mut self, alloc: Global) -> Result<(), AllocError>
        ensures { OnOk result (self.new ≡ spec.at_mark Mark.And self.old) }
    {
        let Some(right) = self.conds.pop() else {
            return Ok(());
        };
        let Some(left) = self.conds.pop() else {
            return Ok(());
        };
        let Some((place, _)) = self.fixed.pop() else {
            return Ok(());
        };
        let left = Boxed::new(alloc, left)?;
        let right = Boxed::new(alloc, right)?;
        self.conds.push(CondTree {
            place,
            kind: CondKind::And(left, right),
        })
    }

    /// The conditions behind a `||` end.
    pub(crate) fn or(&mut self, alloc: Global) -> Result<(), AllocError>
        ensures { OnOk result (self.new ≡ spec.at_mark Mark.Or self.old) }
    {
        let Some(right) = self.conds.pop() else {
            return Ok(());
        };
        let Some(left) = self.conds.pop() else {
            return Ok(());
        };
        let Some((place, _)) = self.fixed.pop() else {
            return Ok(());
        };
        let left = Boxed::new(alloc, left)?;
        let right = Boxed::new(alloc, right)?;
        self.conds.push(CondTree {
            place,
            kind: CondKind::Or(left, right),
        })
    }
}
