//! What happens between tokens: parts of expressions end.

ghost use Rattle.std.specs.Prelude.{◌≡◌, OnOk};
ghost use Rattle.hc_cread.specs.Builder as spec;

use crate::values::Values;
use hc_cast::{CExpr, COp};
use hc_cgrammar::Mark;
use hc_ctoken::Fixed;
use hc_list::Boxed;
use std::alloc::{AllocError, Global};

/// What a sign between two expressions says.
pub(crate) fn op_of(sign: Fixed) -> COp
    ensures { result ≡ spec.op_of sign }
{
    match sign {
        Fixed::BarBar => COp::Or,
        Fixed::AndAnd => COp::And,
        Fixed::Less => COp::Less,
        Fixed::LessEqual => COp::AtMost,
        Fixed::EqualEqual => COp::Equal,
        Fixed::NotEqual => COp::NotEqual,
        Fixed::GreaterEqual => COp::AtLeast,
        Fixed::Greater => COp::Greater,
        Fixed::Plus => COp::Add,
        Fixed::Minus => COp::Sub,
        _ => COp::Mul,
    }
}

impl Values {
    /// The part behind a `-` ends.
    pub(crate) fn negate(&mut self, alloc: Global) -> Result<(), AllocError>
        ensures { OnOk result (self.new ≡ spec.at_mark Mark.Negate self.old) }
    {
        let Some(part) = self.exprs.pop() else {
            return Ok(());
        };
        let part = Boxed::new(alloc, part)?;
        self.exprs.push(CExpr::Neg(part))
    }

    /// The part behind a `!` ends.
    pub(crate) fn not(&mut self, alloc: Global) -> Result<(), AllocError>
        ensures { OnOk result (self.new ≡ spec.at_mark Mark.Not self.old) }
    {
        let Some(part) = self.exprs.pop() else {
            return Ok(());
        };
        let part = Boxed::new(alloc, part)?;
        self.exprs.push(CExpr::Not(part))
    }

    /// The index of an element ends.
    pub(crate) fn element(&mut self, alloc: Global) -> Result<(), AllocError>
        ensures { OnOk result (self.new ≡ spec.at_mark Mark.Element self.old) }
    {
        let Some(index) = self.exprs.pop() else {
            return Ok(());
        };
        let Some(array) = self.names.pop() else {
            return Ok(());
        };
        let index = Boxed::new(alloc, index)?;
        self.exprs.push(CExpr::Element(array, index))
    }

    /// The right part of a sign ends.
    pub(crate) fn binary(&mut self, alloc: Global) -> Result<(), AllocError>
        ensures { OnOk result (self.new ≡ spec.at_mark Mark.Binary self.old) }
    {
        let Some(right) = self.exprs.pop() else {
            return Ok(());
        };
        let Some(left) = self.exprs.pop() else {
            return Ok(());
        };
        let Some(sign) = self.signs.pop() else {
            return Ok(());
        };
        let left = Boxed::new(alloc, left)?;
        let right = Boxed::new(alloc, right)?;
        self.exprs.push(CExpr::Binary(sign, left, right))
    }
}
