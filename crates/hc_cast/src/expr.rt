//! Expressions.

ghost use Rattle.std.specs.Prelude.{◌≡◌, IfOk};

use hc_frac::Name;
use hc_list::Boxed;
use std::alloc::{AllocError, Global};

/// A sign between two expressions.
#[derive(Clone, Copy, Debug, PartialEq, Eq)]
pub enum COp {
    Add,
    Sub,
    Mul,
    Less,
    AtMost,
    Equal,
    NotEqual,
    AtLeast,
    Greater,
    And,
    Or,
}

/// An expression. Round brackets make no node.
#[derive(Drop)]
#[cycle(expr)]
pub enum CExpr {
    Number(i64),
    /// A local or a parameter.
    Local(Name),
    /// An element of an array, by its index.
    Element(Name, Boxed<CExpr>),
    Neg(Boxed<CExpr>),
    Not(Boxed<CExpr>),
    Binary(COp, Boxed<CExpr>, Boxed<CExpr>),
}

impl CExpr {
    /// An equal expression.
    #[cycle(expr_copies)]
    pub fn copy(&self, alloc: Global) -> Result<CExpr, AllocError>
        ensures { IfOk result (λ t. t ≡ self.now) }
    {
        match self {
            CExpr::Number(number) => Ok(CExpr::Number(*number)),
            CExpr::Local(name) => Ok(CExpr::Local(name.copy())),
            CExpr::Element(array, index) => {
                let index = boxed_expr(alloc, index)?;
                Ok(CExpr::Element(array.copy(), index))
            }
            CExpr::Neg(part) => {
                let part = boxed_expr(alloc, part)?;
                Ok(CExpr::Neg(part))
            }
            CExpr::Not(part) => {
                let part = boxed_expr(alloc, part)?;
                Ok(CExpr::Not(part))
            }
            CExpr::Binary(op, left, right) => {
                let left = boxed_expr(alloc, left)?;
                let right = boxed_expr(alloc, right)?;
                Ok(CExpr::Binary(*op, left, right))
            }
        }
    }
}

#[cycle(expr_copies)]
fn boxed_expr(alloc: Global, part: &Boxed<CExpr>) -> Result<Boxed<CExpr>, AllocError>
    ensures { IfOk result (λ t. t ≡ part.now) }
{
    let copy = part.get().copy(alloc)?;
    Boxed::new(alloc, copy)
}
