//! Expressions.

ghost use Rattle.std.specs.Prelude.{◌≡◌, ◌∷◌, OnOk};
ghost use Rattle.hc_cspell.specs.Appends.{Writes};
ghost use Rattle.hc_cspell.specs.Exprs as canon;

use crate::level::Level;
use crate::writer::Writer;
use hc_cast::{CExpr, COp};
use hc_ctoken::Fixed;
use std::alloc::{AllocError, Global};

/// An expression, in round brackets where it needs them.
#[tactic(auto, using(crate::proofs::ExprForms::forms))]
pub(crate) fn write_expr(out: &mut Writer, tree: &CExpr, level: Level) -> Result<(), AllocError>
    ensures { OnOk result (Writes out.old out.new (canon.expr tree.now level)) }
{
    match tree {
        CExpr::Number(number) => out.number(number),
        CExpr::Local(name) => out.local(name),
        CExpr::Element(array, index) => {
            out.array(array)?;
            out.sign(Fixed::OpenSquare)?;
            write_expr(out, index.get(), Level::Or)?;
            out.sign(Fixed::CloseSquare)
        }
        CExpr::Neg(part) => {
            out.sign(Fixed::Minus)?;
            write_expr(out, part.get(), Level::Unary)
        }
        CExpr::Not(part) => {
            out.sign(Fixed::Exclamation)?;
            write_expr(out, part.get(), Level::Unary)
        }
        CExpr::Binary(op, left, right) => {
            let brackets = needs_round(own_of(*op), level);
            out.sign_if(brackets, Fixed::OpenRound)?;
            write_expr(out, left.get(), left_of(*op))?;
            out.sign(sign_of(*op))?;
            write_expr(out, right.get(), right_of(*op))?;
            out.sign_if(brackets, Fixed::CloseRound)
        }
    }
}

/// The token of a sign.
fn sign_of(op: COp) -> Fixed
    ensures { result ≡ canon.sign_of op }
{
    match op {
        COp::Add => Fixed::Plus,
        COp::Sub => Fixed::Minus,
        COp::Mul => Fixed::Star,
        COp::Less => Fixed::Less,
        COp::AtMost => Fixed::LessEqual,
        COp::Equal => Fixed::EqualEqual,
        COp::NotEqual => Fixed::NotEqual,
        COp::AtLeast => Fixed::GreaterEqual,
        COp::Greater => Fixed::Greater,
        COp::And => Fixed::AndAnd,
        COp::Or => Fixed::BarBar,
    }
}

/// The level of a sign.
fn own_of(op: COp) -> Level
    ensures { result ≡ canon.own_of op }
{
    match op {
        COp::Add | COp::Sub => Level::Sum,
        COp::Mul => Level::Product,
        COp::And => Level::And,
        COp::Or => Level::Or,
        _ => Level::Comparison,
    }
}

/// Where the left part of a sign stands.
fn left_of(op: COp) -> Level
    ensures { result ≡ canon.left_of op }
{
    match op {
        COp::Mul => Level::Product,
        COp::And => Level::And,
        COp::Or => Level::Or,
        _ => Level::Sum,
    }
}

/// Where the right part of a sign stands.
fn right_of(op: COp) -> Level
    ensures { result ≡ canon.right_of op }
{
    match op {
        COp::Add | COp::Sub => Level::Product,
        COp::Mul => Level::Unary,
        COp::And => Level::Comparison,
        COp::Or => Level::And,
        _ => Level::Sum,
    }
}

/// Whether an expression of the first level needs brackets where the second may stand.
fn needs_round(own: Level, level: Level) -> bool
    ensures { result ≡ canon.needs_round own level }
{
    rank(own) < rank(level)
}

/// The levels in their order.
fn rank(level: Level) -> u8
    ensures { result ≡ canon.rank level }
{
    match level {
        Level::Or => 0,
        Level::And => 1,
        Level::Comparison => 2,
        Level::Sum => 3,
        Level::Product => 4,
        Level::Unary => 5,
    }
}
