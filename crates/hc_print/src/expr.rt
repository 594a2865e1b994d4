//! Expressions and conditions.

ghost use Rattle.std.specs.Prelude.{◌≡◌, ◌∷◌, OnOk};
ghost use Rattle.hc_ast.specs.Unplaced.{bare_expr, bare_cond};
ghost use Rattle.hc_print.specs.Lexemes.{fixed};
ghost use Rattle.hc_print.specs.Appends.{Writes};
ghost use Rattle.hc_print.specs.CanonExprs as canon;

use crate::level::Level;
use crate::writer::Writer;
use hc_ast::{Comparison, CondKind, CondTree, ExprKind, ExprTree, Op};
use hc_token::Fixed;
use std::alloc::{AllocError, Global};

/// An expression, in round brackets where it needs them.
#[tactic(auto, using(crate::proofs::Forms::forms))]
pub(crate) fn write_expr(out: &mut Writer, tree: &ExprTree, level: Level) -> Result<(), AllocError>
    ensures { OnOk result (Writes out.old out.new (canon.expr (bare_expr tree.now) level)) }
{
    match &tree.kind {
        ExprKind::Number(number) => out.number(*number),
        ExprKind::Name(name) => out.name(name),
        ExprKind::Neg(part) => {
            out.sign(Fixed::Minus)?;
            write_expr(out, part.get(), Level::Tight)
        }
        ExprKind::Binary(op, left, right) => {
            let brackets = needs_round(*op, level);
            out.sign_if(brackets, Fixed::OpenRound)?;
            write_expr(out, left.get(), left_of(*op))?;
            out.sign(op_sign(*op))?;
            write_expr(out, right.get(), right_of(*op))?;
            out.sign_if(brackets, Fixed::CloseRound)
        }
    }
}

/// A condition, in square brackets where it needs them.
#[tactic(auto, using(crate::proofs::Forms::forms))]
pub(crate) fn write_cond(out: &mut Writer, tree: &CondTree, level: Level) -> Result<(), AllocError>
    ensures { OnOk result (Writes out.old out.new (canon.cond (bare_cond tree.now) level)) }
{
    match &tree.kind {
        CondKind::True => out.sign(Fixed::True),
        CondKind::False => out.sign(Fixed::False),
        CondKind::Compare(how, left, right) => {
            write_expr(out, left.get(), Level::Alone)?;
            out.sign(comparison_sign(*how))?;
            write_expr(out, right.get(), Level::Alone)
        }
        CondKind::Not(part) => {
            out.sign(Fixed::Exclamation)?;
            write_cond(out, part.get(), Level::Tight)
        }
        CondKind::And(left, right) => {
            let brackets = both_needs_square(level);
            out.sign_if(brackets, Fixed::OpenSquare)?;
            write_cond(out, left.get(), Level::Inner)?;
            out.sign(Fixed::AndAnd)?;
            write_cond(out, right.get(), Level::Tight)?;
            out.sign_if(brackets, Fixed::CloseSquare)
        }
        CondKind::Or(left, right) => {
            let brackets = either_needs_square(level);
            out.sign_if(brackets, Fixed::OpenSquare)?;
            write_cond(out, left.get(), Level::Alone)?;
            out.sign(Fixed::BarBar)?;
            write_cond(out, right.get(), Level::Inner)?;
            out.sign_if(brackets, Fixed::CloseSquare)
        }
    }
}

fn op_sign(op: Op) -> Fixed
    ensures { result ≡ canon.op_sign op }
{
    match op {
        Op::Add => Fixed::Plus,
        Op::Sub => Fixed::Minus,
        Op::Mul => Fixed::Star,
        Op::Div => Fixed::Slash,
    }
}

fn comparison_sign(how: Comparison) -> Fixed
    ensures { result ≡ canon.comparison_sign how }
{
    match how {
        Comparison::Less => Fixed::Less,
        Comparison::AtMost => Fixed::LessEqual,
        Comparison::Equal => Fixed::EqualEqual,
        Comparison::NotEqual => Fixed::NotEqual,
        Comparison::AtLeast => Fixed::GreaterEqual,
        Comparison::Greater => Fixed::Greater,
    }
}

/// Where the left operand of a sign stands.
fn left_of(op: Op) -> Level
    ensures { result ≡ canon.left_of op }
{
    match op {
        Op::Add | Op::Sub => Level::Alone,
        Op::Mul | Op::Div => Level::Inner,
    }
}

/// Where the right operand of a sign stands.
fn right_of(op: Op) -> Level
    ensures { result ≡ canon.right_of op }
{
    match op {
        Op::Add | Op::Sub => Level::Inner,
        Op::Mul | Op::Div => Level::Tight,
    }
}

/// Whether an expression of this sign needs round brackets where it stands.
fn needs_round(op: Op, level: Level) -> bool
    ensures { result ≡ canon.needs_round op level }
{
    match (level, op) {
        (Level::Alone, _) | (Level::Inner, Op::Mul | Op::Div) => false,
        (Level::Inner, Op::Add | Op::Sub) | (Level::Tight, _) => true,
    }
}

/// Whether an `&&` needs square brackets where it stands.
fn both_needs_square(level: Level) -> bool
    ensures { result ≡ canon.both_needs_square level }
{
    match level {
        Level::Alone | Level::Inner => false,
        Level::Tight => true,
    }
}

/// Whether an `||` needs square brackets where it stands.
fn either_needs_square(level: Level) -> bool
    ensures { result ≡ canon.either_needs_square level }
{
    match level {
        Level::Alone => false,
        Level::Inner | Level::Tight => true,
    }
}
