//! The code of a line.

ghost use Rattle.std.specs.Prelude.{◌≡◌, ◌<◌, ◌≤◌, ◌^◌, ◌+◌, ◌*◌, ◌++◌, ◌∷◌, [], None, slice_index_or, IfOk, OnOk};
ghost use Rattle.hc_term.specs.Motion as motion;
ghost use Rattle.hc_term.specs.Profile.{nodes, reach};
ghost use Rattle.hc_cbuild.specs.Makes.{Makes};
ghost use Rattle.hc_cvalue.specs.Lines.{drawn};
ghost use Rattle.hc_cvalue.specs.Lines as spec;

use crate::value::negate;
use hc_cast::CStmt;
use hc_cbuild::{guarded, move_register, primitive_of, set_register};
use hc_frac::Frac;
use hc_list::List;
use hc_term::{Expr, Op};
use std::alloc::{AllocError, Global};

/// The first of the two registers that a slope is worked out of.
fn slope_first(op: Op, moves: bool, d: u32) -> u32
    requires { d + 3 < 2 ^ 32 }
    ensures { result ≡ spec.slope_first op moves d }
{
    match op {
        Op::Mul => { if moves { d + 1 } else { d } }
        _ => d + 1,
    }
}

/// The second of them.
fn slope_second(op: Op, moves: bool, d: u32) -> u32
    requires { d + 3 < 2 ^ 32 }
    ensures { result ≡ spec.slope_second op moves d }
{
    match op {
        Op::Add => d + 3,
        Op::Sub => d + 3,
        Op::Mul => { if moves { d + 2 } else { d + 3 } }
        Op::Div => d + 2,
    }
}

/// The line of two parts, out of their lines.
fn push_joins(
    alloc: Global,
    code: &mut List<CStmt>,
    p: u32,
    op: Op,
    moves: bool,
    d: u32,
) -> Result<(), AllocError>
    requires { d + 3 < 2 ^ 32 }
    ensures { OnOk result (code.new ≡ code.old ++ spec.joins_lines p op moves d) }
{
    let primitive = primitive_of(op);
    code.push(guarded(
        alloc,
        primitive,
        p,
        d + 1,
        slope_first(op, moves, d),
        slope_second(op, moves, d),
    )?)?;
    code.push(guarded(alloc, primitive, p, d, d, d + 2)?)
}

/// Whether a variable evolves.
fn evolves(pattern: &[Option<Frac>], x: u32) -> bool
    ensures { result ≡ motion.evolves (slice_index_or pattern.now x None) }
{
    match pattern.get(x as usize) {
        Some(rate) => rate.is_some(),
        None => false,
    }
}

/// The slope of a variable into the register behind `d`.
fn variable_slope(
    alloc: Global,
    pattern: &[Option<Frac>],
    p: u32,
    d: u32,
    x: u32,
) -> Result<CStmt, AllocError>
    requires { (d + 1 < 2 ^ 32) × (x < 64) }
    ensures { Makes result (spec.variable_slope (slice_index_or pattern.now x None) p d x) }
{
    if evolves(pattern, x) {
        move_register(alloc, p, d + 1, 128 + x)
    } else {
        set_register(alloc, p, d + 1, Frac::zero())
    }
}

/// The code that puts the line of an expression into registers `d` and `d + 1` of row `p`, behind other code, and whether a variable of it evolves.
pub fn push_line(
    alloc: Global,
    code: &mut List<CStmt>,
    pattern: &[Option<Frac>],
    p: u32,
    d: u32,
    expr: &Expr,
) -> Result<bool, AllocError>
    requires room { d + 2 * nodes expr.now < 2 ^ 31 }
    requires known { reach expr.now ≤ 64 }
    ensures { IfOk result (λ moves. (code.new ≡ code.old ++ (drawn p pattern.now expr.now).code d) × (moves ≡ (drawn p pattern.now expr.now).moves)) }
{
    match expr {
        Expr::Number(q) => {
            code.push(set_register(alloc, p, d, *q)?)?;
            code.push(set_register(alloc, p, d + 1, Frac::zero())?)?;
            Ok(false)
        }
        Expr::Variable(x) => {
            code.push(move_register(alloc, p, d, *x)?)?;
            code.push(variable_slope(alloc, pattern, p, d, *x)?)?;
            Ok(evolves(pattern, *x))
        }
        Expr::Neg(part) => {
            let moves = push_line(alloc, code, pattern, p, d, part.get())?;
            code.push(negate(alloc, p, d)?)?;
            code.push(negate(alloc, p, d + 1)?)?;
            Ok(moves)
        }
        Expr::Binary(op, left, right) => {
            let first = push_line(alloc, code, pattern, p, d, left.get())?;
            let second = push_line(alloc, code, pattern, p, d + 2, right.get())?;
            push_joins(alloc, code, p, *op, first, d)?;
            Ok(first || second)
        }
    }
}
