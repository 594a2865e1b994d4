//! The code of an expression.

ghost use Rattle.std.specs.Prelude.{◌≡◌, ◌<◌, ◌^◌, ◌+◌, ◌++◌, ◌∷◌, [], OnOk};
ghost use Rattle.hc_term.specs.Profile.{nodes};
ghost use Rattle.hc_cbuild.specs.Makes.{Makes};
ghost use Rattle.hc_cvalue.specs.Values.{value_code};
ghost use Rattle.hc_cvalue.specs.Values as spec;

use hc_cast::{CStmt, Primitive};
use hc_cbuild::{guarded, move_register, numbers, prim, primitive_of, set_register};
use hc_list::List;
use hc_term::Expr;
use std::alloc::{AllocError, Global};

/// `fr_neg(p, d, d);`
pub fn negate(alloc: Global, p: u32, d: u32) -> Result<CStmt, AllocError>
    ensures { Makes result (spec.negate p d) }
{
    let arguments = numbers(alloc, &[p, d, d])?;
    Ok(prim(Primitive::FrNeg, arguments))
}

/// The code that puts the value of an expression into register `d` of row `p`, behind other code.
pub fn push_value(
    alloc: Global,
    code: &mut List<CStmt>,
    p: u32,
    d: u32,
    expr: &Expr,
) -> Result<(), AllocError>
    requires { d + nodes expr.now < 2 ^ 31 }
    ensures { OnOk result (code.new ≡ code.old ++ value_code p d expr.now) }
{
    match expr {
        Expr::Number(q) => code.push(set_register(alloc, p, d, *q)?),
        Expr::Variable(x) => code.push(move_register(alloc, p, d, *x)?),
        Expr::Neg(part) => {
            push_value(alloc, code, p, d, part.get())?;
            code.push(negate(alloc, p, d)?)
        }
        Expr::Binary(op, left, right) => {
            push_value(alloc, code, p, d, left.get())?;
            push_value(alloc, code, p, d + 1, right.get())?;
            code.push(guarded(alloc, primitive_of(*op), p, d, d, d + 1)?)
        }
    }
}
