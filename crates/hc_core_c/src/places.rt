//! Parts that several functions of the core have.

ghost use Rattle.std.specs.Prelude.{◌≡◌, true};
ghost use Rattle.hc_cbuild.specs.Names.{is_name};
ghost use Rattle.hc_cast.specs.declared.expr.CExpr.{CExpr};
ghost use Rattle.hc_core_c.specs.Code as spec;
ghost use Rattle.hc_cbuild.specs.Makes.{Makes};

use crate::expr::{binary, elem, local, minus_one, number, some, times};
use crate::list::{expr_then, no_exprs, no_stmts, stmt_then};
use crate::stmt::{calls, store, takes, when};
use hc_cast::{CExpr, COp, CStmt};
use std::alloc::{AllocError, Global};

/// Register n of a process in row 64.
pub fn its(alloc: Global, e: &[u8], n: u32) -> Result<CExpr, AllocError>
    requires { is_name e.now ≡ true }
    ensures { Makes result (spec.its e.now n) }
{
    binary(alloc, COp::Add, times(alloc, local(e), 320), number(n))
}

/// The code of the offered send on the channel at hand.
pub fn send_of(alloc: Global) -> Result<CExpr, AllocError>
    ensures { Makes result spec.send_of }
{
    elem(alloc, b"a_send", local(b"v_c"))
}

/// That of the offered receive.
pub fn receive_of(alloc: Global) -> Result<CExpr, AllocError>
    ensures { Makes result spec.receive_of }
{
    elem(alloc, b"a_receive", local(b"v_c"))
}

/// The run stops, by the kind n.
pub fn stops(alloc: Global, n: u32) -> Result<CStmt, AllocError>
    ensures { Makes result (spec.stops n) }
{
    calls(
        b"f_stop",
        expr_then(
            alloc,
            number(n),
            expr_then(alloc, minus_one(alloc), no_exprs(alloc)),
        ),
    )
}

/// A channel's code in an array goes, where it is the process's.
pub fn clears(alloc: Global, name: &[u8]) -> Result<CStmt, AllocError>
    requires { is_name name.now ≡ true }
    ensures { Makes result (spec.clears name.now) }
{
    when(
        binary(
            alloc,
            COp::And,
            binary(
                alloc,
                COp::Less,
                times(alloc, local(b"v_p"), 32),
                elem(alloc, name, local(b"v_c")),
            ),
            binary(
                alloc,
                COp::Less,
                elem(alloc, name, local(b"v_c")),
                binary(alloc, COp::Add, times(alloc, local(b"v_p"), 32), number(33)),
            ),
        ),
        stmt_then(
            alloc,
            store(name, local(b"v_c"), number(0)),
            no_stmts(alloc),
        ),
    )
}

/// The offers of a process go.
pub fn mutes(alloc: Global, e: &[u8]) -> Result<CStmt, AllocError>
    requires { is_name e.now ≡ true }
    ensures { Makes result (spec.mutes e.now) }
{
    calls(b"f_mute", expr_then(alloc, local(e), no_exprs(alloc)))
}

/// A code less its process: the branch, counted from 1.
pub fn branch_of(
    alloc: Global,
    code: Result<CExpr, AllocError>,
    e: &[u8],
) -> Result<CExpr, AllocError>
    requires { is_name e.now ≡ true }
    ensures { (code_is : CExpr) → Makes code code_is → Makes result (spec.branch_of code_is e.now) }
{
    binary(alloc, COp::Sub, code, times(alloc, local(e), 32))
}

/// Whether the process at hand is able.
pub fn asks_able(alloc: Global) -> Result<CStmt, AllocError>
    ensures { Makes result spec.asks_able }
{
    takes(
        b"v_x",
        b"f_able",
        expr_then(alloc, local(b"v_p"), no_exprs(alloc)),
    )
}

/// What was tried is stored, where it fits and is to be stored.
pub fn keeps(alloc: Global, e: Result<CExpr, AllocError>) -> Result<CStmt, AllocError>
    ensures { (e_is : CExpr) → Makes e e_is → Makes result (spec.keeps e_is) }
{
    when(
        binary(
            alloc,
            COp::And,
            some(alloc, local(b"v_ok")),
            some(alloc, local(b"v_store")),
        ),
        stmt_then(
            alloc,
            calls(
                b"fr_move",
                expr_then(
                    alloc,
                    number(64),
                    expr_then(
                        alloc,
                        e,
                        expr_then(
                            alloc,
                            number(64),
                            expr_then(alloc, number(72), no_exprs(alloc)),
                        ),
                    ),
                ),
            ),
            no_stmts(alloc),
        ),
    )
}

/// What is left to the horizon.
pub fn rests(alloc: Global) -> Result<CStmt, AllocError>
    ensures { Makes result spec.rests }
{
    takes(
        b"v_ok",
        b"fr_sub",
        expr_then(
            alloc,
            number(64),
            expr_then(
                alloc,
                number(70),
                expr_then(
                    alloc,
                    number(67),
                    expr_then(alloc, number(64), no_exprs(alloc)),
                ),
            ),
        ),
    )
}
