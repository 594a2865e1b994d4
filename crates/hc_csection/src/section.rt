//! Functions by which a thread enters its steps and tests whether to wait.

ghost use Rattle.hc_csection.specs.Code as spec;
ghost use Rattle.hc_cbuild.specs.Makes.{Makes};

use hc_cast::{CExpr, CFunction, COp, CStmt};
use hc_core_c::expr::{binary, elem, first_of, local, none, number};
use hc_core_c::list::{
    expr_then, function_then, name_then, no_exprs, no_functions, no_names, no_stmts, stmt_then,
};
use hc_core_c::stmt::{answers, calls, does, gives_back, store, takes, when, when_else};
use hc_list::List;
use std::alloc::{AllocError, Global};

pub fn logs(alloc: Global) -> Result<CStmt, AllocError>
    ensures { Makes result spec.logs }
{
    when(
        binary(alloc, COp::Equal, local(b"v_end"), number(2)),
        stmt_then(
            alloc,
            calls(
                b"out_log",
                expr_then(
                    alloc,
                    local(b"v_p"),
                    expr_then(
                        alloc,
                        number(64),
                        expr_then(
                            alloc,
                            local(b"v_p"),
                            expr_then(alloc, number(65), no_exprs(alloc)),
                        ),
                    ),
                ),
            ),
            no_stmts(alloc),
        ),
    )
}

pub fn overflows(alloc: Global) -> Result<List<CStmt>, AllocError>
    ensures { Makes result spec.overflows }
{
    stmt_then(
        alloc,
        calls(
            b"f_stop",
            expr_then(
                alloc,
                number(4),
                expr_then(alloc, local(b"v_p"), no_exprs(alloc)),
            ),
        ),
        stmt_then(alloc, calls(b"f_wakes", no_exprs(alloc)), no_stmts(alloc)),
    )
}

pub fn has_room(alloc: Global) -> Result<CExpr, AllocError>
    ensures { Makes result spec.has_room }
{
    binary(
        alloc,
        COp::Less,
        first_of(alloc, b"a_steps"),
        first_of(alloc, b"a_limit"),
    )
}

pub fn enters_all(alloc: Global) -> Result<List<CStmt>, AllocError>
    ensures { Makes result spec.enters_all }
{
    stmt_then(
        alloc,
        store(
            b"a_steps",
            number(0),
            binary(
                alloc,
                COp::Add,
                first_of(alloc, b"a_steps"),
                local(b"v_steps"),
            ),
        ),
        stmt_then(
            alloc,
            logs(alloc),
            stmt_then(
                alloc,
                when(
                    binary(
                        alloc,
                        COp::And,
                        binary(alloc, COp::Equal, local(b"v_end"), number(3)),
                        has_room(alloc),
                    ),
                    overflows(alloc),
                ),
                no_stmts(alloc),
            ),
        ),
    )
}

pub fn f_enter(alloc: Global) -> Result<CFunction, AllocError>
    ensures { Makes result spec.f_enter }
{
    does(
        b"f_enter",
        name_then(
            alloc,
            b"v_p",
            name_then(
                alloc,
                b"v_steps",
                name_then(alloc, b"v_end", no_names(alloc)),
            ),
        ),
        no_names(alloc),
        stmt_then(
            alloc,
            when_else(
                binary(
                    alloc,
                    COp::Less,
                    binary(
                        alloc,
                        COp::Sub,
                        first_of(alloc, b"a_limit"),
                        first_of(alloc, b"a_steps"),
                    ),
                    local(b"v_steps"),
                ),
                stmt_then(
                    alloc,
                    store(b"a_steps", number(0), first_of(alloc, b"a_limit")),
                    no_stmts(alloc),
                ),
                enters_all(alloc),
            ),
            no_stmts(alloc),
        ),
    )
}

pub fn f_idle(alloc: Global) -> Result<CFunction, AllocError>
    ensures { Makes result spec.f_idle }
{
    answers(
        b"f_idle",
        name_then(alloc, b"v_p", no_names(alloc)),
        name_then(alloc, b"v_x", no_names(alloc)),
        stmt_then(
            alloc,
            takes(
                b"v_x",
                b"f_able",
                expr_then(alloc, local(b"v_p"), no_exprs(alloc)),
            ),
            stmt_then(
                alloc,
                gives_back(binary(
                    alloc,
                    COp::And,
                    binary(
                        alloc,
                        COp::And,
                        none(alloc, first_of(alloc, b"a_stop")),
                        none(alloc, local(b"v_x")),
                    ),
                    binary(
                        alloc,
                        COp::Less,
                        elem(alloc, b"a_phase", local(b"v_p")),
                        number(2),
                    ),
                )),
                no_stmts(alloc),
            ),
        ),
    )
}

pub fn section_tree(alloc: Global) -> Result<List<CFunction>, AllocError>
    ensures { Makes result spec.section_functions }
{
    function_then(
        alloc,
        f_enter(alloc),
        function_then(alloc, f_idle(alloc), no_functions(alloc)),
    )
}
