//! Functions of the core that move values by a delay.

ghost use Rattle.hc_core_c.specs.Code as spec;
ghost use Rattle.hc_cbuild.specs.Makes.{Makes};

use crate::expr::{binary, elem, local, number, some, times};
use crate::list::{expr_then, name_then, no_exprs, no_names, no_stmts, stmt_then};
use crate::places::{branch_of, its, keeps, rests, send_of};
use crate::stmt::{answers, calls, counted, counts_up, gives_back, set, takes, when, when_else};
use hc_cast::{CFunction, COp};
use std::alloc::{AllocError, Global};

/// A register moves at a rate.
pub fn f_shift(alloc: Global) -> Result<CFunction, AllocError>
    ensures { Makes result spec.f_shift }
{
    answers(
        b"f_shift",
        name_then(
            alloc,
            b"v_at",
            name_then(
                alloc,
                b"v_rate",
                name_then(alloc, b"v_store", no_names(alloc)),
            ),
        ),
        name_then(alloc, b"v_ok", no_names(alloc)),
        stmt_then(
            alloc,
            takes(
                b"v_ok",
                b"fr_mul",
                expr_then(
                    alloc,
                    number(64),
                    expr_then(
                        alloc,
                        number(72),
                        expr_then(
                            alloc,
                            local(b"v_rate"),
                            expr_then(alloc, number(70), no_exprs(alloc)),
                        ),
                    ),
                ),
            ),
            stmt_then(
                alloc,
                when(
                    some(alloc, local(b"v_ok")),
                    stmt_then(
                        alloc,
                        takes(
                            b"v_ok",
                            b"fr_add",
                            expr_then(
                                alloc,
                                number(64),
                                expr_then(
                                    alloc,
                                    number(72),
                                    expr_then(
                                        alloc,
                                        local(b"v_at"),
                                        expr_then(alloc, number(72), no_exprs(alloc)),
                                    ),
                                ),
                            ),
                        ),
                        no_stmts(alloc),
                    ),
                ),
                stmt_then(
                    alloc,
                    keeps(alloc, local(b"v_at")),
                    stmt_then(alloc, gives_back(local(b"v_ok")), no_stmts(alloc)),
                ),
            ),
        ),
    )
}

/// The variables of a process move.
pub fn f_drift(alloc: Global) -> Result<CFunction, AllocError>
    ensures { Makes result spec.f_drift }
{
    answers(
        b"f_drift",
        name_then(alloc, b"v_p", name_then(alloc, b"v_store", no_names(alloc))),
        name_then(alloc, b"v_i", name_then(alloc, b"v_ok", no_names(alloc))),
        stmt_then(
            alloc,
            set(b"v_ok", number(1)),
            stmt_then(
                alloc,
                counted(
                    alloc,
                    b"v_i",
                    64,
                    stmt_then(
                        alloc,
                        when(
                            binary(
                                alloc,
                                COp::And,
                                some(alloc, local(b"v_ok")),
                                some(
                                    alloc,
                                    elem(
                                        alloc,
                                        b"a_moves",
                                        binary(
                                            alloc,
                                            COp::Add,
                                            times(alloc, local(b"v_p"), 64),
                                            local(b"v_i"),
                                        ),
                                    ),
                                ),
                            ),
                            stmt_then(
                                alloc,
                                takes(
                                    b"v_ok",
                                    b"f_shift",
                                    expr_then(
                                        alloc,
                                        binary(
                                            alloc,
                                            COp::Add,
                                            times(alloc, local(b"v_p"), 320),
                                            local(b"v_i"),
                                        ),
                                        expr_then(
                                            alloc,
                                            binary(
                                                alloc,
                                                COp::Add,
                                                its(alloc, b"v_p", 128),
                                                local(b"v_i"),
                                            ),
                                            expr_then(alloc, local(b"v_store"), no_exprs(alloc)),
                                        ),
                                    ),
                                ),
                                no_stmts(alloc),
                            ),
                        ),
                        stmt_then(alloc, counts_up(alloc, b"v_i"), no_stmts(alloc)),
                    ),
                ),
                stmt_then(alloc, gives_back(local(b"v_ok")), no_stmts(alloc)),
            ),
        ),
    )
}

/// Its bound goes down.
pub fn f_lower(alloc: Global) -> Result<CFunction, AllocError>
    ensures { Makes result spec.f_lower }
{
    answers(
        b"f_lower",
        name_then(alloc, b"v_p", name_then(alloc, b"v_store", no_names(alloc))),
        name_then(alloc, b"v_ok", no_names(alloc)),
        stmt_then(
            alloc,
            takes(
                b"v_ok",
                b"fr_sub",
                expr_then(
                    alloc,
                    number(64),
                    expr_then(
                        alloc,
                        number(72),
                        expr_then(
                            alloc,
                            its(alloc, b"v_p", 66),
                            expr_then(alloc, number(70), no_exprs(alloc)),
                        ),
                    ),
                ),
            ),
            stmt_then(
                alloc,
                keeps(alloc, its(alloc, b"v_p", 66)),
                stmt_then(alloc, gives_back(local(b"v_ok")), no_stmts(alloc)),
            ),
        ),
    )
}

/// Everything moves, tried alone or stored.
pub fn f_move(alloc: Global, processes: u32, channels: u32) -> Result<CFunction, AllocError>
    ensures { Makes result (spec.f_move processes channels) }
{
    answers(
        b"f_move",
        name_then(alloc, b"v_store", no_names(alloc)),
        name_then(
            alloc,
            b"v_p",
            name_then(
                alloc,
                b"v_c",
                name_then(
                    alloc,
                    b"v_q",
                    name_then(alloc, b"v_at", name_then(alloc, b"v_ok", no_names(alloc))),
                ),
            ),
        ),
        stmt_then(
            alloc,
            set(b"v_ok", number(1)),
            stmt_then(
                alloc,
                counted(
                    alloc,
                    b"v_p",
                    processes,
                    stmt_then(
                        alloc,
                        when(
                            some(alloc, local(b"v_ok")),
                            stmt_then(
                                alloc,
                                takes(
                                    b"v_ok",
                                    b"f_drift",
                                    expr_then(
                                        alloc,
                                        local(b"v_p"),
                                        expr_then(alloc, local(b"v_store"), no_exprs(alloc)),
                                    ),
                                ),
                                no_stmts(alloc),
                            ),
                        ),
                        stmt_then(
                            alloc,
                            when(
                                binary(
                                    alloc,
                                    COp::And,
                                    some(alloc, local(b"v_ok")),
                                    some(alloc, elem(alloc, b"a_bounded", local(b"v_p"))),
                                ),
                                stmt_then(
                                    alloc,
                                    takes(
                                        b"v_ok",
                                        b"f_lower",
                                        expr_then(
                                            alloc,
                                            local(b"v_p"),
                                            expr_then(alloc, local(b"v_store"), no_exprs(alloc)),
                                        ),
                                    ),
                                    no_stmts(alloc),
                                ),
                            ),
                            stmt_then(alloc, counts_up(alloc, b"v_p"), no_stmts(alloc)),
                        ),
                    ),
                ),
                stmt_then(
                    alloc,
                    counted(
                        alloc,
                        b"v_c",
                        channels,
                        stmt_then(
                            alloc,
                            when(
                                binary(
                                    alloc,
                                    COp::And,
                                    some(alloc, local(b"v_ok")),
                                    some(alloc, send_of(alloc)),
                                ),
                                stmt_then(
                                    alloc,
                                    takes(
                                        b"v_q",
                                        b"f_owner",
                                        expr_then(alloc, send_of(alloc), no_exprs(alloc)),
                                    ),
                                    stmt_then(
                                        alloc,
                                        set(
                                            b"v_at",
                                            binary(
                                                alloc,
                                                COp::Add,
                                                its(alloc, b"v_q", 191),
                                                branch_of(alloc, send_of(alloc), b"v_q"),
                                            ),
                                        ),
                                        stmt_then(
                                            alloc,
                                            takes(
                                                b"v_ok",
                                                b"f_shift",
                                                expr_then(
                                                    alloc,
                                                    local(b"v_at"),
                                                    expr_then(
                                                        alloc,
                                                        binary(
                                                            alloc,
                                                            COp::Add,
                                                            local(b"v_at"),
                                                            number(64),
                                                        ),
                                                        expr_then(
                                                            alloc,
                                                            local(b"v_store"),
                                                            no_exprs(alloc),
                                                        ),
                                                    ),
                                                ),
                                            ),
                                            stmt_then(
                                                alloc,
                                                set(b"v_at", number(0)),
                                                stmt_then(
                                                    alloc,
                                                    set(b"v_q", number(0)),
                                                    no_stmts(alloc),
                                                ),
                                            ),
                                        ),
                                    ),
                                ),
                            ),
                            stmt_then(alloc, counts_up(alloc, b"v_c"), no_stmts(alloc)),
                        ),
                    ),
                    stmt_then(alloc, gives_back(local(b"v_ok")), no_stmts(alloc)),
                ),
            ),
        ),
    )
}

/// The length of the delay, and whether all that moves fits.
pub fn f_length(alloc: Global) -> Result<CFunction, AllocError>
    ensures { Makes result spec.f_length }
{
    answers(
        b"f_length",
        name_then(alloc, b"v_k", no_names(alloc)),
        name_then(alloc, b"v_ok", name_then(alloc, b"v_x", no_names(alloc))),
        stmt_then(
            alloc,
            when_else(
                binary(alloc, COp::Less, local(b"v_k"), number(2)),
                stmt_then(alloc, rests(alloc), no_stmts(alloc)),
                stmt_then(
                    alloc,
                    takes(
                        b"v_ok",
                        b"fr_add",
                        expr_then(
                            alloc,
                            number(64),
                            expr_then(
                                alloc,
                                number(69),
                                expr_then(
                                    alloc,
                                    number(64),
                                    expr_then(alloc, number(68), no_exprs(alloc)),
                                ),
                            ),
                        ),
                    ),
                    stmt_then(
                        alloc,
                        when(
                            some(alloc, local(b"v_ok")),
                            stmt_then(
                                alloc,
                                takes(
                                    b"v_x",
                                    b"fr_cmp",
                                    expr_then(
                                        alloc,
                                        number(64),
                                        expr_then(
                                            alloc,
                                            number(69),
                                            expr_then(alloc, number(67), no_exprs(alloc)),
                                        ),
                                    ),
                                ),
                                stmt_then(
                                    alloc,
                                    calls(
                                        b"fr_move",
                                        expr_then(
                                            alloc,
                                            number(64),
                                            expr_then(
                                                alloc,
                                                number(70),
                                                expr_then(
                                                    alloc,
                                                    number(64),
                                                    expr_then(alloc, number(68), no_exprs(alloc)),
                                                ),
                                            ),
                                        ),
                                    ),
                                    stmt_then(
                                        alloc,
                                        when(
                                            some(alloc, local(b"v_x")),
                                            stmt_then(alloc, rests(alloc), no_stmts(alloc)),
                                        ),
                                        stmt_then(alloc, set(b"v_x", number(0)), no_stmts(alloc)),
                                    ),
                                ),
                            ),
                        ),
                        no_stmts(alloc),
                    ),
                ),
            ),
            stmt_then(
                alloc,
                when(
                    some(alloc, local(b"v_ok")),
                    stmt_then(
                        alloc,
                        takes(
                            b"v_ok",
                            b"fr_add",
                            expr_then(
                                alloc,
                                number(64),
                                expr_then(
                                    alloc,
                                    number(71),
                                    expr_then(
                                        alloc,
                                        number(64),
                                        expr_then(alloc, number(70), no_exprs(alloc)),
                                    ),
                                ),
                            ),
                        ),
                        stmt_then(
                            alloc,
                            when(
                                some(alloc, local(b"v_ok")),
                                stmt_then(
                                    alloc,
                                    takes(
                                        b"v_ok",
                                        b"f_move",
                                        expr_then(alloc, number(0), no_exprs(alloc)),
                                    ),
                                    no_stmts(alloc),
                                ),
                            ),
                            no_stmts(alloc),
                        ),
                    ),
                ),
                stmt_then(alloc, gives_back(local(b"v_ok")), no_stmts(alloc)),
            ),
        ),
    )
}
