//! Functions of the core that ask: who is able, what bounds the time, who became able.

ghost use Rattle.std.specs.Prelude.{◌≤◌};
ghost use Rattle.hc_core_c.specs.Code as spec;
ghost use Rattle.hc_cbuild.specs.Makes.{Makes};

use crate::expr::{binary, denies, elem, local, minus_one, none, number, some};
use crate::list::{expr_then, name_then, no_exprs, no_names, no_stmts, stmt_then};
use crate::places::{asks_able, its, mutes};
use crate::stmt::{answers, calls, counted, counts_up, does, gives_back, set, store, takes, when};
use hc_cast::{CFunction, COp};
use std::alloc::{AllocError, Global};

/// Whether a process is going or has a bound of 0.
pub fn f_able(alloc: Global) -> Result<CFunction, AllocError>
    ensures { Makes result spec.f_able }
{
    answers(
        b"f_able",
        name_then(alloc, b"v_p", no_names(alloc)),
        name_then(alloc, b"v_x", no_names(alloc)),
        stmt_then(
            alloc,
            takes(
                b"v_x",
                b"fr_sign",
                expr_then(
                    alloc,
                    number(64),
                    expr_then(alloc, its(alloc, b"v_p", 66), no_exprs(alloc)),
                ),
            ),
            stmt_then(
                alloc,
                gives_back(denies(
                    alloc,
                    binary(
                        alloc,
                        COp::And,
                        denies(alloc, none(alloc, elem(alloc, b"a_phase", local(b"v_p")))),
                        denies(
                            alloc,
                            binary(
                                alloc,
                                COp::And,
                                some(alloc, elem(alloc, b"a_bounded", local(b"v_p"))),
                                binary(alloc, COp::Equal, local(b"v_x"), number(0)),
                            ),
                        ),
                    ),
                )),
                no_stmts(alloc),
            ),
        ),
    )
}

/// Whether some process is able.
pub fn f_any(alloc: Global, processes: u32) -> Result<CFunction, AllocError>
    ensures { Makes result (spec.f_any processes) }
{
    answers(
        b"f_any",
        no_names(alloc),
        name_then(
            alloc,
            b"v_p",
            name_then(alloc, b"v_x", name_then(alloc, b"v_q", no_names(alloc))),
        ),
        stmt_then(
            alloc,
            counted(
                alloc,
                b"v_p",
                processes,
                stmt_then(
                    alloc,
                    asks_able(alloc),
                    stmt_then(
                        alloc,
                        when(
                            some(alloc, local(b"v_x")),
                            stmt_then(alloc, set(b"v_q", number(1)), no_stmts(alloc)),
                        ),
                        stmt_then(
                            alloc,
                            set(b"v_x", number(0)),
                            stmt_then(alloc, counts_up(alloc, b"v_p"), no_stmts(alloc)),
                        ),
                    ),
                ),
            ),
            stmt_then(alloc, gives_back(local(b"v_q")), no_stmts(alloc)),
        ),
    )
}

/// What time has to go by: nothing (0), motion (1), or bounds (2), of which register 68 has the least.
pub fn f_least(alloc: Global, processes: u32) -> Result<CFunction, AllocError>
    requires { processes ≤ 64 }
    ensures { Makes result (spec.f_least processes) }
{
    answers(
        b"f_least",
        no_names(alloc),
        name_then(
            alloc,
            b"v_i",
            name_then(
                alloc,
                b"v_p",
                name_then(alloc, b"v_x", name_then(alloc, b"v_k", no_names(alloc))),
            ),
        ),
        stmt_then(
            alloc,
            counted(
                alloc,
                b"v_i",
                processes * 64,
                stmt_then(
                    alloc,
                    when(
                        some(alloc, elem(alloc, b"a_moves", local(b"v_i"))),
                        stmt_then(alloc, set(b"v_k", number(1)), no_stmts(alloc)),
                    ),
                    stmt_then(alloc, counts_up(alloc, b"v_i"), no_stmts(alloc)),
                ),
            ),
            stmt_then(
                alloc,
                counted(
                    alloc,
                    b"v_p",
                    processes,
                    stmt_then(
                        alloc,
                        when(
                            some(alloc, elem(alloc, b"a_bounded", local(b"v_p"))),
                            stmt_then(
                                alloc,
                                takes(
                                    b"v_x",
                                    b"fr_cmp",
                                    expr_then(
                                        alloc,
                                        number(64),
                                        expr_then(
                                            alloc,
                                            its(alloc, b"v_p", 66),
                                            expr_then(alloc, number(68), no_exprs(alloc)),
                                        ),
                                    ),
                                ),
                                stmt_then(
                                    alloc,
                                    when(
                                        binary(
                                            alloc,
                                            COp::Or,
                                            binary(alloc, COp::Less, local(b"v_k"), number(2)),
                                            binary(alloc, COp::Less, local(b"v_x"), number(0)),
                                        ),
                                        stmt_then(
                                            alloc,
                                            calls(
                                                b"fr_move",
                                                expr_then(
                                                    alloc,
                                                    number(64),
                                                    expr_then(
                                                        alloc,
                                                        number(68),
                                                        expr_then(
                                                            alloc,
                                                            number(64),
                                                            expr_then(
                                                                alloc,
                                                                its(alloc, b"v_p", 66),
                                                                no_exprs(alloc),
                                                            ),
                                                        ),
                                                    ),
                                                ),
                                            ),
                                            no_stmts(alloc),
                                        ),
                                    ),
                                    stmt_then(
                                        alloc,
                                        set(b"v_k", number(2)),
                                        stmt_then(alloc, set(b"v_x", number(0)), no_stmts(alloc)),
                                    ),
                                ),
                            ),
                        ),
                        stmt_then(alloc, counts_up(alloc, b"v_p"), no_stmts(alloc)),
                    ),
                ),
                stmt_then(alloc, gives_back(local(b"v_k")), no_stmts(alloc)),
            ),
        ),
    )
}

/// Those that became able: their offers go, and they are to be woken.
pub fn f_due(alloc: Global, processes: u32) -> Result<CFunction, AllocError>
    ensures { Makes result (spec.f_due processes) }
{
    answers(
        b"f_due",
        no_names(alloc),
        name_then(
            alloc,
            b"v_p",
            name_then(alloc, b"v_x", name_then(alloc, b"v_q", no_names(alloc))),
        ),
        stmt_then(
            alloc,
            counted(
                alloc,
                b"v_p",
                processes,
                stmt_then(
                    alloc,
                    asks_able(alloc),
                    stmt_then(
                        alloc,
                        when(
                            some(alloc, local(b"v_x")),
                            stmt_then(
                                alloc,
                                store(b"a_woke", local(b"v_p"), number(1)),
                                stmt_then(
                                    alloc,
                                    mutes(alloc, b"v_p"),
                                    stmt_then(alloc, set(b"v_q", number(1)), no_stmts(alloc)),
                                ),
                            ),
                        ),
                        stmt_then(
                            alloc,
                            set(b"v_x", number(0)),
                            stmt_then(alloc, counts_up(alloc, b"v_p"), no_stmts(alloc)),
                        ),
                    ),
                ),
            ),
            stmt_then(alloc, gives_back(local(b"v_q")), no_stmts(alloc)),
        ),
    )
}

/// The stop where nothing moves and nothing is bounded.
pub fn f_stand(alloc: Global, processes: u32) -> Result<CFunction, AllocError>
    ensures { Makes result (spec.f_stand processes) }
{
    does(
        b"f_stand",
        no_names(alloc),
        name_then(alloc, b"v_p", name_then(alloc, b"v_k", no_names(alloc))),
        stmt_then(
            alloc,
            counted(
                alloc,
                b"v_p",
                processes,
                stmt_then(
                    alloc,
                    when(
                        binary(
                            alloc,
                            COp::Less,
                            elem(alloc, b"a_phase", local(b"v_p")),
                            number(2),
                        ),
                        stmt_then(alloc, set(b"v_k", number(1)), no_stmts(alloc)),
                    ),
                    stmt_then(alloc, counts_up(alloc, b"v_p"), no_stmts(alloc)),
                ),
            ),
            stmt_then(
                alloc,
                calls(
                    b"f_stop",
                    expr_then(
                        alloc,
                        local(b"v_k"),
                        expr_then(alloc, minus_one(alloc), no_exprs(alloc)),
                    ),
                ),
                no_stmts(alloc),
            ),
        ),
    )
}
