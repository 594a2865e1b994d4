//! Functions of the core: the delay, wakes, and the pass.

ghost use Rattle.hc_core_c.specs.Code as spec;
ghost use Rattle.hc_cbuild.specs.Makes.{Makes};

use crate::expr::{binary, elem, first_of, local, none, number, some};
use crate::list::{expr_then, name_then, no_exprs, no_names, no_stmts, stmt_then};
use crate::places::stops;
use crate::stmt::{calls, counted, counts_up, does, set, store, takes, when, when_else};
use hc_cast::{CFunction, COp};
use std::alloc::{AllocError, Global};

/// The delay, with its line and what it makes able.
pub fn f_delay(alloc: Global) -> Result<CFunction, AllocError>
    ensures { Makes result spec.f_delay }
{
    does(
        b"f_delay",
        no_names(alloc),
        name_then(alloc, b"v_x", no_names(alloc)),
        stmt_then(
            alloc,
            calls(
                b"out_delay",
                expr_then(
                    alloc,
                    number(64),
                    expr_then(
                        alloc,
                        number(64),
                        expr_then(alloc, number(70), no_exprs(alloc)),
                    ),
                ),
            ),
            stmt_then(
                alloc,
                takes(
                    b"v_x",
                    b"f_move",
                    expr_then(alloc, number(1), no_exprs(alloc)),
                ),
                stmt_then(
                    alloc,
                    calls(
                        b"fr_move",
                        expr_then(
                            alloc,
                            number(64),
                            expr_then(
                                alloc,
                                number(64),
                                expr_then(
                                    alloc,
                                    number(64),
                                    expr_then(alloc, number(71), no_exprs(alloc)),
                                ),
                            ),
                        ),
                    ),
                    stmt_then(
                        alloc,
                        calls(b"f_count", no_exprs(alloc)),
                        stmt_then(
                            alloc,
                            takes(b"v_x", b"f_due", no_exprs(alloc)),
                            stmt_then(
                                alloc,
                                when(
                                    binary(
                                        alloc,
                                        COp::And,
                                        none(alloc, first_of(alloc, b"a_stop")),
                                        none(alloc, local(b"v_x")),
                                    ),
                                    stmt_then(alloc, stops(alloc, 2), no_stmts(alloc)),
                                ),
                                no_stmts(alloc),
                            ),
                        ),
                    ),
                ),
            ),
        ),
    )
}

/// Time passes, or the run stops.
pub fn f_elapse(alloc: Global) -> Result<CFunction, AllocError>
    ensures { Makes result spec.f_elapse }
{
    does(
        b"f_elapse",
        no_names(alloc),
        name_then(alloc, b"v_k", name_then(alloc, b"v_x", no_names(alloc))),
        stmt_then(
            alloc,
            takes(b"v_k", b"f_least", no_exprs(alloc)),
            stmt_then(
                alloc,
                when_else(
                    none(alloc, local(b"v_k")),
                    stmt_then(alloc, calls(b"f_stand", no_exprs(alloc)), no_stmts(alloc)),
                    stmt_then(
                        alloc,
                        takes(
                            b"v_x",
                            b"fr_cmp",
                            expr_then(
                                alloc,
                                number(64),
                                expr_then(
                                    alloc,
                                    number(64),
                                    expr_then(alloc, number(67), no_exprs(alloc)),
                                ),
                            ),
                        ),
                        stmt_then(
                            alloc,
                            when_else(
                                binary(alloc, COp::Equal, local(b"v_x"), number(0)),
                                stmt_then(
                                    alloc,
                                    stops(alloc, 2),
                                    stmt_then(alloc, set(b"v_x", number(0)), no_stmts(alloc)),
                                ),
                                stmt_then(
                                    alloc,
                                    takes(
                                        b"v_x",
                                        b"f_length",
                                        expr_then(alloc, local(b"v_k"), no_exprs(alloc)),
                                    ),
                                    stmt_then(
                                        alloc,
                                        when_else(
                                            some(alloc, local(b"v_x")),
                                            stmt_then(
                                                alloc,
                                                calls(b"f_delay", no_exprs(alloc)),
                                                no_stmts(alloc),
                                            ),
                                            stmt_then(alloc, stops(alloc, 4), no_stmts(alloc)),
                                        ),
                                        stmt_then(alloc, set(b"v_x", number(0)), no_stmts(alloc)),
                                    ),
                                ),
                            ),
                            no_stmts(alloc),
                        ),
                    ),
                ),
                no_stmts(alloc),
            ),
        ),
    )
}

/// The wakes: of those that became able, or of all others at a stop.
pub fn f_wakes(alloc: Global, processes: u32) -> Result<CFunction, AllocError>
    ensures { Makes result (spec.f_wakes processes) }
{
    does(
        b"f_wakes",
        no_names(alloc),
        name_then(alloc, b"v_k", no_names(alloc)),
        stmt_then(
            alloc,
            counted(
                alloc,
                b"v_k",
                processes,
                stmt_then(
                    alloc,
                    when(
                        binary(
                            alloc,
                            COp::And,
                            binary(
                                alloc,
                                COp::Or,
                                binary(alloc, COp::Less, local(b"v_k"), first_of(alloc, b"a_self")),
                                binary(alloc, COp::Less, first_of(alloc, b"a_self"), local(b"v_k")),
                            ),
                            binary(
                                alloc,
                                COp::Or,
                                some(alloc, first_of(alloc, b"a_stop")),
                                some(alloc, elem(alloc, b"a_woke", local(b"v_k"))),
                            ),
                        ),
                        stmt_then(
                            alloc,
                            calls(b"c_wake", expr_then(alloc, local(b"v_k"), no_exprs(alloc))),
                            no_stmts(alloc),
                        ),
                    ),
                    stmt_then(alloc, counts_up(alloc, b"v_k"), no_stmts(alloc)),
                ),
            ),
            no_stmts(alloc),
        ),
    )
}

/// One pass.
pub fn f_pass(alloc: Global, processes: u32) -> Result<CFunction, AllocError>
    ensures { Makes result (spec.f_pass processes) }
{
    does(
        b"f_pass",
        no_names(alloc),
        name_then(alloc, b"v_p", name_then(alloc, b"v_x", no_names(alloc))),
        stmt_then(
            alloc,
            counted(
                alloc,
                b"v_p",
                processes,
                stmt_then(
                    alloc,
                    store(b"a_woke", local(b"v_p"), number(0)),
                    stmt_then(alloc, counts_up(alloc, b"v_p"), no_stmts(alloc)),
                ),
            ),
            stmt_then(
                alloc,
                when_else(
                    binary(
                        alloc,
                        COp::Less,
                        first_of(alloc, b"a_steps"),
                        first_of(alloc, b"a_limit"),
                    ),
                    no_stmts(alloc),
                    stmt_then(alloc, stops(alloc, 3), no_stmts(alloc)),
                ),
                stmt_then(
                    alloc,
                    calls(b"f_fire", no_exprs(alloc)),
                    stmt_then(
                        alloc,
                        takes(b"v_x", b"f_any", no_exprs(alloc)),
                        stmt_then(
                            alloc,
                            when(
                                binary(
                                    alloc,
                                    COp::And,
                                    none(alloc, first_of(alloc, b"a_stop")),
                                    none(alloc, local(b"v_x")),
                                ),
                                stmt_then(
                                    alloc,
                                    calls(b"f_elapse", no_exprs(alloc)),
                                    no_stmts(alloc),
                                ),
                            ),
                            stmt_then(alloc, calls(b"f_wakes", no_exprs(alloc)), no_stmts(alloc)),
                        ),
                    ),
                ),
            ),
        ),
    )
}
