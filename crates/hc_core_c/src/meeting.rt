//! Functions of the core by which channels meet, steps are counted and the run stops.

ghost use Rattle.hc_core_c.specs.Code as spec;
ghost use Rattle.hc_cbuild.specs.Makes.{Makes};

use crate::expr::{binary, elem, first_of, local, none, number, some, times};
use crate::list::{expr_then, name_then, no_exprs, no_names, no_stmts, stmt_then};
use crate::places::{branch_of, clears, its, mutes, receive_of, send_of, stops};
use crate::stmt::{
    answers, calls, counted, counts_up, does, gives_back, set, store, takes, when, when_else,
};
use hc_cast::{CFunction, COp};
use std::alloc::{AllocError, Global};

/// The process of a code.
pub fn f_owner(alloc: Global, processes: u32) -> Result<CFunction, AllocError>
    ensures { Makes result (spec.f_owner processes) }
{
    answers(
        b"f_owner",
        name_then(alloc, b"v_x", no_names(alloc)),
        name_then(alloc, b"v_p", name_then(alloc, b"v_q", no_names(alloc))),
        stmt_then(
            alloc,
            counted(
                alloc,
                b"v_p",
                processes,
                stmt_then(
                    alloc,
                    when(
                        binary(
                            alloc,
                            COp::Less,
                            times(alloc, local(b"v_p"), 32),
                            local(b"v_x"),
                        ),
                        stmt_then(alloc, set(b"v_q", local(b"v_p")), no_stmts(alloc)),
                    ),
                    stmt_then(alloc, counts_up(alloc, b"v_p"), no_stmts(alloc)),
                ),
            ),
            stmt_then(alloc, gives_back(local(b"v_q")), no_stmts(alloc)),
        ),
    )
}

/// The run stops, and its end line is printed.
pub fn f_stop(alloc: Global) -> Result<CFunction, AllocError>
    ensures { Makes result spec.f_stop }
{
    does(
        b"f_stop",
        name_then(alloc, b"v_k", name_then(alloc, b"v_w", no_names(alloc))),
        no_names(alloc),
        stmt_then(
            alloc,
            calls(
                b"out_end",
                expr_then(
                    alloc,
                    local(b"v_k"),
                    expr_then(
                        alloc,
                        number(64),
                        expr_then(
                            alloc,
                            number(64),
                            expr_then(alloc, local(b"v_w"), no_exprs(alloc)),
                        ),
                    ),
                ),
            ),
            stmt_then(
                alloc,
                store(
                    b"a_stop",
                    number(0),
                    binary(alloc, COp::Add, local(b"v_k"), number(1)),
                ),
                no_stmts(alloc),
            ),
        ),
    )
}

/// One step more, and the limit's stop where it is reached.
pub fn f_count(alloc: Global) -> Result<CFunction, AllocError>
    ensures { Makes result spec.f_count }
{
    does(
        b"f_count",
        no_names(alloc),
        no_names(alloc),
        stmt_then(
            alloc,
            store(
                b"a_steps",
                number(0),
                binary(alloc, COp::Add, first_of(alloc, b"a_steps"), number(1)),
            ),
            stmt_then(
                alloc,
                when_else(
                    binary(
                        alloc,
                        COp::Less,
                        first_of(alloc, b"a_steps"),
                        first_of(alloc, b"a_limit"),
                    ),
                    no_stmts(alloc),
                    stmt_then(alloc, stops(alloc, 3), no_stmts(alloc)),
                ),
                no_stmts(alloc),
            ),
        ),
    )
}

/// All offers of a process go.
pub fn f_mute(alloc: Global, channels: u32) -> Result<CFunction, AllocError>
    ensures { Makes result (spec.f_mute channels) }
{
    does(
        b"f_mute",
        name_then(alloc, b"v_p", no_names(alloc)),
        name_then(alloc, b"v_c", no_names(alloc)),
        stmt_then(
            alloc,
            counted(
                alloc,
                b"v_c",
                channels,
                stmt_then(
                    alloc,
                    clears(alloc, b"a_send"),
                    stmt_then(
                        alloc,
                        clears(alloc, b"a_receive"),
                        stmt_then(alloc, counts_up(alloc, b"v_c"), no_stmts(alloc)),
                    ),
                ),
            ),
            no_stmts(alloc),
        ),
    )
}

/// A process is going again.
pub fn f_go(alloc: Global) -> Result<CFunction, AllocError>
    ensures { Makes result spec.f_go }
{
    does(
        b"f_go",
        name_then(alloc, b"v_p", no_names(alloc)),
        name_then(alloc, b"v_i", no_names(alloc)),
        stmt_then(
            alloc,
            store(b"a_phase", local(b"v_p"), number(0)),
            stmt_then(
                alloc,
                store(b"a_bounded", local(b"v_p"), number(0)),
                stmt_then(
                    alloc,
                    store(b"a_woke", local(b"v_p"), number(1)),
                    stmt_then(
                        alloc,
                        counted(
                            alloc,
                            b"v_i",
                            64,
                            stmt_then(
                                alloc,
                                store(
                                    b"a_moves",
                                    binary(
                                        alloc,
                                        COp::Add,
                                        times(alloc, local(b"v_p"), 64),
                                        local(b"v_i"),
                                    ),
                                    number(0),
                                ),
                                stmt_then(alloc, counts_up(alloc, b"v_i"), no_stmts(alloc)),
                            ),
                        ),
                        stmt_then(alloc, mutes(alloc, b"v_p"), no_stmts(alloc)),
                    ),
                ),
            ),
        ),
    )
}

/// The two ends of a channel meet.
pub fn f_meet(alloc: Global) -> Result<CFunction, AllocError>
    ensures { Makes result spec.f_meet }
{
    does(
        b"f_meet",
        name_then(alloc, b"v_c", no_names(alloc)),
        name_then(
            alloc,
            b"v_s",
            name_then(alloc, b"v_r", name_then(alloc, b"v_at", no_names(alloc))),
        ),
        stmt_then(
            alloc,
            takes(
                b"v_s",
                b"f_owner",
                expr_then(alloc, send_of(alloc), no_exprs(alloc)),
            ),
            stmt_then(
                alloc,
                takes(
                    b"v_r",
                    b"f_owner",
                    expr_then(alloc, receive_of(alloc), no_exprs(alloc)),
                ),
                stmt_then(
                    alloc,
                    set(b"v_at", branch_of(alloc, send_of(alloc), b"v_s")),
                    stmt_then(
                        alloc,
                        store(b"a_met", local(b"v_s"), local(b"v_at")),
                        stmt_then(
                            alloc,
                            store(
                                b"a_met",
                                local(b"v_r"),
                                branch_of(alloc, receive_of(alloc), b"v_r"),
                            ),
                            stmt_then(
                                alloc,
                                set(
                                    b"v_at",
                                    binary(
                                        alloc,
                                        COp::Add,
                                        its(alloc, b"v_s", 191),
                                        local(b"v_at"),
                                    ),
                                ),
                                stmt_then(
                                    alloc,
                                    calls(
                                        b"out_comm",
                                        expr_then(
                                            alloc,
                                            number(64),
                                            expr_then(
                                                alloc,
                                                number(64),
                                                expr_then(
                                                    alloc,
                                                    local(b"v_c"),
                                                    expr_then(
                                                        alloc,
                                                        local(b"v_s"),
                                                        expr_then(
                                                            alloc,
                                                            local(b"v_r"),
                                                            expr_then(
                                                                alloc,
                                                                local(b"v_at"),
                                                                no_exprs(alloc),
                                                            ),
                                                        ),
                                                    ),
                                                ),
                                            ),
                                        ),
                                    ),
                                    stmt_then(
                                        alloc,
                                        calls(
                                            b"fr_move",
                                            expr_then(
                                                alloc,
                                                number(64),
                                                expr_then(
                                                    alloc,
                                                    binary(
                                                        alloc,
                                                        COp::Add,
                                                        times(alloc, local(b"v_r"), 320),
                                                        elem(alloc, b"a_into", local(b"v_c")),
                                                    ),
                                                    expr_then(
                                                        alloc,
                                                        number(64),
                                                        expr_then(
                                                            alloc,
                                                            local(b"v_at"),
                                                            no_exprs(alloc),
                                                        ),
                                                    ),
                                                ),
                                            ),
                                        ),
                                        stmt_then(
                                            alloc,
                                            calls(
                                                b"f_go",
                                                expr_then(alloc, local(b"v_s"), no_exprs(alloc)),
                                            ),
                                            stmt_then(
                                                alloc,
                                                calls(
                                                    b"f_go",
                                                    expr_then(
                                                        alloc,
                                                        local(b"v_r"),
                                                        no_exprs(alloc),
                                                    ),
                                                ),
                                                stmt_then(
                                                    alloc,
                                                    calls(b"f_count", no_exprs(alloc)),
                                                    no_stmts(alloc),
                                                ),
                                            ),
                                        ),
                                    ),
                                ),
                            ),
                        ),
                    ),
                ),
            ),
        ),
    )
}

/// All ready channels meet, the least first.
pub fn f_fire(alloc: Global, channels: u32) -> Result<CFunction, AllocError>
    ensures { Makes result (spec.f_fire channels) }
{
    does(
        b"f_fire",
        no_names(alloc),
        name_then(alloc, b"v_c", no_names(alloc)),
        stmt_then(
            alloc,
            counted(
                alloc,
                b"v_c",
                channels,
                stmt_then(
                    alloc,
                    when(
                        binary(
                            alloc,
                            COp::And,
                            binary(
                                alloc,
                                COp::And,
                                none(alloc, first_of(alloc, b"a_stop")),
                                some(alloc, send_of(alloc)),
                            ),
                            some(alloc, receive_of(alloc)),
                        ),
                        stmt_then(
                            alloc,
                            calls(b"f_meet", expr_then(alloc, local(b"v_c"), no_exprs(alloc))),
                            no_stmts(alloc),
                        ),
                    ),
                    stmt_then(alloc, counts_up(alloc, b"v_c"), no_stmts(alloc)),
                ),
            ),
            no_stmts(alloc),
        ),
    )
}
