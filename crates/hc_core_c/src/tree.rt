//! All functions of the core.

ghost use Rattle.std.specs.Prelude.{◌≤◌};
ghost use Rattle.hc_core_c.specs.Code as spec;
ghost use Rattle.hc_cbuild.specs.Makes.{Makes};

use crate::asking::{f_able, f_any, f_due, f_least, f_stand};
use crate::list::{function_then, no_functions};
use crate::meeting::{f_count, f_fire, f_go, f_meet, f_mute, f_owner, f_stop};
use crate::moving::{f_drift, f_length, f_lower, f_move, f_shift};
use crate::passing::{f_delay, f_elapse, f_pass, f_wakes};
use hc_cast::CFunction;
use hc_list::List;
use std::alloc::{AllocError, Global};

/// The functions of the core, for 1 to 64 processes and so many channels; the last is `f_pass`.
/// `AllocError` is want of memory.
pub fn core_tree(
    alloc: Global,
    processes: u32,
    channels: u32,
) -> Result<List<CFunction>, AllocError>
    requires { processes ≤ 64 }
    ensures { Makes result (spec.core_functions processes channels) }
{
    function_then(
        alloc,
        f_owner(alloc, processes),
        function_then(
            alloc,
            f_stop(alloc),
            function_then(
                alloc,
                f_count(alloc),
                function_then(
                    alloc,
                    f_mute(alloc, channels),
                    function_then(
                        alloc,
                        f_go(alloc),
                        function_then(
                            alloc,
                            f_meet(alloc),
                            function_then(
                                alloc,
                                f_fire(alloc, channels),
                                function_then(
                                    alloc,
                                    f_able(alloc),
                                    function_then(
                                        alloc,
                                        f_any(alloc, processes),
                                        function_then(
                                            alloc,
                                            f_least(alloc, processes),
                                            function_then(
                                                alloc,
                                                f_shift(alloc),
                                                function_then(
                                                    alloc,
                                                    f_drift(alloc),
                                                    function_then(
                                                        alloc,
                                                        f_lower(alloc),
                                                        function_then(
                                                            alloc,
                                                            f_move(alloc, processes, channels),
                                                            function_then(
                                                                alloc,
                                                                f_due(alloc, processes),
                                                                function_then(
                                                                    alloc,
                                                                    f_stand(alloc, processes),
                                                                    function_then(
                                                                        alloc,
                                                                        f_length(alloc),
                                                                        function_then(
                                                                            alloc,
                                                                            f_delay(alloc),
                                                                            function_then(
                                                                                alloc,
                                                                                f_elapse(alloc),
                                                                                function_then(
                                                                                    alloc,
                                                                                    f_wakes(
                                                                                        alloc,
                                                                                        processes,
                                                                                    ),
                                                                                    function_then(
                                                                                        alloc,
                                                                                        f_pass(
                                                                                            alloc,
                                                                                            processes,
                                                                                        ),
                                                                                        no_functions(
                                                                                            alloc,
                                                                                        ),
                                                                                    ),
                                                                                ),
                                                                            ),
                                                                        ),
                                                                    ),
                                                                ),
                                                            ),
                                                        ),
                                                    ),
                                                ),
                                            ),
                                        ),
                                    ),
                                ),
                            ),
                        ),
                    ),
                ),
            ),
        ),
    )
}
