//! The words that generated C is built with, and what they do on a thread's row.
#![tactic(auto)]

mod expressions;
mod functions;
mod names;
mod registers;
mod statements;

pub use expressions::{
    above_zero, below_one, binary, both, denies, difference, differs, either, element, equals,
    first_of, less, local, local_is, minus_one, number, numbers, signed, sum, times,
};
pub use functions::{array, body, function, procedure};
pub use names::word;
pub use registers::{
    clear_register, guarded, guarded_block, move_register, primitive_of, set_register,
};
pub use statements::{
    call, case_of, count_to, count_up, if_else, if_then, prim, return_value, return_zero, set,
    set_number, single, store, switch, take_call, take_prim, while_do,
};
