//! The private code of a thread in generated C: it takes the silent steps of its process.
#![tactic(auto)]

mod acts;
mod blocks;
mod body;
mod choice;
mod commit;
mod laws;
mod numbers;

pub use body::{Blocks, private_code};
pub use laws::stretch_laws;
pub use numbers::{
    BOUND, CLOCK, ENDS_ENDED, ENDS_LOGGED, ENDS_SPENT, ENDS_UNFIT, ENDS_WAITING, GOES_ON, LOGGED,
    RATES, SCRATCH, SLOPES, VALUES,
};
