//! The terms of a checked system, and what they mean: the definitions stand in `specs/`.
#![tactic(auto)]

mod ends;
mod evaluation;
mod expr;
mod form;
mod laws;
mod model;
mod post;
mod run;
mod same;
mod stmt;
mod system;
mod task;

pub use ends::{Ends, channel_ends};
pub use evaluation::{holds, value};
pub use expr::{Comparison, Cond, Expr, Op};
pub use form::{Form, form_of, is_affine};
pub use laws::{event_laws, expression_laws, run_laws, step_laws};
pub use model::{Configuration, Mark, Meeting, ProcessState};
pub use post::{Moving, Offer, Phase, Post};
pub use run::{Item, Step, Stop, StretchEnd, Unfit};
pub use same::{same_cond, same_expr, same_io, same_rates, same_task};
pub use stmt::{Branch, Io, Rate, Stmt};
pub use system::{Process, System};
pub use task::Task;
