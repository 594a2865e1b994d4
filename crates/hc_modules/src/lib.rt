//! Expansion: each process of a source by itself, with the statements of the module that it calls.
#![tactic(auto)]

mod arguments;
mod call;
mod counts;
mod expanding;
mod flat;
mod laws;
mod names;
mod nodes;
mod replaced;
mod sizes;
mod written;

pub use counts::{cond_nodes_of, nodes_of};
pub use expanding::expand;
pub use flat::{Flat, FlatProcess, ModuleStop};
pub use laws::{expansion_laws, tree_laws};
