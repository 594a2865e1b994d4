//! The source tree: what a text of the language says, with the place of each part.
#![tactic(auto)]

mod expr;
mod flaw;
mod lists;
mod role;
mod same;
mod stmt;
mod tree;
mod whole;

pub use expr::{Comparison, CondKind, CondTree, ExprKind, ExprTree, Op};
pub use flaw::Flaw;
pub use role::{Mark, Role};
pub use stmt::{BranchTree, IoTree, RateTree, StmtKind, StmtTree};
pub use tree::{Body, ModuleDef, Param, ParamKind, ProcessDef, Tree};
pub use whole::same_tree;
