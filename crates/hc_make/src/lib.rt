//! Made sources, as large as wanted, with a known answer.
#![tactic(auto)]

mod made;

pub use made::made_source;
