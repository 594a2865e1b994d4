//! What a thread of generated C does, computed: the equations and rules by which programs of the thread machine are proved.
#![tactic(auto)]

mod laws;

pub use laws::thread_laws;
