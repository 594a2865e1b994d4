//! What workers pass before they work.

/// Passed by a worker before each stretch, outside the lock.
pub trait Gate {
    /// The worker's number, and the number of its stretch, both from 0. It returns.
    fn enter(&self, worker: u32, stretch: u64);
}

/// A gate that holds nobody back.
#[derive(Clone, Copy)]
pub struct OpenGate;

impl Gate for OpenGate {
    fn enter(&self, _worker: u32, _stretch: u64) {}
}
