//! Where an expression or a condition stands.

/// What stands round an expression or a condition, and so which of its signs need brackets.
#[derive(Clone, Copy, Debug, PartialEq, Eq)]
pub enum Level {
    /// No brackets are needed.
    Alone,
    /// A sum, a difference and an `||` need brackets.
    Inner,
    /// All that has a sign between two parts needs brackets.
    Tight,
}
