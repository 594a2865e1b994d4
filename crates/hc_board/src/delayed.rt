//! How time passed.

use hc_frac::Frac;

/// How time passed on a board.
#[derive(Clone, Copy, Debug, PartialEq, Eq)]
pub enum Delayed {
    /// No post has a bound or evolves, so nothing waits for time.
    NoBound,
    /// The horizon is reached.
    AtHorizon,
    /// A working value of the delay doesn't fit a fraction.
    Unfit,
    /// So many time units passed.
    Took(Frac),
}
