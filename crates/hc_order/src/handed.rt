//! What is handed over on a channel.

use hc_frac::Frac;

/// A communication on a channel: the clock at which it takes place, in time units from the start, and the value.
#[derive(Clone, Copy, Debug, PartialEq, Eq)]
pub struct Handed {
    pub at: Frac,
    pub value: Frac,
}
