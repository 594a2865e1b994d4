//! What may be wrong with a text.
use hc_frac::Place;

/// What may be wrong with a token of a text that is no unit; at one token the first in this order.
#[derive(Clone, Copy, Debug, PartialEq, Eq)]
pub enum Flaw {
    /// A word of more than 64 bytes, a number out of range, or one item more than a limit allows.
    Limit,
    /// No unit has the tokens up to and with this one.
    Syntax,
    /// It opens the 65th open item.
    TooDeep,
    /// A rule on names and numbers is broken.
    Names,
}

/// Why a text is no C text of the subset.
#[derive(Clone, Copy, Debug, PartialEq, Eq)]
pub enum Refusal {
    /// It doesn't begin with the prelude.
    Prelude,
    /// What is wrong first with its unit, and the place in the whole text of the first token with which something is wrong.
    Unit(Flaw, Place),
}
