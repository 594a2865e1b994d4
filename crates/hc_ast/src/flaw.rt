//! What may be wrong with a text.

/// What may be wrong with a token of a text that is no source.
#[derive(Clone, Copy, Debug, PartialEq, Eq)]
pub enum Flaw {
    /// A word of more than 64 bytes.
    NameTooLong,
    /// A number above 2^63 - 1 without its point, or with more than 18 places.
    NumberUnfit,
    /// No source has the tokens up to and with this one.
    Syntax,
    /// It opens the 65th open item.
    TooDeep,
    /// It is the 201st node of its outermost expression or condition.
    TooManyNodes,
}
