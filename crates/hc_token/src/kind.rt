//! The kinds of tokens.

use crate::fixed::Fixed;

/// What a token is, without what it says. The last three kinds stand nowhere in the grammar.
#[derive(Clone, Copy, Debug, PartialEq, Eq)]
pub enum Kind {
    /// A keyword or a sign.
    Fixed(Fixed),
    /// A name: a word that is no keyword and doesn't end in `_dot`.
    Name,
    /// A name with `_dot` behind it.
    Rate,
    /// A number: digits with at most one point among them.
    Number,
    /// The end of the text.
    End,
    /// A word of more than 64 bytes.
    LongWord,
    /// A number whose digits are above 2^63 - 1 or whose places are above 18.
    LargeNumber,
    /// Any other word that ends in `_dot`, and a byte that begins no token.
    Other,
}
