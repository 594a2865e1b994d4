//! The kinds of tokens.

use crate::fixed::Fixed;

/// What a token is, without what it says. `AnyNumber` and `AnyLocal` are kinds that may be wanted, and no token is of them.
/// The last four kinds of tokens stand nowhere in the grammar.
#[derive(Clone, Copy, Debug, PartialEq, Eq)]
pub enum Kind {
    /// A keyword or a sign.
    Fixed(Fixed),
    /// A word that begins with `a_`.
    Array,
    /// A word that begins with `f_`.
    Function,
    /// A word that begins with `v_`, but for `v_u`.
    Local,
    /// `v_u`, which names the parameter of each thread.
    Unused,
    /// `t` with a number behind it.
    Thread,
    /// A primitive.
    Primitive,
    /// A number without a leading zero, but for `0`.
    Number,
    /// `0`
    Zero,
    /// A string: at most one name between two quotes.
    Text,
    /// The end of the text.
    End,
    /// Wanted alone: a number, which may be `0`.
    AnyNumber,
    /// Wanted alone: a word that begins with `v_`, which may be `v_u`.
    AnyLocal,
    /// A word of more than 64 bytes, or a string that holds one.
    LongWord,
    /// A number above 2^63 - 1.
    LargeNumber,
    /// Any other number with a leading zero.
    Padded,
    /// Any other word, a string that holds no name, and a byte that begins no token.
    Other,
}
