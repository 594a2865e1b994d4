//! Tokens.

ghost use Rattle.std.specs.Prelude.{◌≡◌};
ghost use Rattle.hc_token.specs.Lexemes as spec;

use crate::fixed::Fixed;
use crate::kind::Kind;
use hc_frac::{Decimal, Name, Place};

/// A token without its place: what it is, and what it says.
#[derive(Debug, PartialEq, Eq, Drop)]
pub enum Lexeme {
    /// A keyword or a sign.
    Fixed(Fixed),
    /// A name.
    Name(Name),
    /// A rate, by the name in front of its `_dot`.
    Rate(Name),
    /// A number in range.
    Number(Decimal),
    /// The end of the text.
    End,
    /// A word of more than 64 bytes.
    LongWord,
    /// A number whose digits are above 2^63 - 1 or whose places are above 18.
    LargeNumber,
    /// Any other word that ends in `_dot`, and a byte that begins no token.
    Other,
}

impl Lexeme {
    /// What it is, without what it says.
    pub fn kind(&self) -> Kind
        ensures { result ≡ spec.kind_of self.now }
    {
        match self {
            Lexeme::Fixed(fixed) => Kind::Fixed(*fixed),
            Lexeme::Name(_) => Kind::Name,
            Lexeme::Rate(_) => Kind::Rate,
            Lexeme::Number(_) => Kind::Number,
            Lexeme::End => Kind::End,
            Lexeme::LongWord => Kind::LongWord,
            Lexeme::LargeNumber => Kind::LargeNumber,
            Lexeme::Other => Kind::Other,
        }
    }
}

/// One token of a text.
#[derive(Debug, PartialEq, Eq, Drop)]
pub struct Token {
    /// Where its first byte stands; at the end of the text, one past the last byte.
    pub place: Place,
    pub lexeme: Lexeme,
}
