//! Tokens.

ghost use Rattle.std.specs.Prelude.{◌≡◌};
ghost use Rattle.hc_ctoken.specs.Lexemes as spec;

use crate::fixed::Fixed;
use crate::kind::Kind;
use hc_cast::Primitive;
use hc_frac::{Name, Place};

/// A token without its place: what it is, and what it says.
#[derive(Debug, PartialEq, Eq, Drop)]
pub enum Lexeme {
    /// A keyword or a sign.
    Fixed(Fixed),
    /// A word that begins with `a_`.
    Array(Name),
    /// A word that begins with `f_`.
    Function(Name),
    /// A word that begins with `v_`.
    Local(Name),
    /// `t` and a number without a leading zero; one above 2^64 - 1 is said as that.
    Thread(u64),
    /// A primitive.
    Primitive(Primitive),
    /// A number without a leading zero.
    Number(i64),
    /// `""`
    EmptyText,
    /// A name between quotes.
    Text(Name),
    /// The end of the text.
    End,
    /// A word of more than 64 bytes, or a string that holds one.
    LongWord,
    /// A number above 2^63 - 1.
    LargeNumber,
    /// Any other number with a leading zero.
    Padded(i64),
    /// Any other word, a string that holds no name, and a byte that begins no token.
    Other,
}

impl Lexeme {
    /// What it is, without what it says.
    pub fn kind(&self) -> Kind
        ensures { result ≡ spec.kind_of self.now }
    {
        match self {
            Lexeme::Fixed(fixed) => Kind::Fixed(*fixed),
            Lexeme::Array(_) => Kind::Array,
            Lexeme::Function(_) => Kind::Function,
            Lexeme::Local(name) => local_kind(name.text().as_bytes()),
            Lexeme::Thread(_) => Kind::Thread,
            Lexeme::Primitive(_) => Kind::Primitive,
            Lexeme::Number(number) => number_kind(*number),
            Lexeme::EmptyText | Lexeme::Text(_) => Kind::Text,
            Lexeme::End => Kind::End,
            Lexeme::LongWord => Kind::LongWord,
            Lexeme::LargeNumber => Kind::LargeNumber,
            Lexeme::Padded(_) => Kind::Padded,
            Lexeme::Other => Kind::Other,
        }
    }
}

fn local_kind(name: &[u8]) -> Kind
    ensures { result ≡ spec.local_kind name.now }
{
    if name == b"v_u".as_slice() {
        Kind::Unused
    } else {
        Kind::Local
    }
}

fn number_kind(number: i64) -> Kind
    ensures { result ≡ spec.number_kind number }
{
    if number == 0 {
        Kind::Zero
    } else {
        Kind::Number
    }
}

/// One token of a text.
#[derive(Debug, PartialEq, Eq, Drop)]
pub struct Token {
    /// Where its first byte stands; at the end of the text, one past the last byte.
    pub place: Place,
    pub lexeme: Lexeme,
}
