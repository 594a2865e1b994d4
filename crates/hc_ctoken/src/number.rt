//! Numbers.

ghost use Rattle.std.specs.Prelude.{◌≡◌, length, min, true};
ghost use Rattle.std.specs.Char.{is_ascii_digit};
ghost use Rattle.std.specs.List.{list_all};
ghost use Rattle.std.specs.Str.Parse.{digits_value};
ghost use Rattle.hc_ctoken.specs.Numbers as spec;

use crate::token::Lexeme;

const GREATEST_NUMBER: u64 = 0x7fff_ffff_ffff_ffff;

/// The number that is written by digits.
pub(crate) fn number(digits: &[u8]) -> Lexeme
    requires { list_all is_ascii_digit digits.now ≡ true }
    ensures { result ≡ spec.number digits.now }
{
    number_of(is_padded(digits), value(digits))
}

/// Whether a zero stands in front of other digits.
pub(crate) fn is_padded(digits: &[u8]) -> bool
    ensures { result ≡ spec.is_padded digits.now }
{
    match digits {
        [b'0', rest @ ..] => !rest.is_empty(),
        _ => false,
    }
}

/// What digits are as a number, or `u64::MAX` where it is greater.
pub(crate) fn value(digits: &[u8]) -> u64
    requires { list_all is_ascii_digit digits.now ≡ true }
    ensures { result ≡ min (digits_value 10 digits.now) u64.MAX }
{
    let mut value: u64 = 0;
    for digit in digits {
        value = value
            .saturating_mul(10)
            .saturating_add(u64::from(digit - b'0'));
    }
    value
}

/// A number of this value, with a leading zero or not.
fn number_of(padded: bool, value: u64) -> Lexeme
    ensures { result ≡ spec.number_of padded value }
{
    if value > GREATEST_NUMBER {
        return Lexeme::LargeNumber;
    }
    let number = value as i64;
    if padded {
        Lexeme::Padded(number)
    } else {
        Lexeme::Number(number)
    }
}
