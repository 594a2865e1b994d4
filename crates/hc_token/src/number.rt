//! Numbers.

ghost use Rattle.std.specs.Prelude.{◌≡◌, ◌≤◌, length, min, true, slice_index};
ghost use Rattle.std.specs.Char.{is_ascii_digit};
ghost use Rattle.std.specs.List.{list_all, prefix_len};
ghost use Rattle.std.specs.Str.Parse.{digits_value_after};
ghost use Rattle.hc_token.specs.Numbers as spec;

use crate::token::Lexeme;
use hc_frac::Decimal;

/// The greatest that the digits of a number may be, read as one number.
const MOST_DIGITS: u64 = 0x7fff_ffff_ffff_ffff;

const MOST_PLACES: usize = 18;

/// The number at the front of a text, and its length in bytes.
pub(crate) fn number(text: &[u8]) -> (Lexeme, usize)
    requires { is_ascii_digit (slice_index text.now 0) ≡ true }
    ensures number { result.0 ≡ spec.number text.now }
    ensures len { result.1 ≡ spec.number_len text.now }
    ensures within { (1 ≤ result.1) × (result.1 ≤ length text.now) }
{
    let whole = front_digits(text);
    let places = point_digits(&text[whole.len()..]);
    let value = with_digits(with_digits(0, whole), places);
    let len = match places.len() {
        0 => whole.len(),
        count => whole.len() + 1 + count,
    };
    (number_of(value, places.len()), len)
}

#[tactic(auto, using(crate::proofs::Runs::all_of_run))]
fn front_digits(text: &[u8]) -> &[u8]
    ensures value { result.now ≡ spec.front_digits text.now }
    ensures digits { list_all is_ascii_digit result.now ≡ true }
    ensures len { length result.now ≡ prefix_len is_ascii_digit text.now }
{
    &text[..digit_count(text)]
}

#[tactic(auto, using(crate::proofs::Runs::run_within))]
fn digit_count(text: &[u8]) -> usize
    ensures value { result ≡ prefix_len is_ascii_digit text.now }
    ensures within { result ≤ length text.now }
{
    text.iter().take_while(|byte| byte.is_ascii_digit()).count()
}

fn point_digits(text: &[u8]) -> &[u8]
    ensures value { result.now ≡ spec.point_digits text.now }
    ensures digits { list_all is_ascii_digit result.now ≡ true }
    ensures within { spec.point_len result.now ≤ length text.now }
{
    match text {
        [b'.', rest @ ..] => front_digits(rest),
        _ => &[],
    }
}

/// The number that is written by the digits of `value` and then these, or `u64::MAX` where it is
/// greater.
fn with_digits(mut value: u64, digits: &[u8]) -> u64
    requires { list_all is_ascii_digit digits.now ≡ true }
    ensures { result ≡ min (digits_value_after 10 value digits.now) u64.MAX }
{
    for digit in digits {
        value = value
            .saturating_mul(10)
            .saturating_add(u64::from(digit - b'0'));
    }
    value
}

/// The number with these digits, read as one number, and so many places.
fn number_of(digits: u64, places: usize) -> Lexeme
    ensures { result ≡ spec.number_of digits places }
{
    if digits > MOST_DIGITS || places > MOST_PLACES {
        return Lexeme::LargeNumber;
    }
    match Decimal::new(digits as i64, places as u8) {
        Some(number) => Lexeme::Number(number),
        None => unreachable!(),
    }
}
