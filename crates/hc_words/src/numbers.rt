//! The numbers of the command line.

ghost use Rattle.std.specs.Prelude.{◌≡◌, None, IfSome, IsTrue};
ghost use Rattle.std.specs.Char.{is_ascii_digit};
ghost use Rattle.std.specs.List.{list_all};
ghost use Rattle.hc_rational.specs.Words as rational;
ghost use Rattle.hc_rational.specs.Words.{Rational};
ghost use Rattle.hc_frac.specs.declared.decimal.Decimal as number;
ghost use Rattle.hc_words.specs.Numbers as spec;

use hc_frac::{Decimal, Frac};
use hc_grammar::Source;
use hc_limits::MOST_SOURCE_BYTES;
use hc_token::{Kind, Lexeme, Scanner};

/// The most digits of a whole number.
const MOST_DIGITS: usize = 20;

fn are_digits(text: &[u8]) -> bool
    ensures { result ≡ list_all is_ascii_digit text.now }
{
    text.iter().all(|byte| byte.is_ascii_digit())
}

fn is_digits(text: &[u8]) -> bool
    ensures { result ≡ spec.is_digits text.now }
{
    !text.is_empty() && text.len() <= MOST_DIGITS && are_digits(text)
}

/// The number that a text writes in one to twenty digits, where it lies from `least` to `most`.
pub(crate) fn number_within(least: u64, most: u64, text: &str) -> Option<u64>
    ensures { result ≡ spec.number_within least most text.now }
{
    if !is_digits(text.as_bytes()) {
        return None;
    }
    let Ok(number) = text.parse::<u64>() else {
        return None;
    };
    if least <= number && number <= most {
        Some(number)
    } else {
        None
    }
}

fn are_in_decimal(text: &[u8]) -> bool
    ensures { result ≡ list_all spec.in_decimal text.now }
{
    text.iter()
        .all(|byte| byte.is_ascii_digit() || *byte == b'.')
}

/// The number of the source language that is exactly this text.
fn decimal_of(text: &[u8]) -> Option<Decimal>
    ensures every { (d : number.Decimal) → spec.IsDecimalText text.now d → result ≡ Some d }
    ensures only { IfSome result (spec.IsDecimalText text.now) }
{
    if text.len() > MOST_SOURCE_BYTES || !are_in_decimal(text) {
        return None;
    }
    let mut tokens = Scanner::new(text);
    let first = tokens.next()?;
    let second = tokens.next()?;
    match first.lexeme {
        Lexeme::Number(number) if second.lexeme.kind() == Kind::End => Some(number),
        _ => None,
    }
}

fn is_positive(fraction: Frac) -> bool
    ensures { result ≡ rational.is_positive fraction }
{
    fraction.sign() > 0
}

/// The positive fraction that a text writes: by its own text, or as a number of the source language.
pub(crate) fn positive_fraction(text: &str) -> Option<Frac>
    ensures some { IfSome result (λ q. spec.IsFractionText text.now q × IsTrue (rational.is_positive q)) }
    ensures none { result ≡ None → (q : Rational) → spec.IsFractionText text.now q × IsTrue (rational.is_positive q) → ⊥ }
{
    if let Some(fraction) = Frac::read(text.as_bytes()) {
        if is_positive(fraction) {
            return Some(fraction);
        }
    }
    let number = decimal_of(text.as_bytes())?;
    let value = number.value();
    if is_positive(value) {
        Some(value)
    } else {
        None
    }
}
