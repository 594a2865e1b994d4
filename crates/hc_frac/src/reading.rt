//! Fractions from their text.

ghost use Rattle.std.specs.Prelude.{◌≡◌, decimal};
ghost use Rattle.std.specs.Fmt.{signed_decimal};
ghost use Rattle.hc_frac.specs.Text.{text_of};
ghost use Rattle.hc_rational.specs.Words.{Rational, IsFrac};

use crate::frac::Frac;

/// The fraction that has these bytes as its text, where there is one. Else any fraction or none.
pub(crate) fn candidate(bytes: &[u8]) -> Option<Frac>
    ensures { (q : Rational) → IsFrac q → text_of q ≡ bytes.now → result ≡ Some q }
{
    let Ok(text) = str::from_utf8(bytes) else {
        return None;
    };
    let (top, bottom) = halves(text);
    let Ok(num) = top.parse::<i64>() else {
        return None;
    };
    let Ok(den) = bottom.parse::<i64>() else {
        return None;
    };
    Frac::new(num, den)
}

/// The texts of the numerator and the denominator of the fraction that has this text, where there
/// is one.
fn halves(text: &str) -> (&str, &str)
    ensures first { (q : Rational) → IsFrac q → text_of q ≡ text.now → result.0.now ≡ signed_decimal q.num }
    ensures second { (q : Rational) → IsFrac q → text_of q ≡ text.now → result.1.now ≡ decimal q.den }
{
    text.split_once('/').unwrap_or((text, "1"))
}
