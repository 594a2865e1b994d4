//! Fractions whose numerator and denominator have at most 63 bits.

ghost use Rattle.std.specs.Prelude.{◌≡◌, ◌≢◌, ◌<◌, ◌↔◌, pos, IsTrue, SomeIff, IfSome};
ghost use Rattle.std.specs.Int.{int_signum};
ghost use Rattle.hc_frac.specs.Text.{text_of};
ghost use Rattle.hc_frac.specs.PartsOf.{ArePartsOf};
ghost use Rattle.hc_rational.specs.Words.{Rational, zero_ℚ, quotient, ratio, IsFrac, ◌+ℚ◌, ◌-ℚ◌, ◌*ℚ◌, ◌/ℚ◌, neg_ℚ, rank, lesser, greater, earlier, is_zero};

use crate::lowest::gcd;
use crate::reading::candidate;
use arrayvec::ArrayString;
use itoa::Buffer;
use std::cmp::Ordering;
use std::marker::Model;

/// One more than the greatest numerator and the greatest denominator.
const LIMIT: u128 = 1 << 63;

/// An exact fraction in lowest terms. The magnitude of its numerator and its denominator are at
/// most 2^63 - 1.
#[derive(Clone, Copy, Debug, PartialEq, Eq)]
pub struct Frac {
    num: i64,
    den: u64,
}

impl Model for Frac {
    ghost use Rattle.hc_rational.specs.Words.{Rational};
    ghost use Rattle.hc_rational.specs.Code.{rational_code};

    ghost Value = { Rational };

    ghost coded = { rational_code };

    ghost use Rattle.hc_frac.specs.Parts.{shown, AreLowest, parts_again};

    ghost view = { shown };

    ghost invariant = { AreLowest };

    ghost inverse = { λ q. record { num = q.num; den = q.den } };

    ghost inverse_ok = { parts_again };
}

impl Frac {
    /// The fraction 0.
    pub fn zero() -> Self
        ensures { result ≡ zero_ℚ }
    {
        Frac { num: 0, den: 1 }
    }

    /// The fraction `n` by `d`. `None` where `d` is 0 or the fraction does not fit.
    pub fn new(n: i64, d: i64) -> Option<Self>
        ensures { SomeIff result ((d ≢ pos 0) × IsFrac (ratio n d)) (ratio n d) }
    {
        if d == 0 {
            return None;
        }
        let (n, d) = (i128::from(n), i128::from(d));
        reduced(n * d.signum(), d.unsigned_abs())
    }

    /// The numerator of the fraction in lowest terms.
    pub fn num(self) -> i64
        ensures value { result ≡ self.num }
        ensures fits { IsFrac self }
    {
        self.num
    }

    /// The denominator of the fraction in lowest terms, at least 1.
    pub fn den(self) -> i64
        ensures { result ≡ pos self.den }
    {
        self.den as i64
    }

    /// The sum, or `None` where it does not fit.
    pub fn add(self, other: Frac) -> Option<Frac>
        ensures { SomeIff result (IsFrac (self +ℚ other)) (self +ℚ other) }
    {
        let (a, b) = self.wide();
        let (c, d) = other.wide();
        reduced(a * d + c * b, (b * d).unsigned_abs())
    }

    /// The difference, or `None` where it does not fit.
    pub fn sub(self, other: Frac) -> Option<Frac>
        ensures { SomeIff result (IsFrac (self -ℚ other)) (self -ℚ other) }
    {
        self.add(other.neg())
    }

    /// The product, or `None` where it does not fit.
    pub fn mul(self, other: Frac) -> Option<Frac>
        ensures { SomeIff result (IsFrac (self *ℚ other)) (self *ℚ other) }
    {
        let (a, b) = self.wide();
        let (c, d) = other.wide();
        reduced(a * c, (b * d).unsigned_abs())
    }

    /// The quotient by a fraction that is not 0, or `None` where it does not fit.
    pub fn div(self, by: Frac) -> Option<Frac>
        requires { by.num ≢ pos 0 }
        ensures { SomeIff result (IsFrac (self /ℚ by)) (self /ℚ by) }
    {
        let (a, b) = self.wide();
        let (c, d) = by.wide();
        reduced(a * c.signum() * d, (b * c).unsigned_abs())
    }

    /// The fraction with the other sign.
    pub fn neg(self) -> Frac
        ensures { result ≡ neg_ℚ self }
    {
        Frac {
            num: -self.num,
            den: self.den,
        }
    }

    /// How the fraction lies to another.
    pub fn compare(self, other: Frac) -> Ordering
        ensures { result ≡ rank self other }
    {
        let (a, b) = self.wide();
        let (c, d) = other.wide();
        (a * d).cmp(&(c * b))
    }

    /// -1 for a negative fraction, 0 for zero and 1 for a positive one.
    pub fn sign(self) -> i32
        ensures { result ≡ int_signum self.num }
    {
        self.num().signum() as i32
    }

    /// Whether the fraction is 0.
    pub fn is_zero(self) -> bool
        ensures { result ≡ is_zero self }
    {
        self.num() == 0
    }

    /// Whether the two are the same fraction.
    pub fn same(self, other: Frac) -> bool
        ensures { IsTrue result ↔ (self ≡ other) }
    {
        self.compare(other).is_eq()
    }

    /// The lesser of the two.
    pub fn lesser(self, other: Frac) -> Frac
        ensures { result ≡ lesser self other }
    {
        match self.compare(other) {
            Ordering::Less | Ordering::Equal => self,
            Ordering::Greater => other,
        }
    }

    /// The greater of the two.
    pub fn greater(self, other: Frac) -> Frac
        ensures { result ≡ greater self other }
    {
        match self.compare(other) {
            Ordering::Less | Ordering::Equal => other,
            Ordering::Greater => self,
        }
    }

    /// The numerator, and `/` and the denominator where that is not 1.
    pub fn text(self) -> ArrayString<48>
        ensures { result.bytes ≡ text_of self }
    {
        let mut buffer = Buffer::new();
        let mut text = ArrayString::new();
        text.push_str(buffer.format(self.num()));
        let den = self.den();
        if den != 1 {
            text.push('/');
            text.push_str(buffer.format(den));
        }
        text
    }

    /// The fraction whose text is exactly `bytes`, or `None` where there is none.
    pub fn read(bytes: &[u8]) -> Option<Self>
        ensures every { (q : Rational) → IsFrac q → text_of q ≡ bytes.now → result ≡ Some q }
        ensures only { IfSome result (λ q. text_of q ≡ bytes.now) }
    {
        let frac = candidate(bytes)?;
        if frac.text().as_str().as_bytes() == bytes {
            Some(frac)
        } else {
            None
        }
    }

    /// The numerator and the denominator, with room for a product.
    fn wide(self) -> (i128, i128)
        ensures { ArePartsOf self result }
    {
        (i128::from(self.num), i128::from(self.den))
    }
}

impl Default for Frac {
    ghost is_default = { λ q. q ≡ zero_ℚ };

    fn default() -> Self {
        Frac::zero()
    }
}

/// The lesser of two moments, of which one or both may be missing.
pub fn earlier(one: Option<Frac>, other: Option<Frac>) -> Option<Frac>
    ensures { result ≡ earlier one other }
{
    match (one, other) {
        (None, moment) | (moment, None) => moment,
        (Some(first), Some(second)) => Some(first.lesser(second)),
    }
}

/// The fraction `n` by `d`, or `None` where it does not fit.
pub(crate) fn reduced(n: i128, d: u128) -> Option<Frac>
    requires { 0 < d }
    ensures { SomeIff result (IsFrac (quotient n d)) (quotient n d) }
{
    let magnitude = n.unsigned_abs();
    let divisor = gcd(magnitude, d);
    let top = magnitude / divisor;
    let bottom = d / divisor;
    if top >= LIMIT || bottom >= LIMIT {
        return None;
    }
    let top = top as i64;
    let num = if n < 0 { -top } else { top };
    let den = bottom as u64;
    Some(Frac { num, den })
}
