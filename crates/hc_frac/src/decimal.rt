//! Decimal numbers.

ghost use Rattle.std.specs.Prelude.{◌≡◌, ◌≤◌, ◌≤ℤ◌, pos, IsSome, IfSome, ◌↔◌, ◌^◌};
ghost use Rattle.hc_rational.specs.Words.{quotient};

use crate::frac::{Frac, reduced};

/// A decimal number as it is written: its digits read as one number, and how many of them stand
/// behind the point.
#[derive(Clone, Copy, Debug, PartialEq, Eq)]
pub struct Decimal {
    digits: i64,
    places: u8,
    ghost not_negative: { pos 0 ≤ℤ digits },
    ghost short: { places ≤ 18 },
}

impl Decimal {
    /// The number of these digits with so many of them behind the point. `None` where `digits` is
    /// negative or `places` is above 18.
    pub fn new(digits: i64, places: u8) -> Option<Self>
        ensures valid { IsSome result ↔ ((pos 0 ≤ℤ digits) × (places ≤ 18)) }
        ensures parts { IfSome result (λ d. (d.digits ≡ digits) × (d.places ≡ places)) }
    {
        if digits < 0 || places > 18 {
            return None;
        }
        Some(Decimal { digits, places })
    }

    /// The digits, read as one number.
    pub fn digits(self) -> i64
        ensures { result ≡ self.digits }
    {
        self.digits
    }

    /// How many digits stand behind the point, at most 18.
    pub fn places(self) -> u8
        ensures { result ≡ self.places }
    {
        self.places
    }

    /// The fraction that is written: the digits by ten to the places.
    pub fn value(self) -> Frac
        ensures { result ≡ quotient self.digits (10 ^ self.places) }
    {
        let Some(value) = reduced(i128::from(self.digits), 10u128.pow(u32::from(self.places)))
        else {
            unreachable!()
        };
        value
    }
}
