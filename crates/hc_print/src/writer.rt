//! The text that is being printed.

ghost use Rattle.std.specs.Prelude.{◌≡◌, OnOk, OnErr, ℕ, ◌^◌, ◌≤◌, ◌∷◌, ◌++◌, List, pos, ◌≤ℤ◌};
ghost use Rattle.hc_print.specs.Lexemes.{fixed, named, rated, numbered, only_if};
ghost use Rattle.hc_print.specs.Numerals as numerals;
ghost use Rattle.hc_print.specs.Appends.{Appends, Writes};

use crate::sign::blank;
use hc_frac::{Decimal, Name};
use hc_token::Fixed;
use itoa::Buffer;
use std::alloc::{AllocError, Global};

/// A text that grows by one token after the other, each with the blank behind it.
#[derive(Drop)]
pub(crate) struct Writer {
    pub(crate) bytes: Vec<u8>,
}

impl Writer {
    /// A keyword or a sign.
    #[tactic(auto, unfolding(crate::specs::Written::written))]
    pub(crate) fn sign(&mut self, sign: Fixed) -> Result<(), AllocError>
        ensures { OnOk result (Writes self.old self.new (λ w. fixed sign ∷ w)) }
    {
        self.text(sign.text())?;
        self.byte(blank(sign))
    }

    /// A keyword or a sign where it is needed.
    pub(crate) fn sign_if(&mut self, is_needed: bool, sign: Fixed) -> Result<(), AllocError>
        ensures { OnOk result (Writes self.old self.new (only_if is_needed sign)) }
    {
        if is_needed {
            self.sign(sign)?;
        }
        Ok(())
    }

    /// A name.
    #[tactic(auto, unfolding(crate::specs::Written::written))]
    pub(crate) fn name(&mut self, name: &Name) -> Result<(), AllocError>
        ensures { OnOk result (Writes self.old self.new (λ w. named name.now ∷ w)) }
    {
        self.text(name.text().as_bytes())?;
        self.byte(b' ')
    }

    /// The rate of a variable.
    #[tactic(auto, unfolding(crate::specs::Written::written))]
    pub(crate) fn rate(&mut self, variable: &Name) -> Result<(), AllocError>
        ensures { OnOk result (Writes self.old self.new (λ w. rated variable.now ∷ w)) }
    {
        self.text(variable.text().as_bytes())?;
        self.text(b"_dot ")
    }

    /// A number, with its digits as one number and so many of them behind the point.
    #[tactic(auto, unfolding(crate::specs::Written::written))]
    pub(crate) fn number(&mut self, number: Decimal) -> Result<(), AllocError>
        ensures { OnOk result (Writes self.old self.new (λ w. numbered number.digits number.places ∷ w)) }
    {
        let digits = number.digits().unsigned_abs();
        let places = u32::from(number.places());
        let mut buffer = Buffer::new();
        self.text(buffer.format(digits / 10u64.pow(places)).as_bytes())?;
        self.behind_point(digits, places)?;
        self.byte(b' ')
    }

    /// A point and the last `places` digits of `digits`, or nothing where there are none.
    fn behind_point(&mut self, digits: u64, places: u32) -> Result<(), AllocError>
        requires { places ≤ 18 }
        ensures { OnOk result (Appends self.old self.new (numerals.behind_point places digits)) }
    {
        if places == 0 {
            return Ok(());
        }
        self.byte(b'.')?;
        self.last_digits(digits, places)
    }

    /// The last `count` digits of `digits`.
    fn last_digits(&mut self, digits: u64, count: u32) -> Result<(), AllocError>
        requires { count ≤ 18 }
        ensures { OnOk result (Appends self.old self.new (numerals.last_digits count digits)) }
    {
        let mut left = count;
        while left > 0 {
            left -= 1;
            self.byte(b'0' + (digits / 10u64.pow(left) % 10) as u8)?;
        }
        Ok(())
    }

    fn text(&mut self, text: &[u8]) -> Result<(), AllocError>
        ensures { OnOk result (Appends self.old self.new (λ z. text.now ++ z)) }
    {
        self.bytes.extend_from_slice(text)?;
        Ok(())
    }

    fn byte(&mut self, byte: u8) -> Result<(), AllocError>
        ensures { OnOk result (Appends self.old self.new (λ z. byte ∷ z)) }
    {
        self.bytes.push(byte)?;
        Ok(())
    }
}
