//! The arithmetic of registers, which a machine may be given.

ghost use Rattle.std.specs.Prelude.{◌≡◌, false};
ghost use Rattle.std.specs.Int.{int_signum};
ghost use Rattle.hc_rational.specs.Words.{neg_ℚ, rank, is_zero};
ghost use Rattle.hc_cmach.specs.Primitive.{rank_number};
ghost use Rattle.hc_cprim.specs.declared.arithmetic.Two.{Two};
ghost use Rattle.hc_cprim.specs.declared.arithmetic.Two.TheVariants as two;
ghost use Rattle.hc_cprim.specs.Deeds.{fitting, exact};

use hc_frac::Frac;
use std::cmp::Ordering;

/// An operation on two fractions.
#[derive(Clone, Copy, Debug, PartialEq, Eq)]
pub enum Two {
    Add,
    Sub,
    Mul,
    Div,
}

/// Exact arithmetic on fractions. No method takes memory.
pub trait Primitives {
    /// The exact result, and `None` exactly where it doesn't fit. Nothing is divided by 0.
    fn two(&mut self, op: Two, a: Frac, b: Frac) -> Option<Frac>
        requires { op ≡ two.Div → is_zero b ≡ false }
        ensures { result ≡ fitting (exact op a b) };

    /// Minus a.
    fn neg(&mut self, a: Frac) -> Frac
        ensures { result ≡ neg_ℚ a };

    /// -1, 0 or 1, as a is below, equal to or above b.
    fn compare(&mut self, a: Frac, b: Frac) -> i32
        ensures { result ≡ rank_number (rank a b) };

    /// -1, 0 or 1, as a is below, equal to or above 0.
    fn sign(&mut self, a: Frac) -> i32
        ensures { result ≡ int_signum a.num };
}

/// The arithmetic of fractions as they are.
#[derive(Clone, Copy, Debug)]
pub struct Plain;

/// -1, 0 and 1 for less, equal and greater.
fn number_of(rank: Ordering) -> i32
    ensures { result ≡ rank_number rank }
{
    match rank {
        Ordering::Less => -1,
        Ordering::Equal => 0,
        Ordering::Greater => 1,
    }
}

impl Primitives for Plain {
    fn two(&mut self, op: Two, a: Frac, b: Frac) -> Option<Frac> {
        match op {
            Two::Add => a.add(b),
            Two::Sub => a.sub(b),
            Two::Mul => a.mul(b),
            Two::Div => a.div(b),
        }
    }

    fn neg(&mut self, a: Frac) -> Frac {
        a.neg()
    }

    fn compare(&mut self, a: Frac, b: Frac) -> i32 {
        number_of(a.compare(b))
    }

    fn sign(&mut self, a: Frac) -> i32 {
        a.sign()
    }
}
