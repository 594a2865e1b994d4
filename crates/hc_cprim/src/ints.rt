//! Ints of 32 bits, and signs between them.

ghost use Rattle.std.specs.Prelude.{◌≡◌, ◌*ℤ◌};
ghost use Rattle.hc_cmach.specs.Expression as spec;
ghost use Rattle.hc_cprim.specs.Worth as worth;

use hc_cast::COp;
use hc_cmach::Kind;

/// An int result, where it is in range.
pub(crate) fn int_result(z: i128) -> Result<i64, Kind>
    ensures { result ≡ spec.int_result z }
{
    if z < -0x8000_0000 || z > 0x7fff_ffff {
        Err(Kind::IntOverflow)
    } else {
        Ok(z as i64)
    }
}

/// 1 for true and 0 for false.
pub(crate) fn int_of(holds: bool) -> i64
    ensures { result ≡ spec.int_of holds }
{
    if holds { 1 } else { 0 }
}

/// Whether a number is true: each but 0 is.
pub(crate) fn is_true(z: i64) -> bool
    ensures { result ≡ spec.is_true z }
{
    z != 0
}

/// The product of two numbers, where it is in range.
fn product(a: i64, b: i64) -> Result<i64, Kind>
    ensures { result ≡ spec.int_result (a *ℤ b) }
{
    let product = i128::from(a) * i128::from(b);
    int_result(product)
}

/// What a sign gives of two numbers.
pub(crate) fn applied(op: COp, a: i64, b: i64) -> Result<i64, Kind>
    ensures { result ≡ spec.applied_op op a b }
{
    match op {
        COp::Add => int_result(i128::from(a) + i128::from(b)),
        COp::Sub => int_result(i128::from(a) - i128::from(b)),
        COp::Mul => product(a, b),
        COp::Less => Ok(int_of(a < b)),
        COp::AtMost => Ok(int_of(a <= b)),
        COp::Equal => Ok(int_of(a == b)),
        COp::NotEqual => Ok(int_of(a != b)),
        COp::AtLeast => Ok(int_of(a >= b)),
        COp::Greater => Ok(int_of(a > b)),
        COp::And => Ok(int_of(a != 0 && b != 0)),
        COp::Or => Ok(int_of(a != 0 || b != 0)),
    }
}

/// What `&&` and `||` are worth by their first side alone.
pub(crate) fn decided(op: COp, first: i64) -> Option<i64>
    ensures { result ≡ worth.decided op first }
{
    match op {
        COp::And if first == 0 => Some(0),
        COp::Or if first != 0 => Some(1),
        _ => None,
    }
}
