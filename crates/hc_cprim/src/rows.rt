//! Rows and registers.

ghost use Rattle.std.specs.Prelude.{◌≡◌, ◌≢◌, pos, slice_index_or, SomeIff};
ghost use Rattle.hc_rational.specs.Words.{Rational, zero_ℚ};
ghost use Rattle.hc_cmach.specs.Expression as number;
ghost use Rattle.hc_cmach.specs.State.{width};
ghost use Rattle.hc_cmach.specs.Primitive as spec;
ghost use Rattle.hc_cprim.specs.Deeds.{Around, spot, reached, deed_turn, line_of, fitting, exact, kind_beyond, lowest, IsSmall};
ghost use Rattle.hc_cmach.specs.Line as told;
ghost use Rattle.hc_cprim.specs.declared.arithmetic.Two.TheVariants as two;
ghost use Rattle.hc_cprim.specs.declared.deed.Seat.{Seat};

use crate::arithmetic::{Primitives, Two};
use crate::deed::{Deed, Line, Seat, Way};
use hc_cmach::Kind;
use hc_frac::Frac;

/// Whether a number is one of those from 0 on below another.
pub(crate) fn is_index(z: i64, below: usize) -> bool
    ensures { result ≡ number.is_index z below }
{
    0 <= z && (z as usize) < below
}

/// Whether this is a row.
pub(crate) fn is_row(z: i64) -> bool
    ensures { result ≡ number.is_index z 65 }
{
    is_index(z, 65)
}

/// Whether this is a register.
pub(crate) fn is_register(z: i64) -> bool
    ensures { result ≡ number.is_index z width }
{
    is_index(z, 20480)
}

/// A row, as the thread reaches it.
pub(crate) fn way(seat: &Seat<'_>, row: usize) -> Way
    ensures { (q : Around) → spec.reach (spot seat.now q) row ≡ reached seat.now q result }
{
    if row == 64 {
        if seat.owns {
            Way::Common
        } else {
            Way::Beyond(Kind::Unlocked)
        }
    } else if row == seat.thread {
        Way::Its
    } else {
        Way::Beyond(Kind::Foreign)
    }
}

fn register_at(row: &[Frac], register: usize) -> Frac
    ensures { result ≡ slice_index_or row.now register zero_ℚ }
{
    match row.get(register) {
        Some(value) => *value,
        None => Frac::zero(),
    }
}

/// A register of a row, and 0 where the row isn't reached.
pub(crate) fn register(seat: &Seat<'_>, row: Way, register: usize) -> Frac
    ensures { (q : Around) → spec.register_in (reached seat.now q row) register ≡ result }
{
    match row {
        Way::Its => register_at(seat.row, register),
        Way::Common => register_at(seat.common, register),
        Way::Beyond(_) => Frac::zero(),
    }
}

/// A register becomes a value, with a result.
pub(crate) fn puts(row: Way, register: usize, value: Frac, gives: i64) -> Deed
    ensures { (s : Seat) (q : Around) → spec.puts (spot s q) q.target (reached s q row) register value gives ≡ deed_turn s q result }
{
    match row {
        Way::Beyond(kind) => Deed::Fails(kind),
        _ => Deed::Puts {
            row,
            register,
            value,
            gives,
        },
    }
}

/// A register becomes a value with result 1, where there is a value; else the result is 0.
pub(crate) fn computed(row: Way, register: usize, value: Option<Frac>) -> Deed
    ensures { (s : Seat) (q : Around) (v : Rational) → value ≡ fitting v → spec.computed (spot s q) q.target (reached s q row) register v ≡ deed_turn s q result }
{
    match (row, value) {
        (Way::Beyond(kind), _) => Deed::Fails(kind),
        (_, Some(value)) => puts(row, register, value, 1),
        (_, None) => Deed::Gives(0),
    }
}

/// A result that looks at a row.
pub(crate) fn answered(row: Way, value: i64) -> Deed
    ensures { (s : Seat) (q : Around) → spec.answered (spot s q) q.target (reached s q row) value ≡ deed_turn s q result }
{
    match row {
        Way::Beyond(kind) => Deed::Fails(kind),
        _ => Deed::Gives(value),
    }
}

/// A line with what a row holds.
pub(crate) fn printed(seat: &Seat<'_>, row: Way, line: Line) -> Deed
    ensures { (q : Around) → spec.printed (spot seat.now q) q.target (reached seat.now q row) (spot seat.now q).seen (line_of line) ≡ deed_turn seat.now q result }
{
    if !seat.owns {
        return Deed::Fails(Kind::Unlocked);
    }
    match row {
        Way::Beyond(kind) => Deed::Fails(kind),
        _ => Deed::Prints(line),
    }
}

/// A register of one row becomes one of another. Of two rows that aren't reached, one without the mutex counts first.
pub(crate) fn moved(seat: &Seat<'_>, to: Way, d: usize, from: Way, a: usize) -> Deed
    ensures { (q : Around) → spec.moved (spot seat.now q) q.target (reached seat.now q to) d (reached seat.now q from) a ≡ deed_turn seat.now q result }
{
    match (to, from) {
        (Way::Beyond(Kind::Unlocked), _) => Deed::Fails(Kind::Unlocked),
        (_, Way::Beyond(kind)) => Deed::Fails(kind),
        _ => puts(to, d, register(seat, from, a), 0),
    }
}

/// A register becomes the exact result of an operation on two, where it fits. A division is `divided`.
pub(crate) fn operated<R: Primitives>(
    by: &mut R,
    seat: &Seat<'_>,
    op: Two,
    r: usize,
    d: usize,
    a: usize,
    b: usize,
) -> Deed
    requires { op ≢ two.Div }
    ensures { (q : Around) → spec.computed (spot seat.now q) q.target (spec.reach (spot seat.now q) r) d (exact op (spec.register_in (spec.reach (spot seat.now q) r) a) (spec.register_in (spec.reach (spot seat.now q) r) b)) ≡ deed_turn seat.now q result }
{
    let row = way(seat, r);
    let value = by.two(op, register(seat, row, a), register(seat, row, b));
    computed(row, d, value)
}

/// Why a row isn't reached, if it isn't.
fn beyond(row: Way) -> Option<Kind>
    ensures { result ≡ kind_beyond row }
{
    match row {
        Way::Beyond(kind) => Some(kind),
        _ => None,
    }
}

/// A division. Where its row isn't reached, its kind is known from the whole state alone.
pub(crate) fn divided<R: Primitives>(
    by: &mut R,
    seat: &Seat<'_>,
    r: usize,
    d: usize,
    a: usize,
    b: usize,
) -> Deed
    ensures { (q : Around) → spec.divided (spot seat.now q) q.target (spec.reach (spot seat.now q) r) r d a b ≡ deed_turn seat.now q result }
{
    let row = way(seat, r);
    if let Some(kind) = beyond(row) {
        return Deed::Divides {
            row: r,
            register: b,
            kind,
        };
    }
    let divisor = register(seat, row, b);
    if divisor.is_zero() {
        return Deed::Fails(Kind::ZeroDivisor);
    }
    let value = by.two(Two::Div, register(seat, row, a), divisor);
    computed(row, d, value)
}

/// The line of a communication between processes that there are.
pub(crate) fn meets(
    seat: &Seat<'_>,
    r: usize,
    a: usize,
    channel: usize,
    sender: usize,
    receiver: usize,
    b: usize,
) -> Deed
    ensures { (q : Around) → spec.printed (spot seat.now q) q.target (spec.reach (spot seat.now q) r) (spot seat.now q).seen (told.Meets (spec.register_in (spec.reach (spot seat.now q) r) a) channel sender receiver (spec.register_in (spec.reach (spot seat.now q) r) b)) ≡ deed_turn seat.now q result }
{
    let row = way(seat, r);
    let clock = register(seat, row, a);
    let value = register(seat, row, b);
    printed(
        seat,
        row,
        Line::Meets {
            clock,
            channel,
            sender,
            receiver,
            value,
        },
    )
}

/// The fraction if it is written as n by m.
fn as_written(value: Frac, n: i64, m: i64) -> Option<Frac>
    ensures { SomeIff result ((value.num ≡ n) × (pos value.den ≡ m)) value }
{
    if value.num() == n && value.den() == m {
        Some(value)
    } else {
        None
    }
}

/// The fraction n by m, where it is written in lowest terms.
fn in_lowest_terms(n: i64, m: i64) -> Option<Frac>
    ensures { IsSmall n m → result ≡ lowest n m }
{
    if m <= 0 {
        return None;
    }
    match Frac::new(n, m) {
        Some(value) => as_written(value, n, m),
        None => None,
    }
}

/// A register becomes a fraction that is written in lowest terms.
pub(crate) fn sets(seat: &Seat<'_>, r: usize, d: usize, n: i64, m: i64) -> Deed
    ensures { (q : Around) → IsSmall n m → spec.sets (spot seat.now q) q.target r d n m ≡ deed_turn seat.now q result }
{
    match in_lowest_terms(n, m) {
        Some(value) => puts(way(seat, r), d, value, 0),
        None => Deed::Fails(Kind::Literal),
    }
}
