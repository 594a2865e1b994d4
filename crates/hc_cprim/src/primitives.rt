//! Primitives, with the values of their arguments.

ghost use Rattle.std.specs.Prelude.{◌≡◌, ◌∷◌, [], ◌&&◌, ◌<◌, length};
ghost use Rattle.hc_cast.specs.Primitives.{count};
ghost use Rattle.hc_cast.specs.declared.primitive.Primitive.TheVariants as named;
ghost use Rattle.hc_cmach.specs.Expression as number;
ghost use Rattle.hc_cmach.specs.Primitive as spec;
ghost use Rattle.hc_cprim.specs.Deeds.{IsDeedOf};

use crate::arithmetic::{Primitives, Two};
use crate::deed::{Deed, Line, Seat};
use crate::rows::{
    answered, divided, is_index, is_register, is_row, meets, moved, operated, printed, puts,
    register, sets, way,
};
use hc_cast::Primitive;
use hc_cmach::Kind;

/// The sum of two registers of a row.
fn fr_add<R: Primitives>(by: &mut R, seat: &Seat<'_>, r: i64, d: i64, a: i64, b: i64) -> Deed
    ensures { IsDeedOf seat.now named.FrAdd (r ∷ d ∷ a ∷ b ∷ []) result }
{
    if !is_row(r) || !is_register(d) || !is_register(a) || !is_register(b) {
        return Deed::Fails(Kind::Index);
    }
    operated(
        by,
        seat,
        Two::Add,
        r as usize,
        d as usize,
        a as usize,
        b as usize,
    )
}

/// The difference.
fn fr_sub<R: Primitives>(by: &mut R, seat: &Seat<'_>, r: i64, d: i64, a: i64, b: i64) -> Deed
    ensures { IsDeedOf seat.now named.FrSub (r ∷ d ∷ a ∷ b ∷ []) result }
{
    if !is_row(r) || !is_register(d) || !is_register(a) || !is_register(b) {
        return Deed::Fails(Kind::Index);
    }
    operated(
        by,
        seat,
        Two::Sub,
        r as usize,
        d as usize,
        a as usize,
        b as usize,
    )
}

/// The product.
fn fr_mul<R: Primitives>(by: &mut R, seat: &Seat<'_>, r: i64, d: i64, a: i64, b: i64) -> Deed
    ensures { IsDeedOf seat.now named.FrMul (r ∷ d ∷ a ∷ b ∷ []) result }
{
    if !is_row(r) || !is_register(d) || !is_register(a) || !is_register(b) {
        return Deed::Fails(Kind::Index);
    }
    operated(
        by,
        seat,
        Two::Mul,
        r as usize,
        d as usize,
        a as usize,
        b as usize,
    )
}

/// The quotient.
fn fr_div<R: Primitives>(by: &mut R, seat: &Seat<'_>, r: i64, d: i64, a: i64, b: i64) -> Deed
    ensures { IsDeedOf seat.now named.FrDiv (r ∷ d ∷ a ∷ b ∷ []) result }
{
    if !is_row(r) || !is_register(d) || !is_register(a) || !is_register(b) {
        return Deed::Fails(Kind::Index);
    }
    divided(by, seat, r as usize, d as usize, a as usize, b as usize)
}

/// A register of one row becomes one of another.
fn fr_move(seat: &Seat<'_>, q: i64, d: i64, r: i64, a: i64) -> Deed
    ensures { IsDeedOf seat.now named.FrMove (q ∷ d ∷ r ∷ a ∷ []) result }
{
    if !is_row(q) || !is_register(d) || !is_row(r) || !is_register(a) {
        return Deed::Fails(Kind::Index);
    }
    let to = way(seat, q as usize);
    let from = way(seat, r as usize);
    moved(seat, to, d as usize, from, a as usize)
}

/// A register becomes minus another.
fn fr_neg<R: Primitives>(by: &mut R, seat: &Seat<'_>, r: i64, d: i64, a: i64) -> Deed
    ensures { IsDeedOf seat.now named.FrNeg (r ∷ d ∷ a ∷ []) result }
{
    if !is_row(r) || !is_register(d) || !is_register(a) {
        return Deed::Fails(Kind::Index);
    }
    let row = way(seat, r as usize);
    let value = by.neg(register(seat, row, a as usize));
    puts(row, d as usize, value, 0)
}

/// How two registers of a row lie.
fn fr_cmp<R: Primitives>(by: &mut R, seat: &Seat<'_>, r: i64, a: i64, b: i64) -> Deed
    ensures { IsDeedOf seat.now named.FrCmp (r ∷ a ∷ b ∷ []) result }
{
    if !is_row(r) || !is_register(a) || !is_register(b) {
        return Deed::Fails(Kind::Index);
    }
    let row = way(seat, r as usize);
    let rank = by.compare(
        register(seat, row, a as usize),
        register(seat, row, b as usize),
    );
    answered(row, i64::from(rank))
}

/// The sign of a register.
fn fr_sign<R: Primitives>(by: &mut R, seat: &Seat<'_>, r: i64, a: i64) -> Deed
    ensures { IsDeedOf seat.now named.FrSign (r ∷ a ∷ []) result }
{
    if !is_row(r) || !is_register(a) {
        return Deed::Fails(Kind::Index);
    }
    let row = way(seat, r as usize);
    let sign = by.sign(register(seat, row, a as usize));
    answered(row, i64::from(sign))
}

/// The line of a delay.
fn out_delay(seat: &Seat<'_>, r: i64, a: i64, b: i64) -> Deed
    ensures { IsDeedOf seat.now named.OutDelay (r ∷ a ∷ b ∷ []) result }
{
    if !is_row(r) || !is_register(a) || !is_register(b) {
        return Deed::Fails(Kind::Index);
    }
    let row = way(seat, r as usize);
    let clock = register(seat, row, a as usize);
    let by = register(seat, row, b as usize);
    printed(seat, row, Line::Delays { clock, by })
}

/// Whether these are a row and two registers.
fn are_places(r: i64, a: i64, b: i64) -> bool
    ensures { result ≡ spec.are_places r (a ∷ b ∷ []) }
{
    is_row(r) && is_register(a) && is_register(b)
}

/// Whether these are a row, two registers, a channel and two processes.
fn are_of_comm(seat: &Seat<'_>, r: i64, a: i64, c: i64, from: i64, to: i64, b: i64) -> bool
    ensures { result ≡ (spec.are_places r (a ∷ b ∷ []) && number.is_index c seat.now.channels && number.is_index from seat.now.processes && number.is_index to seat.now.processes) }
{
    let places = are_places(r, a, b);
    let channel = is_index(c, seat.channels);
    let sender = is_index(from, seat.processes);
    let receiver = is_index(to, seat.processes);
    places & channel & sender & receiver
}

/// The line of a communication.
fn out_comm(seat: &Seat<'_>, r: i64, a: i64, c: i64, from: i64, to: i64, b: i64) -> Deed
    ensures { IsDeedOf seat.now named.OutComm (r ∷ a ∷ c ∷ from ∷ to ∷ b ∷ []) result }
{
    if !are_of_comm(seat, r, a, c, from, to, b) {
        return Deed::Fails(Kind::Index);
    }
    meets(
        seat,
        r.unsigned_abs() as usize,
        a.unsigned_abs() as usize,
        c.unsigned_abs() as usize,
        from.unsigned_abs() as usize,
        to.unsigned_abs() as usize,
        b.unsigned_abs() as usize,
    )
}

/// The line of a logged value.
fn out_log(seat: &Seat<'_>, r: i64, a: i64, p: i64, b: i64) -> Deed
    ensures { IsDeedOf seat.now named.OutLog (r ∷ a ∷ p ∷ b ∷ []) result }
{
    if !is_row(r) || !is_register(a) || !is_register(b) || !is_index(p, seat.processes) {
        return Deed::Fails(Kind::Index);
    }
    let row = way(seat, r as usize);
    let clock = register(seat, row, a as usize);
    let value = register(seat, row, b as usize);
    printed(
        seat,
        row,
        Line::Logs {
            clock,
            process: p as usize,
            value,
        },
    )
}

/// Whether this is a process, or -1 for none.
fn is_who(w: i64, processes: usize) -> bool
    ensures { result ≡ spec.is_who w processes }
{
    w == -1 || is_index(w, processes)
}

fn who_of(w: i64) -> Option<usize>
    ensures { result ≡ spec.who_of w }
{
    if w >= 0 { Some(w as usize) } else { None }
}

/// The end line.
fn out_end(seat: &Seat<'_>, k: i64, r: i64, a: i64, w: i64) -> Deed
    ensures { IsDeedOf seat.now named.OutEnd (k ∷ r ∷ a ∷ w ∷ []) result }
{
    if !is_index(k, 5) || !is_row(r) || !is_register(a) || !is_who(w, seat.processes) {
        return Deed::Fails(Kind::Index);
    }
    let row = way(seat, r as usize);
    let clock = register(seat, row, a as usize);
    printed(
        seat,
        row,
        Line::Ends {
            kind: k as u32,
            clock,
            who: who_of(w),
        },
    )
}

/// Waiting on a condition.
fn c_wait(seat: &Seat<'_>, k: i64) -> Deed
    ensures { IsDeedOf seat.now named.CWait (k ∷ []) result }
{
    if is_index(k, 64) {
        Deed::Waits(k as u32)
    } else {
        Deed::Fails(Kind::Index)
    }
}

/// Waking all that wait on a condition.
fn c_wake(seat: &Seat<'_>, k: i64) -> Deed
    ensures { IsDeedOf seat.now named.CWake (k ∷ []) result }
{
    if is_index(k, 64) {
        Deed::Wakes(k as u32)
    } else {
        Deed::Fails(Kind::Index)
    }
}

/// What `fr_set` comes to: a register becomes a fraction that is written in lowest terms.
pub fn literal(seat: &Seat<'_>, r: i64, d: i64, n: i64, m: i64) -> Deed
    ensures { IsDeedOf seat.now named.FrSet (r ∷ d ∷ n ∷ m ∷ []) result }
{
    if !is_row(r) || !is_register(d) {
        return Deed::Fails(Kind::Index);
    }
    sets(seat, r as usize, d as usize, n, m)
}

/// Two values.
fn two(values: &[i64]) -> (i64, i64)
    requires { length values.now ≡ 2 }
    ensures { values.now ≡ result.0 ∷ result.1 ∷ [] }
{
    match values {
        [a, b] => (*a, *b),
        _ => unreachable!(),
    }
}

/// Three values.
fn three(values: &[i64]) -> (i64, i64, i64)
    requires { length values.now ≡ 3 }
    ensures { values.now ≡ result.0 ∷ result.1 ∷ result.2 ∷ [] }
{
    match values {
        [a, b, c] => (*a, *b, *c),
        _ => unreachable!(),
    }
}

/// Four values.
fn four(values: &[i64]) -> (i64, i64, i64, i64)
    requires { length values.now ≡ 4 }
    ensures { values.now ≡ result.0 ∷ result.1 ∷ result.2 ∷ result.3 ∷ [] }
{
    match values {
        [a, b, c, d] => (*a, *b, *c, *d),
        _ => unreachable!(),
    }
}

/// The first value, and the others.
fn first(values: &[i64]) -> (i64, &[i64])
    requires { 0 < length values.now }
    ensures { values.now ≡ result.0 ∷ result.1.now }
{
    match values {
        [a, rest @ ..] => (*a, rest),
        _ => unreachable!(),
    }
}

/// Six values.
fn six(values: &[i64]) -> (i64, i64, i64, i64, i64, i64)
    requires { length values.now ≡ 6 }
    ensures { values.now ≡ result.0 ∷ result.1 ∷ result.2 ∷ result.3 ∷ result.4 ∷ result.5 ∷ [] }
{
    let (a, rest) = first(values);
    let (b, rest) = first(rest);
    let (c, d, e, f) = four(rest);
    (a, b, c, d, e, f)
}

/// The one value.
fn one(values: &[i64]) -> i64
    requires { length values.now ≡ 1 }
    ensures { values.now ≡ result ∷ [] }
{
    match values {
        [a] => *a,
        _ => unreachable!(),
    }
}

/// A primitive with three arguments.
fn of_three<R: Primitives>(
    by: &mut R,
    seat: &Seat<'_>,
    primitive: Primitive,
    r: i64,
    a: i64,
    b: i64,
) -> Deed
    requires { count primitive ≡ 3 }
    ensures { IsDeedOf seat.now primitive (r ∷ a ∷ b ∷ []) result }
{
    match primitive {
        Primitive::FrNeg => fr_neg(by, seat, r, a, b),
        Primitive::FrCmp => fr_cmp(by, seat, r, a, b),
        Primitive::OutDelay => out_delay(seat, r, a, b),
        _ => unreachable!(),
    }
}

/// A primitive with four arguments.
fn of_four<R: Primitives>(
    by: &mut R,
    seat: &Seat<'_>,
    primitive: Primitive,
    r: i64,
    d: i64,
    a: i64,
    b: i64,
) -> Deed
    requires { count primitive ≡ 4 }
    ensures { IsDeedOf seat.now primitive (r ∷ d ∷ a ∷ b ∷ []) result }
{
    match primitive {
        Primitive::FrSet => literal(seat, r, d, a, b),
        Primitive::FrMove => fr_move(seat, r, d, a, b),
        Primitive::FrAdd => fr_add(by, seat, r, d, a, b),
        Primitive::FrSub => fr_sub(by, seat, r, d, a, b),
        Primitive::FrMul => fr_mul(by, seat, r, d, a, b),
        Primitive::FrDiv => fr_div(by, seat, r, d, a, b),
        Primitive::OutLog => out_log(seat, r, d, a, b),
        Primitive::OutEnd => out_end(seat, r, d, a, b),
        _ => unreachable!(),
    }
}

/// What a primitive with as many arguments as it has comes to.
fn called<R: Primitives>(
    by: &mut R,
    seat: &Seat<'_>,
    primitive: Primitive,
    arguments: &[i64],
) -> Deed
    requires { count primitive ≡ length arguments.now }
    ensures { IsDeedOf seat.now primitive arguments.now result }
{
    match primitive {
        Primitive::MLock => Deed::Locks,
        Primitive::MUnlock => Deed::Unlocks,
        Primitive::CWait => c_wait(seat, one(arguments)),
        Primitive::CWake => c_wake(seat, one(arguments)),
        Primitive::FrSign => {
            let (r, a) = two(arguments);
            fr_sign(by, seat, r, a)
        }
        Primitive::OutComm => {
            let (r, a, c, from, to, b) = six(arguments);
            out_comm(seat, r, a, c, from, to, b)
        }
        Primitive::FrNeg | Primitive::FrCmp | Primitive::OutDelay => {
            let (r, a, b) = three(arguments);
            of_three(by, seat, primitive, r, a, b)
        }
        _ => {
            let (r, d, a, b) = four(arguments);
            of_four(by, seat, primitive, r, d, a, b)
        }
    }
}

/// What a primitive comes to, with the values of its arguments. With any other number of them it fails.
pub fn primitive<R: Primitives>(
    by: &mut R,
    seat: &Seat<'_>,
    primitive: Primitive,
    arguments: &[i64],
) -> Deed
    ensures { IsDeedOf seat.now primitive arguments.now result }
{
    if arguments.len() != primitive.count() as usize {
        return Deed::Fails(Kind::Index);
    }
    called(by, seat, primitive, arguments)
}
