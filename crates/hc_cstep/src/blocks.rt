//! Blocks around the values, lines and end moments: what is done with them, and what goes on only as long as all fits.

ghost use Rattle.std.specs.Prelude.{◌≡◌, ◌<◌, ◌+◌, ◌^◌, ◌++◌, ◌∷◌, [], IfOk, OnOk};
ghost use Rattle.hc_cstep.specs.Stands.{first_scratch, rate_of, slope_of, value_of};
ghost use Rattle.hc_cstep.specs.Words as words;
ghost use Rattle.hc_cstep.specs.Dropping as dropping;
ghost use Rattle.hc_cstep.specs.Waiting as waiting;
ghost use Rattle.hc_cstep.specs.Evolving as evolving;
ghost use Rattle.hc_cstep.specs.Written as spec;
ghost use Rattle.hc_cstep.specs.Locals as locals;
ghost use Rattle.hc_cbuild.specs.Written as written;
ghost use Rattle.hc_cast.specs.declared.primitive.Primitive.TheVariants as primitive;

use crate::acts::leaves;
use crate::commit::commit;
use crate::numbers::{BOUND, CLOCK, ENDS_WAITING, RATES, SCRATCH, SLOPES, VALUES};
use hc_cast::{CExpr, COp, CStmt, Primitive};
use hc_cbuild::{
    binary, both, if_else, if_then, local, local_is, move_register, number, numbers, prim, set,
    set_number, single, take_prim,
};
use hc_code::Instr;
use hc_list::List;
use std::alloc::{AllocError, Global};

/// A block that is done as long as all fits.
pub fn push_guarded(
    alloc: Global,
    code: &mut List<CStmt>,
    block: List<CStmt>,
) -> Result<(), AllocError>
    ensures { OnOk result (code.new ≡ code.old ++ words.guarded block ∷ []) }
{
    let test = local_is(alloc, b"v_ok", 1)?;
    code.push(if_then(test, block))
}

/// `fr_set(p, x, 0, 1);`
pub fn clear(alloc: Global, p: u32, x: u32) -> Result<CStmt, AllocError>
    ensures { IfOk result (λ s. s ≡ words.clear p x) }
{
    let arguments = numbers(alloc, &[p, x, 0, 1])?;
    Ok(prim(Primitive::FrSet, arguments))
}

/// Behind a value that branch `g` sends where nothing moves.
pub fn push_sent_value(
    alloc: Global,
    block: &mut List<CStmt>,
    p: u32,
    g: u32,
) -> Result<(), AllocError>
    requires { g < 64 }
    ensures { OnOk result (block.new ≡ block.old ++ words.move p (value_of g) first_scratch ∷ words.clear p (slope_of g) ∷ []) }
{
    block.push(move_register(alloc, p, VALUES + g, SCRATCH)?)?;
    block.push(clear(alloc, p, SLOPES + g)?)
}

/// Behind a value and its slope that branch `g` sends.
pub fn push_sent_line(
    alloc: Global,
    block: &mut List<CStmt>,
    p: u32,
    g: u32,
) -> Result<(), AllocError>
    requires { g < 64 }
    ensures { OnOk result (block.new ≡ block.old ++ words.move p (value_of g) first_scratch ∷ words.move p (slope_of g) (first_scratch + 1) ∷ []) }
{
    block.push(move_register(alloc, p, VALUES + g, SCRATCH)?)?;
    block.push(move_register(alloc, p, SLOPES + g, SCRATCH + 1)?)
}

/// Behind the rate of variable `x`.
pub fn push_rate(alloc: Global, block: &mut List<CStmt>, p: u32, x: u32) -> Result<(), AllocError>
    requires { x < 64 }
    ensures { OnOk result (block.new ≡ block.old ++ words.move p (rate_of x) first_scratch ∷ []) }
{
    block.push(move_register(alloc, p, RATES + x, SCRATCH)?)
}

/// `v_truth = fr_cmp(p, 321, 320);`
fn compares(alloc: Global, p: u32) -> Result<CStmt, AllocError>
    ensures { IfOk result (λ s. s ≡ written.take_prim locals.v_truth primitive.FrCmp (written.numbers (p ∷ 321 ∷ 320 ∷ []))) }
{
    let sides = numbers(alloc, &[p, SCRATCH + 1, SCRATCH])?;
    Ok(take_prim(b"v_truth", Primitive::FrCmp, sides))
}

/// `fr_set(p, 321, 0, 1); v_truth = fr_cmp(p, 321, 320);`, behind other code.
fn push_compared(alloc: Global, code: &mut List<CStmt>, p: u32) -> Result<(), AllocError>
    ensures { OnOk result (code.new ≡ code.old ++ words.clear p 321 ∷ written.take_prim locals.v_truth primitive.FrCmp (written.numbers (p ∷ 321 ∷ 320 ∷ [])) ∷ []) }
{
    code.push(clear(alloc, p, SCRATCH + 1)?)?;
    code.push(compares(alloc, p)?)
}

/// `v_ok = fr_add(p, 322, 64, 320);`
fn adds_clock(alloc: Global, p: u32) -> Result<List<CStmt>, AllocError>
    ensures { IfOk result (λ ss. ss ≡ written.take_prim written.v_ok primitive.FrAdd (written.numbers (p ∷ 322 ∷ 64 ∷ 320 ∷ [])) ∷ []) }
{
    let sides = numbers(alloc, &[p, SCRATCH + 2, CLOCK, SCRATCH])?;
    single(alloc, take_prim(b"v_ok", Primitive::FrAdd, sides))
}

/// `v_truth < 0`
fn is_below(alloc: Global) -> Result<CExpr, AllocError>
    ensures { IfOk result (λ e. e ≡ written.less (written.local locals.v_truth) (written.number 0)) }
{
    binary(alloc, COp::Less, local(b"v_truth"), number(0))
}

/// `if (v_truth == 1) { fr_move(p, 320, p, 321); }`
fn zeroes_if_over(alloc: Global, p: u32) -> Result<CStmt, AllocError>
    ensures { IfOk result (λ s. s ≡ written.if_then (written.local_is locals.v_truth 1) (written.move_register p 320 321 ∷ [])) }
{
    let is_over = local_is(alloc, b"v_truth", 1)?;
    let zeroes = single(alloc, move_register(alloc, p, SCRATCH, SCRATCH + 1)?)?;
    Ok(if_then(is_over, zeroes))
}

/// `if (v_ok == 1 && v_truth < 0) { v_ok = fr_add(p, 322, 64, 320); }`
fn adds_if_later(alloc: Global, p: u32) -> Result<CStmt, AllocError>
    ensures { IfOk result (λ s.
        s ≡ written.if_then (written.both (written.local_is written.v_ok 1) (written.less (written.local locals.v_truth) (written.number 0)))
        (written.take_prim written.v_ok primitive.FrAdd (written.numbers (p ∷ 322 ∷ 64 ∷ 320 ∷ [])) ∷ [])) }
{
    let fits = local_is(alloc, b"v_ok", 1)?;
    let below = is_below(alloc)?;
    let test = both(alloc, fits, below)?;
    Ok(if_then(test, adds_clock(alloc, p)?))
}

/// `v_truth = n;`
fn tells(n: u32) -> CStmt
    ensures { result ≡ written.set_number locals.v_truth n }
{
    set_number(b"v_truth", n)
}

/// Behind the value of a wait: its bound, and whether the moment at which that runs out fits.
pub fn push_bounds(alloc: Global, code: &mut List<CStmt>, p: u32) -> Result<(), AllocError>
    ensures { OnOk result (code.new ≡ code.old ++ waiting.bounds p) }
{
    push_compared(alloc, code, p)?;
    code.push(zeroes_if_over(alloc, p)?)?;
    code.push(adds_if_later(alloc, p)?)?;
    code.push(tells(0))
}

/// Whether the clock and the end moment of an evolution fit.
pub fn due_block(alloc: Global, p: u32) -> Result<List<CStmt>, AllocError>
    ensures { IfOk result (λ ss. ss ≡ evolving.due_block p) }
{
    let mut inner = List::new(alloc);
    push_compared(alloc, &mut inner, p)?;
    let below = is_below(alloc)?;
    inner.push(if_then(below, adds_clock(alloc, p)?))?;
    inner.push(tells(1))?;
    let there = local_is(alloc, b"v_truth", 1)?;
    single(alloc, if_then(there, inner))
}

/// Whether the bound has run out, into `v_truth`, behind other code.
fn push_is_over(alloc: Global, code: &mut List<CStmt>, p: u32) -> Result<(), AllocError>
    ensures { OnOk result (code.new ≡ code.old ++ dropping.is_over p) }
{
    let sides = numbers(alloc, &[p, BOUND])?;
    code.push(take_prim(b"v_truth", Primitive::FrSign, sides))?;
    let bounded = local_is(alloc, b"v_bounded", 1)?;
    let zero = local_is(alloc, b"v_truth", 0)?;
    let both = binary(alloc, COp::And, bounded, zero)?;
    code.push(set(b"v_truth", both))
}

/// The process goes on where its bound has run out, or else waits.
pub fn drops(alloc: Global, p: u32, next: u32) -> Result<List<CStmt>, AllocError>
    ensures { IfOk result (λ ss. ss ≡ spec.drops p next) }
{
    let mut code = List::new(alloc);
    push_is_over(alloc, &mut code, p)?;
    let over = local_is(alloc, b"v_truth", 1)?;
    let acts = leaves(alloc, next)?;
    let yes = single(alloc, commit(alloc, acts)?)?;
    let other = single(alloc, set_number(b"v_end", ENDS_WAITING))?;
    code.push(if_else(over, yes, other))?;
    Ok(code)
}

/// The case of a process that has arrived.
pub fn arrived(alloc: Global, p: u32, instr: &Instr) -> Result<List<CStmt>, AllocError>
    ensures { IfOk result (λ ss. ss ≡ spec.arrived p instr.now) }
{
    match instr {
        Instr::Wait { next, .. } => drops(alloc, p, *next),
        Instr::Evolve { next, .. } => drops(alloc, p, *next),
        _ => single(alloc, set_number(b"v_end", ENDS_WAITING)),
    }
}
