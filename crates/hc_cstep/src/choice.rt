//! Internal choice: which side is taken is told by the number of choices taken before.

ghost use Rattle.std.specs.Prelude.{◌≡◌, ◌<◌, ◌≤◌, ◌++◌, ◌∷◌, [], true, false, IfOk, OnOk};
ghost use Rattle.hc_term.specs.Silent.{picks_left};
ghost use Rattle.hc_cstep.specs.Choosing as spec;
ghost use Rattle.hc_cstep.specs.Locals as locals;
ghost use Rattle.hc_cbuild.specs.Written as written;

use crate::acts::goes;
use hc_cast::{CExpr, COp, CStmt};
use hc_cbuild::{binary, count_up, if_else, if_then, local_is, number, set_number, single};
use hc_list::List;
use std::alloc::{AllocError, Global};

/// Whether the left side is taken: bit `(k + 7p) mod 64` of the seed is 0, for choice number k of process number p.
/// The number of choices is given modulo 64.
fn takes_left(seed: u64, process: u32, choices: u32) -> bool
    requires { choices < 64 }
    ensures { result ≡ picks_left seed process choices }
{
    let bit = (u64::from(choices) + 7 * u64::from(process)) % 64;
    (seed >> bit) % 2 == 0
}

/// The numbers below n at which that side is taken, the greatest first, behind other numbers.
fn push_among(
    found: &mut List<u32>,
    seed: u64,
    p: u32,
    left: bool,
    n: u32,
) -> Result<(), AllocError>
    requires { n ≤ 64 }
    ensures { OnOk result (found.new ≡ found.old ++ spec.among (spec.on_side (picks_left seed p) left) n) }
{
    if n == 0 {
        return Ok(());
    }
    if takes_left(seed, p, n - 1) == left {
        found.push(n - 1)?;
    }
    push_among(found, seed, p, left, n - 1)
}

/// Whether the number of choices is one of these, or what an expression says.
fn any_behind(alloc: Global, before: CExpr, ns: &[u32]) -> Result<CExpr, AllocError>
    ensures { IfOk result (λ e. e ≡ spec.any_behind before ns.now) }
{
    match ns.split_first() {
        None => Ok(before),
        Some((n, rest)) => {
            let here = local_is(alloc, b"v_choices", *n)?;
            let both = binary(alloc, COp::Or, before, here)?;
            any_behind(alloc, both, rest)
        }
    }
}

/// Whether the number of choices is one of these.
fn any_of(alloc: Global, ns: &[u32]) -> Result<CExpr, AllocError>
    ensures { IfOk result (λ e. e ≡ spec.any_of ns.now) }
{
    match ns.split_first() {
        None => Ok(number(0)),
        Some((n, rest)) => {
            let here = local_is(alloc, b"v_choices", *n)?;
            any_behind(alloc, here, rest)
        }
    }
}

/// The process goes on at the first place where the number of choices is one of these, or else at the second.
fn takes_side(alloc: Global, ns: &[u32], first: u32, second: u32) -> Result<CStmt, AllocError>
    ensures { IfOk result (λ s. s ≡ spec.takes_side ns.now first second) }
{
    let test = any_of(alloc, ns)?;
    let yes = goes(alloc, first)?;
    let other = goes(alloc, second)?;
    Ok(if_else(test, yes, other))
}

/// `v_choices = v_choices + 1;`
fn counts(alloc: Global) -> Result<CStmt, AllocError>
    ensures { IfOk result (λ s. s ≡ written.count_up locals.v_choices) }
{
    count_up(alloc, b"v_choices")
}

/// `if (v_choices == 64) { v_choices = 0; }`
fn begins_again(alloc: Global) -> Result<CStmt, AllocError>
    ensures { IfOk result (λ s. s ≡ written.if_then (written.local_is locals.v_choices 64) (written.set_number locals.v_choices 0 ∷ [])) }
{
    let test = local_is(alloc, b"v_choices", 64)?;
    let again = single(alloc, set_number(b"v_choices", 0))?;
    Ok(if_then(test, again))
}

/// One choice more, counted modulo 64, behind other acts.
fn push_count(alloc: Global, acts: &mut List<CStmt>) -> Result<(), AllocError>
    ensures { OnOk result (acts.new ≡ acts.old ++ spec.counts_choice) }
{
    acts.push(counts(alloc)?)?;
    acts.push(begins_again(alloc)?)
}

/// The numbers of choices, modulo 64, at which that side is taken.
#[tactic(auto, unfolding(crate::specs::Choosing::numbers_of))]
fn numbers_of(alloc: Global, p: u32, seed: u64, left: bool) -> Result<List<u32>, AllocError>
    ensures { IfOk result (λ ns. ns ≡ spec.numbers_of (picks_left seed p) left) }
{
    let mut found = List::new(alloc);
    push_among(&mut found, seed, p, left, 64)?;
    Ok(found)
}

/// The process goes on at the side that the number of choices tells.
#[tactic(auto, using(crate::proofs::Sides::left_side, crate::proofs::Sides::right_side))]
fn side(alloc: Global, p: u32, seed: u64, left: u32, right: u32) -> Result<CStmt, AllocError>
    ensures { IfOk result (λ s. s ≡ spec.side_of (picks_left seed p) left right) }
{
    let lefts = numbers_of(alloc, p, seed, true)?;
    if lefts.len() <= 32 {
        return takes_side(alloc, lefts.as_slice(), left, right);
    }
    let rights = numbers_of(alloc, p, seed, false)?;
    takes_side(alloc, rights.as_slice(), right, left)
}

/// The acts of an internal choice of process p.
#[tactic(auto, unfolding(crate::specs::Choosing::side_of))]
pub fn picks(
    alloc: Global,
    p: u32,
    seed: u64,
    left: u32,
    right: u32,
) -> Result<List<CStmt>, AllocError>
    ensures { IfOk result (λ ss. ss ≡ spec.picks p seed left right) }
{
    let mut acts = single(alloc, side(alloc, p, seed, left, right)?)?;
    push_count(alloc, &mut acts)?;
    Ok(acts)
}
