//! The acts of steps.

ghost use Rattle.std.specs.Prelude.{◌≡◌, ◌++◌, ◌∷◌, [], Some, IfOk};
ghost use Rattle.hc_cast.specs.declared.stmt.CStmt.TheVariants as stmt;
ghost use Rattle.hc_cstep.specs.Locals as locals;
ghost use Rattle.hc_cstep.specs.Stands.{first_scratch, the_logged};
ghost use Rattle.hc_cstep.specs.Words as words;
ghost use Rattle.hc_cstep.specs.Dropping as dropping;
ghost use Rattle.hc_cstep.specs.Written as spec;

use crate::numbers::{BOUND, ENDS_LOGGED, LOGGED, SCRATCH};
use hc_cast::CStmt;
use hc_cbuild::{if_else, local, local_is, move_register, set, set_number, single};
use hc_list::List;
use std::alloc::{AllocError, Global};

/// `v_place = next;`
pub fn goes(alloc: Global, next: u32) -> Result<List<CStmt>, AllocError>
    ensures { IfOk result (λ ss. ss ≡ words.set locals.v_place next ∷ []) }
{
    single(alloc, set_number(b"v_place", next))
}

/// Register 320 becomes a variable, and the process goes on.
pub fn assigns(alloc: Global, p: u32, x: u32, next: u32) -> Result<List<CStmt>, AllocError>
    ensures { IfOk result (λ ss. ss ≡ words.move p x first_scratch ∷ words.set locals.v_place next ∷ []) }
{
    let mut acts = single(alloc, move_register(alloc, p, x, SCRATCH)?)?;
    acts.push(set_number(b"v_place", next))?;
    Ok(acts)
}

/// Register 320 is logged, and the process goes on.
pub fn logs(alloc: Global, p: u32, next: u32) -> Result<List<CStmt>, AllocError>
    ensures { IfOk result (λ ss. ss ≡ words.move p the_logged first_scratch ∷ words.set locals.v_end 2 ∷ words.set locals.v_place next ∷ []) }
{
    let mut acts = single(alloc, move_register(alloc, p, LOGGED, SCRATCH)?)?;
    acts.push(set_number(b"v_end", ENDS_LOGGED))?;
    acts.push(set_number(b"v_place", next))?;
    Ok(acts)
}

/// The process goes on by the answer of a test.
pub fn turns(alloc: Global, yes: u32, no: u32) -> Result<List<CStmt>, AllocError>
    ensures { IfOk result (λ ss.
        ss ≡ stmt.If (words.is locals.v_truth 1) (words.set locals.v_place yes ∷ []) (Some (words.set locals.v_place no ∷ [])) ∷ []) }
{
    let first = goes(alloc, yes)?;
    let other = goes(alloc, no)?;
    let test = local_is(alloc, b"v_truth", 1)?;
    single(alloc, if_else(test, first, other))
}

/// The process arrives at a communication.
pub fn meets(alloc: Global) -> Result<List<CStmt>, AllocError>
    ensures { IfOk result (λ ss. ss ≡ words.set locals.v_mark 1 ∷ []) }
{
    single(alloc, set_number(b"v_mark", 1))
}

/// The process arrives at a wait, whose bound is in register 320.
pub fn comes(alloc: Global, p: u32) -> Result<List<CStmt>, AllocError>
    ensures { IfOk result (λ ss. ss ≡ spec.comes p) }
{
    let mut acts = single(alloc, move_register(alloc, p, BOUND, SCRATCH)?)?;
    acts.push(set_number(b"v_bounded", 1))?;
    acts.push(set_number(b"v_mark", 1))?;
    Ok(acts)
}

/// The process arrives at an evolution, whose bound, if there is one, is in register 320.
pub fn begins(alloc: Global, p: u32) -> Result<List<CStmt>, AllocError>
    ensures { IfOk result (λ ss. ss ≡ spec.begins p) }
{
    let mut acts = single(alloc, move_register(alloc, p, BOUND, SCRATCH)?)?;
    acts.push(set(b"v_bounded", local(b"v_truth")))?;
    acts.push(set_number(b"v_mark", 1))?;
    Ok(acts)
}

/// The process leaves the statement at which it had arrived.
pub fn leaves(alloc: Global, next: u32) -> Result<List<CStmt>, AllocError>
    ensures { IfOk result (λ ss. ss ≡ dropping.leaves next) }
{
    let mut acts = single(alloc, set_number(b"v_mark", 0))?;
    acts.push(set_number(b"v_bounded", 0))?;
    acts.push(set_number(b"v_place", next))?;
    Ok(acts)
}
