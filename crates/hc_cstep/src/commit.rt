//! The end of a case: a step is taken where its working values fit and it is allowed.

ghost use Rattle.std.specs.Prelude.{◌≡◌, ◌++◌, ◌∷◌, [], IfOk};
ghost use Rattle.hc_cstep.specs.Words as words;
ghost use Rattle.hc_cstep.specs.Written as spec;

use crate::numbers::{ENDS_SPENT, ENDS_UNFIT};
use hc_cast::{COp, CStmt};
use hc_cbuild::{binary, if_else, local, local_is, number, set, single};
use hc_list::List;
use std::alloc::{AllocError, Global};

/// `v_steps = v_steps + 1;`
fn counts(alloc: Global) -> Result<CStmt, AllocError>
    ensures { IfOk result (λ s. s ≡ spec.counts) }
{
    let more = binary(alloc, COp::Add, local(b"v_steps"), number(1))?;
    Ok(set(b"v_steps", more))
}

/// These acts and a count, where a further step is allowed; or else the end of the stretch.
fn allowed(alloc: Global, acts: List<CStmt>) -> Result<CStmt, AllocError>
    ensures { IfOk result (λ s. s ≡ spec.allowed acts) }
{
    let mut acts = acts;
    acts.push(counts(alloc)?)?;
    let test = binary(alloc, COp::Less, local(b"v_steps"), local(b"v_most"))?;
    let other = single(alloc, set(b"v_end", number(ENDS_SPENT)))?;
    Ok(if_else(test, acts, other))
}

/// The acts of a step, where its working values fit and it is allowed.
pub fn commit(alloc: Global, acts: List<CStmt>) -> Result<CStmt, AllocError>
    ensures { IfOk result (λ s. s ≡ spec.commit acts) }
{
    let test = local_is(alloc, b"v_ok", 1)?;
    let yes = single(alloc, allowed(alloc, acts)?)?;
    let other = single(alloc, set(b"v_end", number(ENDS_UNFIT)))?;
    Ok(if_else(test, yes, other))
}
