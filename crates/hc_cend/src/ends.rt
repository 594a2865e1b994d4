//! The code of the end moment of a domain.

ghost use Rattle.std.specs.Prelude.{◌≡◌, ◌≤◌, ◌++◌, ◌∷◌, [], IfOk, OnOk};
ghost use Rattle.hc_limits.specs.Limits.{most_nodes};
ghost use Rattle.hc_term.specs.Profile.{nodes_in, reach_in};
ghost use Rattle.hc_cend.specs.Ending as spec;
ghost use Rattle.hc_cend.specs.Law.{ends, places};

use crate::compared::{comparisons, push_gaps};
use crate::crossing::{guards, push_crossings};
use crate::places::{ZERO, best_at};
use crate::search::{moves, push_search, sets};
use crate::tree::puts;
use hc_cast::CStmt;
use hc_cbuild::number;
use hc_frac::Frac;
use hc_list::List;
use hc_term::Cond;
use std::alloc::{AllocError, Global};

/// The register with 0, and all locals of the search.
fn starts(alloc: Global, p: u32, n: u32) -> Result<List<CStmt>, AllocError>
    requires { n ≤ most_nodes }
    ensures { IfOk result (λ ss. ss ≡ spec.starts p (places n)) }
{
    let mut code = List::new(alloc);
    code.push(puts(alloc, p, ZERO, 0)?)?;
    code.push(sets(b"v_i", 0))?;
    code.push(sets(b"v_after", 0))?;
    code.push(sets(b"v_x", 0))?;
    code.push(sets(b"v_y", 0))?;
    code.push(sets(b"v_j", 0))?;
    code.push(sets(b"v_turn", 0))?;
    code.push(sets(b"v_fails", 0))?;
    Ok(code)
}

/// The search, and what it found into register 320.
fn finds(alloc: Global, p: u32, n: u32, cond: &Cond) -> Result<List<CStmt>, AllocError>
    requires { (n ≤ most_nodes) × (nodes_in cond.now ≤ most_nodes) }
    ensures { IfOk result (λ ss. ss ≡ spec.finds p (places n) n cond.now) }
{
    let mut code = List::new(alloc);
    push_search(alloc, &mut code, p, n, cond)?;
    code.push(moves(alloc, p, 320, number(best_at(n)))?)?;
    Ok(code)
}

/// The crossings, and the search where they fit.
fn crosses_and_finds(alloc: Global, p: u32, n: u32, cond: &Cond) -> Result<List<CStmt>, AllocError>
    requires { (n ≤ most_nodes) × (nodes_in cond.now ≤ most_nodes) }
    ensures { IfOk result (λ ss. ss ≡ spec.crosses_and_finds p (places n) n cond.now) }
{
    let mut code = starts(alloc, p, n)?;
    push_crossings(alloc, &mut code, p, n)?;
    let search = finds(alloc, p, n, cond)?;
    code.push(guards(alloc, search)?)?;
    Ok(code)
}

/// The code that finds the end moment of a domain, where the variables of `pattern` evolve, behind other code: run with `v_ok` 1 it leaves there
/// whether all working values fit, and where they do in `v_truth` whether the domain ends, and in register 320 when.
pub fn push_ends(
    alloc: Global,
    code: &mut List<CStmt>,
    pattern: &[Option<Frac>],
    p: u32,
    cond: &Cond,
) -> Result<(), AllocError>
    requires few { nodes_in cond.now ≤ most_nodes }
    requires known { reach_in cond.now ≤ 64 }
    ensures { OnOk result (code.new ≡ code.old ++ ends p pattern.now cond.now) }
{
    let n = comparisons(cond);
    push_gaps(alloc, code, pattern, p, n, 0, cond)?;
    let search = crosses_and_finds(alloc, p, n, cond)?;
    code.push(guards(alloc, search)?)
}
