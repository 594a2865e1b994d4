//! The code of the comparisons' lines: left minus right, value and slope.

ghost use Rattle.std.specs.Prelude.{◌≡◌, ◌<◌, ◌≤◌, ◌^◌, ◌+◌, ◌*◌, ◌++◌, ◌∷◌, [], length, IfOk, OnOk};
ghost use Rattle.hc_limits.specs.Limits.{most_nodes};
ghost use Rattle.hc_term.specs.Profile.{nodes, nodes_in, reach, reach_in};
ghost use Rattle.hc_cvalue.specs.Lines.{line_code};
ghost use Rattle.hc_cend.specs.Lining.{compared, guard};
ghost use Rattle.hc_cend.specs.Lining as spec;
ghost use Rattle.hc_cend.specs.Law.{places};

use crate::crossing::guards;
use crate::places::{AT, crossing_at, slope_at};
use hc_cast::{CStmt, Primitive};
use hc_cbuild::guarded;
use hc_cvalue::push_line;
use hc_frac::Frac;
use hc_list::List;
use hc_term::{Cond, Expr};
use std::alloc::{AllocError, Global};

/// How many comparisons a condition has.
pub fn comparisons(cond: &Cond) -> u32
    requires { nodes_in cond.now ≤ most_nodes }
    ensures counted { result ≡ length (compared cond.now) }
    ensures few { result ≤ nodes_in cond.now }
{
    match cond {
        Cond::True | Cond::False => 0,
        Cond::Compare(_, _, _) => 1,
        Cond::Not(part) => comparisons(part.get()),
        Cond::And(left, right) => comparisons(left.get()) + comparisons(right.get()),
        Cond::Or(left, right) => comparisons(left.get()) + comparisons(right.get()),
    }
}

/// The line of one side of a comparison into registers `d` and `d + 1`, where all fits so far.
fn push_side(
    alloc: Global,
    code: &mut List<CStmt>,
    pattern: &[Option<Frac>],
    p: u32,
    d: u32,
    side: &Expr,
) -> Result<(), AllocError>
    requires room { d + 2 * nodes side.now < 2 ^ 31 }
    requires known { reach side.now ≤ 64 }
    ensures { OnOk result (code.new ≡ code.old ++ guard (line_code p pattern.now d side.now) ∷ []) }
{
    let mut block = List::new(alloc);
    push_line(alloc, &mut block, pattern, p, d, side)?;
    code.push(guards(alloc, block)?)
}

/// `if (v_ok == 1) { v_ok = fr_sub(p, d, x, y); }`
fn push_subtracts(
    alloc: Global,
    code: &mut List<CStmt>,
    p: u32,
    d: u32,
    x: u32,
    y: u32,
) -> Result<(), AllocError>
    ensures { OnOk result (code.new ≡ code.old ++ guard (spec.subtracts p d x y) ∷ []) }
{
    code.push(guarded(alloc, Primitive::FrSub, p, d, x, y)?)
}

/// The line of comparison `i` of `n`, whose sides these are.
fn push_gap(
    alloc: Global,
    code: &mut List<CStmt>,
    pattern: &[Option<Frac>],
    p: u32,
    n: u32,
    i: u32,
    left: &Expr,
    right: &Expr,
) -> Result<(), AllocError>
    requires few { (n ≤ most_nodes) × (i ≤ most_nodes) }
    requires room { nodes left.now + nodes right.now ≤ most_nodes }
    requires known { (reach left.now ≤ 64) × (reach right.now ≤ 64) }
    ensures { OnOk result (code.new ≡ code.old ++ spec.gap_code (line_code p pattern.now) p (places n) i (spec.sides left.now right.now)) }
{
    let crossing = crossing_at(n);
    push_side(alloc, code, pattern, p, crossing, left)?;
    push_side(alloc, code, pattern, p, crossing + 2, right)?;
    push_subtracts(alloc, code, p, AT + i, crossing, crossing + 2)?;
    push_subtracts(alloc, code, p, slope_at(n) + i, crossing + 1, crossing + 3)
}

/// The lines of all comparisons of a condition, the first of which is number `i` of `n`; and the number of the one behind them.
#[tactic(auto, using(crate::proofs::Joining::gaps_append))]
pub fn push_gaps(
    alloc: Global,
    code: &mut List<CStmt>,
    pattern: &[Option<Frac>],
    p: u32,
    n: u32,
    i: u32,
    cond: &Cond,
) -> Result<u32, AllocError>
    requires few { n ≤ most_nodes }
    requires room { i + nodes_in cond.now ≤ most_nodes }
    requires known { reach_in cond.now ≤ 64 }
    ensures { IfOk result (λ next.
        (code.new ≡ code.old ++ spec.gaps_code (line_code p pattern.now) p (places n) i (compared cond.now)) × (next ≡ i + length (compared cond.now)) × (next ≤ i + nodes_in cond.now)) }
{
    match cond {
        Cond::True | Cond::False => Ok(i),
        Cond::Compare(_, left, right) => {
            push_gap(alloc, code, pattern, p, n, i, left.get(), right.get())?;
            Ok(i + 1)
        }
        Cond::Not(part) => push_gaps(alloc, code, pattern, p, n, i, part.get()),
        Cond::And(left, right) => {
            let next = push_gaps(alloc, code, pattern, p, n, i, left.get())?;
            push_gaps(alloc, code, pattern, p, n, next, right.get())
        }
        Cond::Or(left, right) => {
            let next = push_gaps(alloc, code, pattern, p, n, i, left.get())?;
            push_gaps(alloc, code, pattern, p, n, next, right.get())
        }
    }
}
