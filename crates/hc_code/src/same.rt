//! Whether two codes are equal.

ghost use Rattle.std.specs.Prelude.{◌≡◌, ◌↔◌, IsTrue};

use crate::{Instr, Way};
use hc_term::{same_cond, same_expr, same_io, same_rates};

fn same_way(left: &Way, right: &Way) -> bool
    ensures { IsTrue result ↔ (left.now ≡ right.now) }
{
    left.next == right.next && same_io(&left.io, &right.io)
}

fn same_ways(left: &[Way], right: &[Way]) -> bool
    ensures { IsTrue result ↔ (left.now ≡ right.now) }
{
    if left.len() != right.len() {
        return false;
    }
    for (at, way) in left.iter().enumerate() {
        if !same_way(way, &right[at]) {
            return false;
        }
    }
    true
}

fn same_instr(left: &Instr, right: &Instr) -> bool
    ensures { IsTrue result ↔ (left.now ≡ right.now) }
{
    match (left, right) {
        (Instr::Skip { next }, Instr::Skip { next: other })
        | (Instr::Again { next }, Instr::Again { next: other }) => next == other,
        (
            Instr::Assign {
                variable,
                value,
                next,
            },
            Instr::Assign {
                variable: set,
                value: given,
                next: other,
            },
        ) => variable == set && next == other && same_expr(value, given),
        (
            Instr::Log { value, next },
            Instr::Log {
                value: given,
                next: other,
            },
        ) => next == other && same_expr(value, given),
        (
            Instr::Test { test, yes, no },
            Instr::Test {
                test: asked,
                yes: first,
                no: second,
            },
        ) => yes == first && no == second && same_cond(test, asked),
        (
            Instr::Pick { left, right },
            Instr::Pick {
                left: first,
                right: second,
            },
        ) => left == first && right == second,
        (
            Instr::Wait { time, next },
            Instr::Wait {
                time: given,
                next: other,
            },
        ) => next == other && same_expr(time, given),
        (Instr::Meet { branches }, Instr::Meet { branches: others }) => same_ways(
            branches.as_slice(),
            others.as_slice(),
        ),
        (
            Instr::Evolve {
                rates,
                domain,
                branches,
                next,
            },
            Instr::Evolve {
                rates: moving,
                domain: kept,
                branches: others,
                next: other,
            },
        ) => next == other
            && same_rates(rates.as_slice(), moving.as_slice())
            && same_cond(domain, kept)
            && same_ways(branches.as_slice(), others.as_slice()),
        (Instr::End, Instr::End) => true,
        _ => false,
    }
}

/// Whether two lists of instructions are equal.
pub(crate) fn same_instrs(left: &[Instr], right: &[Instr]) -> bool
    ensures { IsTrue result ↔ (left.now ≡ right.now) }
{
    if left.len() != right.len() {
        return false;
    }
    for (at, instr) in left.iter().enumerate() {
        if !same_instr(instr, &right[at]) {
            return false;
        }
    }
    true
}
