//! The silent step of a process, looked at before it is taken.

ghost use Rattle.std.specs.Prelude.{◌≡◌, ◌<◌, length, Ok};
ghost use Rattle.hc_term.specs.Silent.{picks_left};
ghost use Rattle.hc_step.specs.Usable.{IsRuled};
ghost use Rattle.hc_step.specs.Looking.{seen, seen_arrived};

use hc_code::Instr;
use hc_frac::Frac;
use hc_term::{Unfit, holds, value};

/// What a silent step does that isn't an arrival: it goes on at a place, and may set a variable, log a value or take a
/// side of a choice before it does.
#[derive(Clone, Copy, Debug, PartialEq, Eq)]
pub(crate) enum Move {
    Goes {
        next: u32,
    },
    Sets {
        variable: u32,
        value: Frac,
        next: u32,
    },
    Logs {
        value: Frac,
        next: u32,
    },
    Picks {
        next: u32,
    },
}

/// Whether the left side is taken: bit `(k + 7p) mod 64` of the seed is 0, for choice number k of process number p.
/// The number of choices is given modulo 64.
pub(crate) fn takes_left(seed: u64, process: u32, choices: u32) -> bool
    requires { choices < 64 }
    ensures { result ≡ picks_left seed process choices }
{
    let bit = (u64::from(choices) + 7 * u64::from(process)) % 64;
    (seed >> bit) % 2 == 0
}

/// The step of a going process at an instruction, or `None` at the end and where it arrives.
pub(crate) fn look_at(instr: &Instr, store: &[Frac], is_left: bool) -> Result<Option<Move>, Unfit>
    requires ruled { IsRuled (length store.now) instr.now }
    ensures { result ≡ seen store.now is_left instr.now }
{
    match instr {
        Instr::Skip { next } | Instr::Again { next } => Ok(Some(Move::Goes { next: *next })),
        Instr::Assign {
            variable,
            value: expr,
            next,
        } => {
            let value = value(expr, store)?;
            Ok(Some(Move::Sets {
                variable: *variable,
                value,
                next: *next,
            }))
        }
        Instr::Log { value: expr, next } => {
            let value = value(expr, store)?;
            Ok(Some(Move::Logs { value, next: *next }))
        }
        Instr::Test { test, yes, no } => {
            let next = if holds(test, store)? { *yes } else { *no };
            Ok(Some(Move::Goes { next }))
        }
        Instr::Pick { left, right } => {
            let next = if is_left { *left } else { *right };
            Ok(Some(Move::Picks { next }))
        }
        Instr::Wait { .. } | Instr::Meet { .. } | Instr::Evolve { .. } | Instr::End => Ok(None),
    }
}

/// Where a process goes on that has arrived at an instruction, once its bound has run out: a boundary isn't let run on.
pub(crate) fn look_arrived(instr: &Instr, bound: Option<Frac>) -> Option<Move>
    ensures { Ok result ≡ seen_arrived bound instr.now }
{
    let bound = bound?;
    if !bound.is_zero() {
        return None;
    }
    match instr {
        Instr::Wait { next, .. } | Instr::Evolve { next, .. } => Some(Move::Goes { next: *next }),
        _ => None,
    }
}
