//! Reading whole texts: the prelude and a unit.

ghost use Rattle.std.specs.Prelude.{◌≡◌, ◌≤◌, ◌++◌, ℕ, List, length, IfSome, MatchOption};
ghost use Rattle.hc_limits.specs.Limits.{most_text_bytes};
ghost use Rattle.hc_cgrammar.specs.Prelude.{prelude};
ghost use Rattle.hc_cread.specs.TextStops as spec;

use crate::reading::{UnitStop, read_unit};
use hc_cast::CProgram;
use hc_cgrammar::{Refusal, prelude, unit_place};
use std::alloc::Global;

/// Why bytes are no C text.
#[derive(Clone, Copy, Debug, PartialEq, Eq)]
pub enum CStop {
    /// They don't begin with the prelude, or something is wrong with what stands behind it; places are those of the whole text.
    Refused(Refusal),
    /// Memory ran out.
    Memory,
}

/// What reading a text stops with where reading its unit stops with this.
fn stop_of(stop: UnitStop) -> CStop
    ensures { result ≡ spec.stop_of stop }
{
    match stop {
        UnitStop::Refused { flaw, place } => CStop::Refused(Refusal::Unit(flaw, place)),
        UnitStop::Memory => CStop::Memory,
    }
}

/// What stands behind the prelude, if the bytes begin with it.
#[tactic(auto, using(crate::proofs::Fronts::no_front, crate::proofs::Fronts::a_front))]
fn behind_prelude(bytes: &[u8]) -> Option<&[u8]>
    ensures parts { MatchOption result ((unit : List ℕ) → bytes.now ≡ prelude ++ unit → ⊥) (λ unit. bytes.now ≡ prelude ++ unit.now) }
    ensures within { IfSome result (λ unit. length unit.now ≤ length bytes.now) }
{
    bytes.strip_prefix(prelude())
}

/// The program of a C text, or why the bytes are none: they don't begin with the prelude, or the first token with which something is
/// wrong behind it, and what.
pub fn c_read(alloc: Global, bytes: &[u8]) -> Result<CProgram, CStop>
    requires { length bytes.now ≤ most_text_bytes }
    ensures { spec.IsExact bytes.now result }
{
    let Some(unit) = behind_prelude(bytes) else {
        return Err(CStop::Refused(Refusal::Prelude));
    };
    match read_unit(alloc, unit_place(), unit) {
        Ok(program) => Ok(program),
        Err(stop) => Err(stop_of(stop)),
    }
}
