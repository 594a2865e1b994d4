//! Reading units.

ghost use Rattle.std.specs.Prelude.{◌≡◌, ◌+◌, ◌<◌, ◌^◌, length};
ghost use Rattle.hc_cread.specs.Stops as spec;

use crate::unit_text::UnitText;
use hc_cast::CProgram;
use hc_cgrammar::Flaw;
use hc_ctoken::Scanner;
use hc_frac::Place;
use hc_grammar::{Stop, read};
use std::alloc::Global;

/// Why bytes are no unit.
#[derive(Clone, Copy, Debug, PartialEq, Eq)]
pub enum UnitStop {
    /// The first token with which something is wrong stands at this place, and this is wrong with it first.
    Refused { flaw: Flaw, place: Place },
    /// Memory ran out.
    Memory,
}

/// What reading a unit stops with where the reader stops with this.
fn stop_of(stop: Stop<Flaw>) -> UnitStop
    ensures { result ≡ spec.stop_of stop }
{
    match stop {
        Stop::Refused { flaw, place } => UnitStop::Refused { flaw, place },
        Stop::Memory => UnitStop::Memory,
    }
}

/// The program of a unit that begins at a place, or the first place at which the bytes are refused, and why. Places are those of the
/// whole text, as behind a prelude.
pub fn read_unit(alloc: Global, from: Place, bytes: &[u8]) -> Result<CProgram, UnitStop>
    requires lines { from.line + length bytes.now < 2 ^ 32 }
    requires columns { from.column + length bytes.now < 2 ^ 32 }
    ensures { spec.IsExact from bytes.now result }
{
    let mut tokens = Scanner::new_at(bytes, from);
    match read(alloc, UnitText::new(alloc), &mut tokens) {
        Ok(text) => Ok(text.values.program()),
        Err(stop) => Err(stop_of(stop)),
    }
}
