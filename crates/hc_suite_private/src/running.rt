//! Units that are run on the thread machine.

ghost use Rattle.std.specs.Prelude.{IfOk, IfSome};
ghost use Rattle.hc_cgrammar.specs.Text.{IsCText};

use hc_cast::CProgram;
use hc_cfacts::program_laws;
use hc_cgrammar::PRELUDE;
use hc_cread::{CStop, c_read};
use hc_crun::exec;
use hc_limits::MOST_TEXT_BYTES;
use hc_world::MemSink;
use std::alloc::{AllocError, Global};

/// So many bytes have room in what is printed.
const ROOM: usize = 65_536;

/// So many items of the schedule are drawn.
const ITEMS: u32 = 2_000_000;

/// The program of a text, or why it is none; `None` for a longer text than may be read.
fn read(alloc: Global, text: &[u8]) -> Option<Result<CProgram, CStop>>
    ensures { IfSome result (λ answer. IfOk answer (IsCText text.now)) }
{
    if text.len() > MOST_TEXT_BYTES {
        return None;
    }
    Some(c_read(alloc, text))
}

/// What the unit's program prints under the schedule of the seed 0, or `no program`.
pub(crate) fn printed(alloc: Global, unit: &[u8]) -> Result<String, AllocError> {
    let mut text = Vec::new(alloc);
    text.extend_from_slice(PRELUDE)?;
    text.extend_from_slice(unit)?;
    let Some(Ok(program)) = read(alloc, &text) else {
        return String::from_str(alloc, "no program");
    };
    program_laws();
    let mut sink = MemSink::open(alloc, ROOM, Vec::new(alloc))?;
    match exec(alloc, &program, 0, ITEMS, &mut sink) {
        Ok(_) => String::from_str(alloc, str::from_utf8(sink.bytes()).unwrap_or("")),
        Err(_) => Err(AllocError),
    }
}
