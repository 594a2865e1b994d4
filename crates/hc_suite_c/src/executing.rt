//! Programs that are run on the thread machine, under the schedule of a seed.

use crate::reading::{behind_prelude, read};
use hc_cfacts::program_laws;
use hc_cmach::{ExecEnd, Kind};
use hc_crun::{ExecStop, exec_counted};
use hc_rows::{Words, on_one_line, text_of};
use hc_world::MemSink;
use std::alloc::{AllocError, Global};

/// So many bytes have room in what is printed.
const ROOM: usize = 65_536;

/// Why a step is undefined, in words.
fn reason(kind: Kind) -> &'static str {
    match kind {
        Kind::Index => "index",
        Kind::IntOverflow => "int overflow",
        Kind::ZeroDivisor => "zero divisor",
        Kind::Literal => "literal",
        Kind::NotOwner => "not owner",
        Kind::LockedTwice => "locked twice",
        Kind::Unlocked => "shared without mutex",
        Kind::Foreign => "foreign row",
        Kind::NoValue => "no value",
    }
}

/// How a run ended, in words.
fn ending(alloc: Global, end: ExecEnd) -> Result<String, AllocError> {
    match end {
        ExecEnd::Ended(kind) => format!(in alloc; "ended {kind}"),
        ExecEnd::UsedUp => String::from_str(alloc, "used up"),
        ExecEnd::Undefined { kind, step } => {
            format!(in alloc; "undefined {} at {step}", reason(kind))
        }
    }
}

/// The seed and the number of items in the words `SEED STEPS`.
fn settings(words: &str) -> (u64, u32) {
    let mut words = Words::of(words);
    let seed = words.long_number().unwrap_or(0);
    let steps = words.number().unwrap_or(0);
    (seed, steps)
}

/// The answer to a row `SEED STEPS | UNIT`: how the unit's program ended, how many steps moved, and the text that it printed.
pub(crate) fn executed(alloc: Global, row: &str) -> Result<String, AllocError> {
    let (words, unit) = row.split_once(" | ").unwrap_or((row, ""));
    let text = behind_prelude(alloc, &text_of(alloc, unit)?)?;
    let Some(Ok(program)) = read(alloc, &text) else {
        return String::from_str(alloc, "no program");
    };
    program_laws();
    let (seed, steps) = settings(words);
    let mut sink = MemSink::open(alloc, ROOM, Vec::new(alloc))?;
    let mut moved: u64 = 0;
    match exec_counted(alloc, &program, seed, steps, &mut sink, &mut moved) {
        Ok(end) => {
            let end = ending(alloc, end)?;
            let printed = on_one_line(alloc, sink.bytes())?;
            format!(in alloc; "{end} | moved {moved} | {printed}")
        }
        Err(ExecStop::Memory) => String::from_str(alloc, "Memory"),
        Err(ExecStop::Failed) => String::from_str(alloc, "Failed"),
    }
}
