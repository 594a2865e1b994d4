//! Texts that are read and compared.

ghost use Rattle.std.specs.Prelude.{IfOk, IfSome};
ghost use Rattle.hc_cgrammar.specs.Text.{IsCText};

use crate::showing::shown;
use hc_cast::CProgram;
use hc_cgrammar::{PRELUDE, Refusal};
use hc_cread::{CStop, c_read};
use hc_cwrite::{c_write, reading_back};
use hc_limits::MOST_TEXT_BYTES;
use hc_rows::on_one_line;
use std::alloc::{AllocError, Global};

/// The program of a text, or why it is none; `None` for a longer text than may be read.
pub(crate) fn read(alloc: Global, text: &[u8]) -> Option<Result<CProgram, CStop>>
    ensures { IfSome result (λ answer. IfOk answer (IsCText text.now)) }
{
    if text.len() > MOST_TEXT_BYTES {
        return None;
    }
    Some(c_read(alloc, text))
}

/// The prelude with a unit behind it.
pub(crate) fn behind_prelude(alloc: Global, unit: &[u8]) -> Result<Vec<u8>, AllocError> {
    let mut text = Vec::new(alloc);
    text.extend_from_slice(PRELUDE)?;
    text.extend_from_slice(unit)?;
    Ok(text)
}

/// `program`, or the refusal.
pub(crate) fn read_whole(alloc: Global, text: &[u8]) -> Result<String, AllocError> {
    match read(alloc, text) {
        Some(Ok(_)) => String::from_str(alloc, "program"),
        Some(Err(CStop::Refused(Refusal::Unit(flaw, place)))) => {
            format!(in alloc; "{flaw:?} {{ place: {place:?} }}")
        }
        Some(Err(CStop::Refused(Refusal::Prelude))) => String::from_str(alloc, "Prelude"),
        Some(Err(CStop::Memory)) => String::from_str(alloc, "Memory"),
        None => String::from_str(alloc, "too long"),
    }
}

/// The same of the prelude with a unit behind it.
pub(crate) fn read_unit(alloc: Global, unit: &[u8]) -> Result<String, AllocError> {
    let text = behind_prelude(alloc, unit)?;
    read_whole(alloc, &text)
}

/// Whether a copy of the one unit's program is that of the other: `same`, `other`, or `no program`.
pub(crate) fn compared(alloc: Global, unit: &[u8], other: &[u8]) -> Result<String, AllocError> {
    let text = behind_prelude(alloc, unit)?;
    let other = behind_prelude(alloc, other)?;
    let (Some(Ok(program)), Some(Ok(other))) = (read(alloc, &text), read(alloc, &other)) else {
        return String::from_str(alloc, "no program");
    };
    let copy = program.copy(alloc)?;
    let left = shown(alloc, &copy)?;
    let right = shown(alloc, &other)?;
    String::from_str(alloc, if left == right { "same" } else { "other" })
}

/// The canonical spelling of a unit's program, with `\n` for each newline, or `no program`.
pub(crate) fn written(alloc: Global, unit: &[u8]) -> Result<String, AllocError> {
    let text = behind_prelude(alloc, unit)?;
    let Some(Ok(program)) = read(alloc, &text) else {
        return String::from_str(alloc, "no program");
    };
    reading_back();
    let canonical = c_write(alloc, &program)?;
    let unit = canonical.strip_prefix(PRELUDE).unwrap_or(b"");
    on_one_line(alloc, unit)
}
