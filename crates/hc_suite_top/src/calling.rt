//! Calls of the program over a source and sinks in memory.

use crate::reports::report_shown;
use crate::worlds::World;
use hc_cgrammar::PRELUDE;
use hc_cmd::{answer, answer_run};
use hc_rows::on_one_line;
use hc_run::OpenGate;
use hc_world::{MemSink, MemSource};
use std::alloc::{AllocError, Global};
use std::sync::Wait;
use std::thread::Threads;

/// The words of a call; `''` is the empty word.
fn words_of(alloc: Global, text: &str) -> Result<Vec<String>, AllocError> {
    let mut words = Vec::new(alloc);
    for word in text.split_whitespace() {
        let word = if word == "''" { "" } else { word };
        words.push(String::from_str(alloc, word)?)?;
    }
    Ok(words)
}

/// With how many blanks a source begins, where its row says so (`5 blanks`), and what is behind them.
fn blanks_before(text: &str) -> (usize, &str) {
    if let Some((count, rest)) = text.split_once(" blanks") {
        if let Ok(count) = count.parse::<usize>() {
            return (count, rest);
        }
    }
    (0, text)
}

/// What stands in front of a source, where its row says so: so many blanks (`5 blanks`), or the prelude of C texts (`prelude`).
fn front_of(alloc: Global, text: &str) -> Result<(Vec<u8>, &str), AllocError> {
    if let Some(unit) = text.strip_prefix("prelude ") {
        let mut front = Vec::new(alloc);
        front.extend_from_slice(PRELUDE)?;
        return Ok((front, unit));
    }
    let (count, rest) = blanks_before(text);
    Ok((vec![in alloc; b' '; count]?, rest))
}

/// The bytes of a source: what stands in front of it, and then the row's text, in which `\n` is a newline.
pub(crate) fn source_of(alloc: Global, text: &str) -> Result<Vec<u8>, AllocError> {
    let (mut bytes, rest) = front_of(alloc, text.strip_prefix(' ').unwrap_or(text))?;
    let rest = rest.replace(alloc, "\\n", "\n")?;
    bytes.extend_from_slice(rest.as_bytes())?;
    Ok(bytes)
}

/// What stands on a sink, with `\n` for each newline. A report is told by its totals.
fn shown(alloc: Global, bytes: &[u8]) -> Result<String, AllocError> {
    let text = str::from_utf8(bytes).unwrap_or("no text");
    if text.starts_with("recomputed ") {
        return report_shown(alloc, text);
    }
    on_one_line(alloc, bytes)
}

/// Makes the call, on threads where the second word is `run`, and tells the status.
fn status_of<R: Threads + Wait + Sync>(
    rt: &R,
    alloc: Global,
    words: &Vec<String>,
    source: &mut MemSource,
    out: &mut MemSink,
    err: &mut MemSink,
) -> u8 {
    match words.as_slice() {
        [_, name, ..] if name.as_str() == "run" => {
            answer_run(rt, alloc, words, source, out, err, &OpenGate)
        }
        _ => answer(alloc, words, source, out, err),
    }
}

/// Calls the program, and tells `STATUS | OUTPUT | ERROR`.
pub(crate) fn answer_of<R: Threads + Wait + Sync>(
    rt: &R,
    alloc: Global,
    words: &str,
    world: &str,
    source: &str,
) -> Result<String, AllocError> {
    let words = words_of(alloc, words)?;
    let world = World::of_words(alloc, world)?;
    let mut bytes = source_of(alloc, source)?;
    bytes.truncate(world.cut);
    let mut source = MemSource::open(bytes, world.most.max(1), world.failing_reads);
    let mut out = MemSink::open(alloc, world.room, world.failing_outs)?;
    let mut err = MemSink::open(alloc, 4096, world.failing_errs)?;
    let status = status_of(rt, alloc, &words, &mut source, &mut out, &mut err);
    let out = shown(alloc, out.bytes())?;
    let err = shown(alloc, err.bytes())?;
    format!(in alloc; "{status} | {out} | {err}")
}
