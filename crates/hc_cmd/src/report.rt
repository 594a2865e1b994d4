//! The numbers of a run on threads, as a text.

ghost use Rattle.std.specs.Prelude.{◌≡◌, ◌++◌, IfOk, OnOk};
ghost use Rattle.hc_cmd.specs.Running as spec;

use arrayvec::ArrayString;
use itoa::Buffer;
use std::alloc::{AllocError, Global};

/// How many turns were worked out anew, the turns of each worker, and the caller's, a line each.
pub(crate) fn report_of(
    alloc: Global,
    recomputed: u64,
    turns: &[u64],
    own: u64,
) -> Result<Vec<u8>, AllocError>
    ensures { IfOk result (λ text. text.items ≡ spec.report_text recomputed turns.now own) }
{
    let mut text = Vec::new(alloc);
    text.extend_from_slice(recomputed_line(recomputed).as_str().as_bytes())?;
    for worker in 0..turns.len() {
        put_worker(&mut text, worker, turns[worker])?;
    }
    text.extend_from_slice(caller_line(own).as_str().as_bytes())?;
    Ok(text)
}

fn recomputed_line(recomputed: u64) -> ArrayString<64>
    ensures { result.bytes ≡ spec.recomputed_line recomputed }
{
    let mut buffer = Buffer::new();
    let mut line = ArrayString::new();
    line.push_str("recomputed ");
    line.push_str(buffer.format(recomputed));
    line.push('\n');
    line
}

/// Appends the line of a worker.
fn put_worker(text: &mut Vec<u8>, worker: usize, turns: u64) -> Result<(), AllocError>
    ensures { OnOk result (text.new.items ≡ text.old.items ++ spec.worker_line worker turns) }
{
    text.extend_from_slice(worker_line(worker, turns).as_str().as_bytes())?;
    Ok(())
}

fn worker_line(worker: usize, turns: u64) -> ArrayString<64>
    ensures { result.bytes ≡ spec.worker_line worker turns }
{
    let mut buffer = Buffer::new();
    let mut line = ArrayString::new();
    line.push_str("worker ");
    line.push_str(buffer.format(worker));
    line.push_str(" turns ");
    line.push_str(buffer.format(turns));
    line.push('\n');
    line
}

fn caller_line(own: u64) -> ArrayString<64>
    ensures { result.bytes ≡ spec.caller_line own }
{
    let mut buffer = Buffer::new();
    let mut line = ArrayString::new();
    line.push_str("caller turns ");
    line.push_str(buffer.format(own));
    line.push('\n');
    line
}
