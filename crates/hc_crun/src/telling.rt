//! The items of the schedule of a seed, and the lines that they print.

ghost use Rattle.std.specs.Prelude.{◌≡◌, ◌/◌, ◌%◌, ◌==◌, IfOk};
ghost use Rattle.hc_cmach.specs.Machine.{CState, opening, stepped};
ghost use Rattle.hc_cmach.specs.Seeded.{drawn_in};
ghost use Rattle.hc_cexec.specs.Stands.{IsAt};
ghost use Rattle.hc_world.specs.Pieces.{PutsPiece};
ghost use Rattle.hc_crun.specs.Items.{item_said, item_text, kind_said, end_by, item_end};
ghost use Rattle.hc_crun.specs.Going.{Goes};

use hc_cast::CProgram;
use hc_cexec::Machine;
use hc_cmach::{ExecEnd, Moved};
use hc_cprim::Primitives;
use hc_trace::HEADER;
use hc_world::{Failed, Sink, put_piece};
use rand_pcg::Pcg32;
use rand_pcg::rand_core::utils::NextWord;

/// The thread that a word draws, of so many, and whether it is woken where it waits. Of no threads it draws one that
/// isn't there.
fn drawn(word: u32, threads: usize) -> (u32, bool)
    ensures { result ≡ (word % threads, (word / threads) % 8 == 0) }
{
    if threads == 0 {
        return (word, true);
    }
    let word = word as usize;
    ((word % threads) as u32, word / threads % 8 == 0)
}

/// Does the item that a word draws, and answers what it comes to.
fn take_item<R: Primitives>(
    program: &CProgram,
    machine: &mut Machine,
    by: &mut R,
    word: u32,
) -> Moved
    ensures says { (s : CState) → IsAt program.now machine.old s → result ≡ item_said program.now s (drawn_in program.now s word) }
    ensures at { (s : CState) → IsAt program.now machine.old s → IsAt program.now machine.new (stepped program.now s (drawn_in program.now s word)) }
{
    let (thread, wakes) = drawn(word, program.threads.as_slice().len());
    if wakes && machine.waiting(thread) {
        machine.wake(thread);
        return Moved::Moved;
    }
    machine.step_by(program, by, thread)
}

/// How a schedule ends at item number `number`, if it does: by what the item comes to, and by the first end line so far.
fn end_at(said: Moved, ended: Option<u32>, number: u32) -> Option<ExecEnd>
    ensures { result ≡ end_by number (kind_said said) ended }
{
    match said {
        Moved::Undefined(kind) => Some(ExecEnd::Undefined { kind, step: number }),
        _ => ended.map(ExecEnd::Ended),
    }
}

/// Does the item that a word draws, and writes the line that it prints. Where the schedule ends at it, the answer says how;
/// it is item number `number`, counted from 1.
fn tell_item<R: Primitives, O: Sink>(
    program: &CProgram,
    machine: &mut Machine,
    by: &mut R,
    word: u32,
    number: u32,
    out: &mut O,
) -> Result<Option<ExecEnd>, Failed>
    ensures at { (s : CState) → IsAt program.now machine.old s → IsAt program.now machine.new (stepped program.now s (drawn_in program.now s word)) }
    ensures puts { (s : CState) → IsAt program.now machine.old s → PutsPiece O.state out.old out.new result (item_text program.now s (drawn_in program.now s word)) }
    ensures end { (s : CState) → IsAt program.now machine.old s → IfOk result (λ end. end ≡ item_end program.now s (drawn_in program.now s word) number) }
{
    let said = take_item(program, machine, by, word);
    if let Moved::Printed = said {
        put_piece(out, machine.line().as_bytes())?;
    }
    Ok(end_at(said, machine.ended(), number))
}

/// Writes the header, and does the items of the schedule up to its end, each with its line.
pub(crate) fn tell_items<R: Primitives, O: Sink>(
    program: &CProgram,
    machine: &mut Machine,
    by: &mut R,
    seed: u64,
    steps: u32,
    out: &mut O,
) -> Result<ExecEnd, Failed>
    ensures { IsAt program.now machine.old (opening program.now) → Goes O.state out.old out.new program.now seed steps machine.new result }
{
    let mut words = Pcg32::new(seed, 0);
    put_piece(out, HEADER)?;
    for done in 0..steps {
        let word = words.next_word();
        if let Some(end) = tell_item(program, machine, by, word, done + 1, out)? {
            return Ok(end);
        }
    }
    Ok(ExecEnd::UsedUp)
}
