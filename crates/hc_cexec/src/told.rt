//! What was printed.

ghost use Rattle.std.specs.Prelude.{◌≡◌, ◌≤◌, [], None, length, slice_index_or};
ghost use Rattle.hc_cmach.specs.Line.{line_text, end_kinds};
ghost use Rattle.hc_cmach.specs.Line as spec;
ghost use Rattle.hc_cprim.specs.Deeds as deeds;

use arrayvec::ArrayString;
use hc_cast::CProgram;
use hc_cprim::Line;
use hc_frac::{Frac, Name};
use hc_trace::line_of;

/// The line that was printed last, and the kind of the first end line.
#[derive(Drop)]
pub(crate) struct Told {
    pub(crate) line: ArrayString<320>,
    pub(crate) ended: Option<u32>,
}

impl Told {
    ghost use Rattle.hc_cexec.specs.Told.{IsPrinted};

    /// Nothing is printed yet.
    pub(crate) fn nothing() -> Told
        ensures line { result.line.bytes ≡ [] }
        ensures ended { result.ended ≡ None }
    {
        Told {
            line: ArrayString::new(),
            ended: None,
        }
    }

    /// Prints a line.
    pub(crate) fn print(&mut self, program: &CProgram, line: &Line)
        ensures { IsPrinted program.now line.now self.old self.new }
    {
        self.line = text_of(program, line);
        if let Line::Ends { kind, .. } = line {
            if self.ended.is_none() {
                self.ended = Some(*kind);
            }
        }
    }
}

/// The text of a line, with its newline.
fn text_of(program: &CProgram, line: &Line) -> ArrayString<320>
    ensures { result.bytes ≡ line_text program.now (deeds.line_of line.now) }
{
    match line {
        Line::Delays { clock, by } => line_of(
            clock.text().as_str(),
            &["delay", by.text().as_str()],
        ),
        Line::Meets {
            clock,
            channel,
            sender,
            receiver,
            value,
        } => {
            let channel = name_at(program.channels.as_slice(), *channel);
            let sender = name_at(program.processes.as_slice(), *sender);
            let receiver = name_at(program.processes.as_slice(), *receiver);
            let value = value.text();
            line_of(
                clock.text().as_str(),
                &["comm", channel, sender, receiver, value.as_str()],
            )
        }
        Line::Logs {
            clock,
            process,
            value,
        } => {
            let name = name_at(program.processes.as_slice(), *process);
            line_of(clock.text().as_str(), &["log", name, value.text().as_str()])
        }
        Line::Ends { kind, clock, who } => end_line(program, *kind, clock, *who),
    }
}

/// The end line. An overflow names a process, or `*` for the clock.
fn end_line(program: &CProgram, kind: u32, clock: &Frac, who: Option<usize>) -> ArrayString<320>
    ensures { result.bytes ≡ line_text program.now (spec.Ends kind clock.now who) }
{
    let clock = clock.text();
    if kind == 4 {
        let name = who_name(program, who);
        line_of("end", &["overflow", clock.as_str(), name])
    } else {
        line_of("end", &[kind_name(kind), clock.as_str()])
    }
}

/// The name of an end line's kind.
fn kind_name(kind: u32) -> &'static str
    ensures name { result.now ≡ slice_index_or end_kinds kind [] }
    ensures short { length result.now ≤ 64 }
{
    match kind {
        0 => "terminated",
        1 => "deadlock",
        2 => "horizon",
        3 => "limit",
        4 => "overflow",
        _ => "",
    }
}

/// The name of the process that an overflow names, or `*`.
fn who_name(program: &CProgram, who: Option<usize>) -> &str
    ensures name { result.now ≡ spec.who_text program.now who }
    ensures short { length result.now ≤ 64 }
{
    match who {
        Some(process) => name_at(program.processes.as_slice(), process),
        None => "*",
    }
}

/// The name of this number, and no bytes where there is none.
fn name_at(names: &[Name], number: usize) -> &str
    ensures name { result.now ≡ slice_index_or names.now number [] }
    ensures short { length result.now ≤ 64 }
{
    match names.get(number) {
        Some(name) => name.text(),
        None => "",
    }
}
