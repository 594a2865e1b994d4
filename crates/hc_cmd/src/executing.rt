//! A C text on the thread machine: all that wants memory first, then each line when it is printed.

ghost use Rattle.std.specs.Prelude.{◌≡◌, ◌≤◌, ◌++◌, length, IfOk};
ghost use Rattle.hc_limits.specs.Limits.{most_text_bytes};
ghost use Rattle.hc_cmach.specs.Calls.{CallsGoBack};
ghost use Rattle.hc_words.specs.declared.requests.Request.TheVariants as request;
ghost use Rattle.hc_cmd.specs.Answers.{Answers};
ghost use Rattle.hc_cmd.specs.Executed as spec;
ghost use Rattle.hc_cmd.specs.Prepared.{FindsProgram, Prepares};

use crate::ending::{End, Told};
use crate::prepared::Prepared;
use crate::refusal::Refusal;
use arrayvec::ArrayString;
use hc_cast::CProgram;
use hc_cexec::Machine;
use hc_cfacts::program_laws;
use hc_cmach::{ExecEnd, Kind};
use hc_cprim::Plain;
use hc_cread::c_read;
use hc_crun::exec_opened;
use hc_words::ExecutionRequest;
use hc_world::{Failed, Sink};
use itoa::Buffer;
use std::alloc::{AllocError, Global};

/// A program with its machine at its opening, and what is asked.
#[derive(Drop)]
pub struct Execution {
    pub(crate) program: CProgram,
    pub(crate) machine: Machine,
    pub(crate) asked: ExecutionRequest,
}

impl Execution {
    ghost use Rattle.hc_cmd.specs.Executed.{executed};
    ghost use Rattle.hc_cmd.specs.Prepared.{IsOpened, Performs};

    /// The program with its machine.
    fn open(
        alloc: Global,
        asked: ExecutionRequest,
        program: CProgram,
    ) -> Result<Execution, AllocError>
        requires { CallsGoBack program }
        ensures opened { IfOk result IsOpened }
        ensures program { IfOk result (λ e. e.program ≡ program) }
        ensures asked { IfOk result (λ e. e.asked ≡ asked) }
    {
        let machine = Machine::open(alloc, &program)?;
        Ok(Execution {
            program,
            machine,
            asked,
        })
    }

    /// Executes the program, writes each line when it is printed, and tells the status and the lines on error. It takes no
    /// memory.
    pub(crate) fn perform<O: Sink>(self, out: &mut O) -> Result<End, Failed>
        requires { IsOpened self }
        ensures { Performs O.state out.old out.new (executed self.asked self.program) result }
    {
        let asked = self.asked;
        let mut machine = self.machine;
        let mut moved = 0;
        let end = exec_opened(
            &self.program,
            &mut machine,
            &mut Plain,
            asked.seed,
            asked.steps,
            out,
            &mut moved,
        )?;
        Ok(End {
            status: status_of_end(end),
            told: Told::Line(lines_of(end, asked.report, moved)),
        })
    }
}

/// The program of a C text, or why it is none.
fn program_of(alloc: Global, text: &[u8]) -> Result<CProgram, Refusal>
    requires { length text.now ≤ most_text_bytes }
    ensures { FindsProgram text.now result }
{
    c_read(alloc, text).map_err(Refusal::NoProgram)
}

/// The execution of a C text.
pub(crate) fn prepare_execution(
    alloc: Global,
    asked: ExecutionRequest,
    text: &[u8],
) -> Result<Prepared, Refusal>
    requires { length text.now ≤ most_text_bytes }
    ensures { Prepares (Answers (request.Cexec asked) text.now) result }
{
    // It says that the calls of a program go back, and has nothing to run.
    program_laws();
    let program = program_of(alloc, text)?;
    let execution = Execution::open(alloc, asked, program).map_err(|_| Refusal::Memory)?;
    Ok(Prepared::Execution(execution))
}

/// The status of an execution that ends so.
fn status_of_end(end: ExecEnd) -> u8
    ensures { result ≡ spec.status_by end }
{
    match end {
        ExecEnd::Ended(kind) => status_at_kind(kind),
        ExecEnd::UsedUp => 13,
        ExecEnd::Undefined { .. } => 14,
    }
}

/// The status at an end line of this kind.
fn status_at_kind(kind: u32) -> u8
    ensures { result ≡ spec.status_at_kind kind }
{
    match kind {
        1 => 10,
        3 => 12,
        4 => 11,
        _ => 0,
    }
}

/// The lines on error: how it ended, and where it is asked for how many steps moved.
fn lines_of(end: ExecEnd, report: bool, moved: u64) -> ArrayString<128>
    ensures { result.bytes ≡ spec.end_text end ++ spec.moved_text report moved }
{
    let mut lines = line_of_end(end);
    if report {
        let mut buffer = Buffer::new();
        lines.push_str("moved ");
        lines.push_str(buffer.format(moved));
        lines.push('\n');
    }
    lines
}

/// The line that tells how it ended, empty at an end line.
fn line_of_end(end: ExecEnd) -> ArrayString<128>
    ensures text { result.bytes ≡ spec.end_text end }
    ensures short { length result.bytes ≤ 80 }
{
    let mut line = ArrayString::new();
    match end {
        ExecEnd::Ended(_) => {}
        ExecEnd::UsedUp => line.push_str("hcsp: machine steps used up\n"),
        ExecEnd::Undefined { kind, step } => {
            let mut buffer = Buffer::new();
            line.push_str("hcsp: undefined at step ");
            line.push_str(buffer.format(step));
            line.push_str(": ");
            line.push_str(text_of_kind(kind));
            line.push('\n');
        }
    }
    line
}

/// Why a step is undefined, in words.
fn text_of_kind(kind: Kind) -> &'static str
    ensures text { result.now ≡ spec.text_of_kind kind }
    ensures short { length result.now ≤ 20 }
{
    match kind {
        Kind::Index => "index",
        Kind::IntOverflow => "int overflow",
        Kind::ZeroDivisor => "zero divisor",
        Kind::Literal => "literal",
        Kind::NotOwner => "not owner",
        Kind::LockedTwice => "locked twice",
        Kind::Unlocked => "shared without mutex",
        Kind::Foreign => "foreign row",
        Kind::NoValue => "no value",
    }
}
