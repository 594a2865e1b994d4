//! Why nothing stands on output.

ghost use Rattle.std.specs.Prelude.{◌≡◌, ◌≤◌, length};
ghost use Rattle.hc_cmd.specs.Prepared.{bytes_of};
ghost use Rattle.hc_cmd.specs.Refusals as spec;

use crate::ending::{End, Told};
use arrayvec::ArrayString;
use hc_cgrammar::{Flaw, Refusal as TextRefusal};
use hc_check::{CheckStop, What};
use hc_cread::CStop;
use hc_frac::Place;
use hc_modules::ModuleStop;
use hc_parse::ParseStop;
use hc_trace::TraceStop;
use hc_upgrade::UpgradeStop;
use itoa::Buffer;
use thiserror::Error;

/// The words that a call may have.
const USAGE: &str =
    "usage: hcsp ACTION [N] [--seed K] [--horizon T] [--limit K] [--workers K] [--steps K] [--report] [--channels]";

/// Why a call writes nothing on output.
#[derive(Clone, Copy, Debug, PartialEq, Eq, Error)]
pub enum Refusal {
    #[error("the words ask for nothing that there is")]
    Usage,
    #[error("the source failed")]
    Unread,
    #[error("there is no memory")]
    Memory,
    /// It has more than so many bytes.
    #[error("the source is too long")]
    TooLong(usize),
    #[error("no trace is behind the source")]
    NoTrace,
    #[error("the text isn't parsed")]
    Unparsed(ParseStop),
    #[error("the source isn't expanded")]
    Unexpanded(ModuleStop),
    #[error("the source doesn't pass the checks")]
    Unchecked(CheckStop),
    #[error("what is behind the source isn't a trace")]
    Untraced(TraceStop),
    #[error("the trace isn't one of the system")]
    Unconverted(UpgradeStop),
    #[error("the text isn't a C text")]
    NoProgram(CStop),
}

impl Refusal {
    /// How a call ends that is refused so. It takes no memory.
    pub(crate) fn end(self) -> End
        ensures { (result.status ≡ spec.status_of self) × (bytes_of result.told ≡ spec.line (spec.message_of self)) }
    {
        End {
            status: self.status(),
            told: Told::Line(self.line()),
        }
    }

    /// The status of the program that is refused so.
    fn status(self) -> u8
        ensures { result ≡ spec.status_of self }
    {
        match self {
            Refusal::Usage => 2,
            Refusal::Unread => 3,
            Refusal::Memory
            | Refusal::Unparsed(ParseStop::Memory)
            | Refusal::Unexpanded(ModuleStop::Memory)
            | Refusal::Unchecked(CheckStop::Memory)
            | Refusal::Untraced(TraceStop::Memory)
            | Refusal::Unconverted(UpgradeStop::Memory)
            | Refusal::NoProgram(CStop::Memory) => 5,
            _ => 1,
        }
    }

    /// The line that says so, with its newline. It takes no memory.
    fn line(self) -> ArrayString<128>
        ensures { result.bytes ≡ spec.line (spec.message_of self) }
    {
        match self {
            Refusal::Usage => line_of(USAGE),
            Refusal::Unread => line_of("read failed"),
            Refusal::Memory => line_of("out of memory"),
            Refusal::TooLong(most) => line_of_length(most),
            Refusal::NoTrace => line_of("no trace"),
            Refusal::Unparsed(stop) => line_of_stop(stop),
            Refusal::Unexpanded(stop) => line_of_module_stop(stop),
            Refusal::Unchecked(stop) => line_of_check_stop(stop),
            Refusal::Untraced(stop) => line_of_trace_stop(stop),
            Refusal::Unconverted(stop) => line_of_upgrade_stop(stop),
            Refusal::NoProgram(stop) => line_of_program_stop(stop),
        }
    }
}

fn line_of_stop(stop: ParseStop) -> ArrayString<128>
    ensures { result.bytes ≡ spec.line (spec.message_of_stop stop) }
{
    match stop {
        ParseStop::NameTooLong { place } => line_at(place, "name longer than 64 bytes"),
        ParseStop::NumberUnfit { place } => line_at(place, "number out of range"),
        ParseStop::Syntax { place } => line_at(place, "syntax"),
        ParseStop::TooDeep { place } => line_at(place, "nested too deeply"),
        ParseStop::TooManyNodes { place } => line_at(place, "expression too long"),
        ParseStop::Memory => line_of("out of memory"),
    }
}

fn line_of_module_stop(stop: ModuleStop) -> ArrayString<128>
    ensures { result.bytes ≡ spec.line (spec.message_of_module_stop stop) }
{
    match stop {
        ModuleStop::RepeatedModule { place } => line_at(place, "module defined twice"),
        ModuleStop::RepeatedParameter { place } => line_at(place, "parameter named twice"),
        ModuleStop::ParameterWritten { place } => line_at(place, "value parameter written"),
        ModuleStop::TooManyProcesses { place } => line_at(place, "too many processes"),
        ModuleStop::RepeatedProcess { place } => line_at(place, "process named twice"),
        ModuleStop::UnknownModule { place } => line_at(place, "unknown module"),
        ModuleStop::WrongArgumentCount { place } => line_at(place, "wrong number of arguments"),
        ModuleStop::WrongArgumentKind { place } => line_at(place, "wrong kind of argument"),
        ModuleStop::TooManyStatements { place } => line_at(place, "too many statements"),
        ModuleStop::TooManyNodes { place } => line_at(place, "too many expression nodes"),
        ModuleStop::Memory => line_of("out of memory"),
    }
}

fn line_of_too_many(what: What, place: Place) -> ArrayString<128>
    ensures { result.bytes ≡ spec.line (spec.at_place place (spec.too_many what)) }
{
    match what {
        What::Guards => line_at(place, "too many guards"),
        What::Channels => line_at(place, "too many channels"),
        What::Variables => line_at(place, "too many variables"),
        What::Nodes => line_at(place, "expression too long"),
    }
}

fn line_of_check_stop(stop: CheckStop) -> ArrayString<128>
    ensures { result.bytes ≡ spec.line (spec.message_of_check_stop stop) }
{
    match stop {
        CheckStop::TooMany { what, place } => line_of_too_many(what, place),
        CheckStop::DivisorNotLiteral { place } => line_at(place, "divisor is not a number"),
        CheckStop::ZeroDivisor { place } => line_at(place, "division by zero"),
        CheckStop::RepeatedRate { place } => line_at(place, "rate given twice"),
        CheckStop::RateEvolves { place } => line_at(place, "rate mentions an evolving variable"),
        CheckStop::NotAffine { place } => line_at(place, "not affine"),
        CheckStop::RepeatedGuard { place } => line_at(place, "channel guarded twice"),
        CheckStop::SelfChannel { place } => line_at(place, "process on both ends of a channel"),
        CheckStop::TwoSenders { place } => line_at(place, "channel has two senders"),
        CheckStop::TwoReceivers { place } => line_at(place, "channel has two receivers"),
        CheckStop::Memory => line_of("out of memory"),
    }
}

fn line_of_trace_stop(stop: TraceStop) -> ArrayString<128>
    ensures { result.bytes ≡ spec.line (spec.message_of_trace_stop stop) }
{
    match stop {
        TraceStop::Line { number } => line_at_line(number as u64, ""),
        TraceStop::Memory => line_of("out of memory"),
    }
}

fn line_of_upgrade_stop(stop: UpgradeStop) -> ArrayString<128>
    ensures { result.bytes ≡ spec.line (spec.message_of_upgrade_stop stop) }
{
    match stop {
        UpgradeStop::Channel { number } => line_at_line(number, ": channel"),
        UpgradeStop::Memory => line_of("out of memory"),
    }
}

fn line_of_program_stop(stop: CStop) -> ArrayString<128>
    ensures { result.bytes ≡ spec.line (spec.message_of_program_stop stop) }
{
    match stop {
        CStop::Refused(TextRefusal::Prelude) => line_of("prelude"),
        CStop::Refused(TextRefusal::Unit(flaw, place)) => line_of_unit_flaw(flaw, place),
        CStop::Memory => line_of("out of memory"),
    }
}

fn line_of_unit_flaw(flaw: Flaw, place: Place) -> ArrayString<128>
    ensures { result.bytes ≡ spec.line (spec.at_place place (spec.message_of_unit_flaw flaw)) }
{
    match flaw {
        Flaw::Limit => line_at(place, "limit"),
        Flaw::Syntax => line_at(place, "syntax"),
        Flaw::TooDeep => line_at(place, "nested too deeply"),
        Flaw::Names => line_at(place, "names"),
    }
}

/// The line of a text that is longer than so many bytes.
fn line_of_length(most: usize) -> ArrayString<128>
    ensures { result.bytes ≡ spec.line (spec.message_of (Refusal.TooLong most)) }
{
    let mut buffer = Buffer::new();
    let mut line = ArrayString::new();
    line.push_str("hcsp: source longer than ");
    line.push_str(buffer.format(most));
    line.push_str(" bytes\n");
    line
}

/// The line of a message.
fn line_of(message: &str) -> ArrayString<128>
    requires { length message.now ≤ 120 }
    ensures { result.bytes ≡ spec.line message.now }
{
    let mut line = ArrayString::new();
    line.push_str("hcsp: ");
    line.push_str(message);
    line.push('\n');
    line
}

/// The line of a message about a place.
fn line_at(place: Place, message: &str) -> ArrayString<128>
    requires { length message.now ≤ 40 }
    ensures { result.bytes ≡ spec.line (spec.at_place place message.now) }
{
    let mut buffer = Buffer::new();
    let mut line = ArrayString::new();
    line.push_str("hcsp: ");
    line.push_str(buffer.format(place.line));
    line.push(':');
    line.push_str(buffer.format(place.column));
    line.push_str(": ");
    line.push_str(message);
    line.push('\n');
    line
}

/// The line of a message about a line of a trace.
fn line_at_line(number: u64, message: &str) -> ArrayString<128>
    requires { length message.now ≤ 40 }
    ensures { result.bytes ≡ spec.line (spec.at_line number message.now) }
{
    let mut buffer = Buffer::new();
    let mut line = ArrayString::new();
    line.push_str("hcsp: trace line ");
    line.push_str(buffer.format(number));
    line.push_str(message);
    line.push('\n');
    line
}
