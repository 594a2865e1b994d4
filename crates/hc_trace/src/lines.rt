//! The lines of a run's text.
ghost use Rattle.std.specs.Prelude.{◌≡◌, ◌<◌, ◌≤◌, ◌↔◌, ◌+◌, ◌∷◌, ◌++◌, length, map, IsSome, IfSome, IsTrue};
ghost use Rattle.arrayvec.specs.ArrayString.{array_string_len};
ghost use Rattle.hc_term.specs.TraceText.{words, line_of_step};
ghost use Rattle.hc_term.specs.Ends.{ends_of};
ghost use Rattle.hc_term.specs.TraceText as spec;
ghost use Rattle.hc_trace.specs.EndsTable.{table_of};
ghost use Rattle.hc_trace.specs.InRange.{StepInRange, StopInRange};
ghost use Rattle.hc_trace.specs.Visible.{is_visible};

use crate::ChannelEnds;
use arrayvec::ArrayString;
use hc_frac::Frac;
use hc_term::{Item, Step, Stop, System};

/// The first line, with its newline.
pub const HEADER: &[u8] = b"hcsp-trace 2\n";

/// `HEADER`, for contracts.
pub fn header() -> &'static [u8]
    ensures { result.now ≡ spec.header }
{
    HEADER
}

/// The line of a step, with its newline, or `None` for a silent step that logs nothing. A communication names its
/// channel, the process that sends and the one that receives, which are looked up among the ends of the system's channels.
pub fn event_line(system: &System, ends: &ChannelEnds, item: &Item) -> Option<ArrayString<320>>
    requires range { StepInRange system.now item.now.step }
    requires ends { ends.now ≡ table_of system.now }
    ensures visible { IsSome result ↔ IsTrue (is_visible item.now.step) }
    ensures line { IfSome result (λ line. line.bytes ≡ line_of_step system.now item.now.at item.now.step) }
{
    let clock = item.at.text();
    let line = match item.step {
        Step::Silent { logged: None, .. } => return None,
        Step::Silent {
            process,
            logged: Some(value),
        } => {
            let name = process_name(system, process);
            line_of(clock.as_str(), &["log", name, value.text().as_str()])
        }
        Step::Comm { channel, value } => {
            let name = system.channels.as_slice()[channel as usize].text();
            let sender = sender_name(system, ends, channel);
            let receiver = receiver_name(system, ends, channel);
            let value = value.text();
            line_of(
                clock.as_str(),
                &["comm", name, sender, receiver, value.as_str()],
            )
        }
        Step::Delay { by } => line_of(clock.as_str(), &["delay", by.text().as_str()]),
    };
    Some(line)
}

/// The last line, with its newline: how the run stops, and the clock reached.
pub fn end_line(system: &System, stop: Stop, clock: Frac) -> ArrayString<320>
    requires { StopInRange system.now stop }
    ensures { result.bytes ≡ spec.end_line system.now clock stop }
{
    let clock = clock.text();
    let clock = clock.as_str();
    match stop {
        Stop::Terminated => line_of("end", &["terminated", clock]),
        Stop::Deadlock => line_of("end", &["deadlock", clock]),
        Stop::Horizon => line_of("end", &["horizon", clock]),
        Stop::Limit => line_of("end", &["limit", clock]),
        Stop::Overflow { process: None } => line_of("end", &["overflow", clock, "*"]),
        Stop::Overflow {
            process: Some(process),
        } => { line_of("end", &["overflow", clock, process_name(system, process)]) }
    }
}

/// The name of the process with this number.
fn process_name(system: &System, process: u32) -> &str
    requires { process < length system.now.processes }
    ensures name { result.now ≡ spec.process_name system.now process }
    ensures short { length result.now ≤ 64 }
{
    system.processes.as_slice()[process as usize].name.text()
}

/// The name of the process that sends on a channel, or no bytes where none does.
fn sender_name<'a>(system: &'a System, ends: &ChannelEnds, channel: u32) -> &'a str
    requires ends { ends.now ≡ table_of system.now }
    requires channel { channel < length system.now.channels }
    ensures name { result.now ≡ spec.end_name system.now (ends_of system.now channel).sender }
    ensures short { length result.now ≤ 64 }
{
    end_name(system, ends.senders.as_slice()[channel as usize])
}

/// The name of the process that receives on a channel, or no bytes where none does.
fn receiver_name<'a>(system: &'a System, ends: &ChannelEnds, channel: u32) -> &'a str
    requires ends { ends.now ≡ table_of system.now }
    requires channel { channel < length system.now.channels }
    ensures name { result.now ≡ spec.end_name system.now (ends_of system.now channel).receiver }
    ensures short { length result.now ≤ 64 }
{
    end_name(system, ends.receivers.as_slice()[channel as usize])
}

/// The name of the process at one end of a channel.
fn end_name(system: &System, end: Option<u32>) -> &str
    requires { IfSome end (λ p. p < length system.now.processes) }
    ensures name { result.now ≡ spec.end_name system.now end }
    ensures short { length result.now ≤ 64 }
{
    match end {
        Some(process) => process_name(system, process),
        None => "",
    }
}

/// The line of these words: a space between them, and a newline behind the last. It has at most 320 bytes.
pub fn line_of(first: &str, rest: &[&str]) -> ArrayString<320>
    requires { length (words (first.now ∷ map (λ w. w.now) rest.now)) ≤ 320 }
    ensures { result.bytes ≡ words (first.now ∷ map (λ w. w.now) rest.now) }
{
    let mut line = ArrayString::new();
    line.push_str(first);
    for word in rest {
        push_word(&mut line, word);
    }
    line.push('\n');
    line
}

/// Appends a space and a word.
fn push_word(line: &mut ArrayString<320>, word: &str)
    requires { array_string_len line.old + 1 + length word.now ≤ 320 }
    ensures { line.new.bytes ≡ line.old.bytes ++ 32 ∷ word.now }
{
    line.push(' ');
    line.push_str(word);
}
