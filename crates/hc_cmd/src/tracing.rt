//! A source with a trace behind it: the trace made new, and the verdict on it.

ghost use Rattle.std.specs.Prelude.{◌≡◌, ◌≤◌, [], length, IfOk, MatchResult};
ghost use Rattle.hc_limits.specs.Limits.{most_text_bytes};
ghost use Rattle.hc_words.specs.declared.requests.Request.TheVariants as asked;
ghost use Rattle.hc_cmd.specs.Answers.{Answers};
ghost use Rattle.hc_cmd.specs.Prepared.{reply_in, FindsTraced, IsCutAt, Prepares};
ghost use Rattle.hc_cmd.specs.Refusals.{refused};
ghost use Rattle.hc_cmd.specs.Traced.{Judges, OfTraced};
ghost use Rattle.hc_cmd.specs.Traced as spec;

use crate::accepting::accepted;
use crate::ending::{End, Text};
use crate::prepared::Prepared;
use crate::refusal::Refusal;
use crate::simulation::task_of;
use arrayvec::ArrayString;
use hc_limits::MOST_SOURCE_BYTES;
use hc_term::System;
use hc_trace::{Trace, read_trace, split_text};
use hc_upgrade::upgrade;
use hc_verify::{Verdict, verify};
use hc_words::Settings;
use itoa::Buffer;
use std::alloc::{AllocError, Global};

/// The status where a trace is one of a behaviour.
const DONE: u8 = 0;

/// The status where it isn't.
const NOT_A_BEHAVIOUR: u8 = 15;

/// How many bytes of a text are a source in front of a trace, or why there is none.
fn source_length(text: &[u8]) -> Result<usize, Refusal>
    ensures { MatchResult result (IsCutAt text.now) (λ r. OfTraced (λ _ _ _. ⊥) text.now (refused r)) }
{
    let Some(place) = split_text(text) else {
        return Err(Refusal::NoTrace);
    };
    if place > MOST_SOURCE_BYTES {
        return Err(Refusal::TooLong(MOST_SOURCE_BYTES));
    }
    Ok(place)
}

/// The system of a source and the trace behind it, or the first refusal.
fn traced(alloc: Global, text: &[u8]) -> Result<(System, Trace), Refusal>
    requires { length text.now ≤ most_text_bytes }
    ensures { FindsTraced text.now result }
{
    let place = source_length(text)?;
    let (_, system) = accepted(alloc, &text[..place])?;
    let trace = read_trace(alloc, &text[place..]).map_err(Refusal::Untraced)?;
    Ok((system, trace))
}

/// The trace behind a source, made new.
pub(crate) fn prepare_conversion(alloc: Global, text: &[u8]) -> Result<Prepared, Refusal>
    requires { length text.now ≤ most_text_bytes }
    ensures { Prepares (Answers asked.Convert text.now) result }
{
    let (system, trace) = traced(alloc, text)?;
    let bytes = upgrade(alloc, &system, &trace).map_err(Refusal::Unconverted)?;
    Ok(Prepared::Text(Text::done(bytes)))
}

/// The verdict on the trace behind a source.
pub(crate) fn prepare_verdict(
    alloc: Global,
    settings: Settings,
    text: &[u8],
) -> Result<Prepared, Refusal>
    requires { length text.now ≤ most_text_bytes }
    ensures { Prepares (Answers (asked.Verify settings) text.now) result }
{
    let (system, trace) = traced(alloc, text)?;
    let told = verdict_of(alloc, settings, system, &trace).map_err(|_| Refusal::Memory)?;
    Ok(Prepared::Text(told))
}

/// What is told of a trace of the system with these settings.
fn verdict_of(
    alloc: Global,
    settings: Settings,
    system: System,
    trace: &Trace,
) -> Result<Text, AllocError>
    ensures { IfOk result (λ text. Judges settings system trace.now (reply_in text)) }
{
    let task = task_of(settings, system);
    let verdict = verify(alloc, &task, trace)?;
    text_of_verdict(alloc, trace.lines.len(), verdict)
}

/// What is told of a trace with so many lines, with its status.
fn text_of_verdict(alloc: Global, lines: usize, verdict: Verdict) -> Result<Text, AllocError>
    ensures { IfOk result (λ text. reply_in text ≡ spec.judged lines verdict) }
{
    match verdict {
        Verdict::Yes { steps } => text_of_line(alloc, verified_line(lines, steps), DONE),
        Verdict::No { line } => text_of_line(alloc, failing_line(line), NOT_A_BEHAVIOUR),
    }
}

/// A line as a text, with nothing on error.
fn text_of_line(alloc: Global, line: ArrayString<128>, status: u8) -> Result<Text, AllocError>
    ensures { IfOk result (λ text. reply_in text ≡ record { status = status; out = line.bytes; err = [] }) }
{
    let bytes = Vec::from_slice(alloc, line.as_str().as_bytes())?;
    Ok(Text {
        bytes,
        end: End::silent(status),
    })
}

fn verified_line(lines: usize, steps: u32) -> ArrayString<128>
    ensures { result.bytes ≡ spec.verified_line lines steps }
{
    let mut buffer = Buffer::new();
    let mut line = ArrayString::new();
    line.push_str("verified lines ");
    line.push_str(buffer.format(lines));
    line.push_str(" steps ");
    line.push_str(buffer.format(steps));
    line.push('\n');
    line
}

fn failing_line(number: u32) -> ArrayString<128>
    ensures { result.bytes ≡ spec.failing_line number }
{
    let mut buffer = Buffer::new();
    let mut line = ArrayString::new();
    line.push_str("not a behaviour at line ");
    line.push_str(buffer.format(number));
    line.push('\n');
    line
}
