//! Lines of a trace text of version 2.

ghost use Rattle.std.specs.Prelude.{◌≡◌, ◌∷◌, ◌++◌, map, length, OnOk};
ghost use Rattle.hc_rational.specs.Words.{Rational};
ghost use Rattle.hc_term.specs.TraceText.{words};
ghost use Rattle.hc_trace.specs.Traces.{line_text, end_text};
ghost use Rattle.hc_upgrade.specs.Seen as seen;
ghost use Rattle.hc_upgrade.specs.Tails.{tail};

use crate::event::Event;
use hc_frac::Frac;
use hc_trace::{EndKind, TraceEnd};
use std::alloc::AllocError;

/// Appends the line of an event at a clock.
pub(crate) fn put_line(text: &mut Vec<u8>, at: Frac, event: &Event<'_>) -> Result<(), AllocError>
    ensures { OnOk result (text.new.items ≡ text.old.items ++ line_text (record { at = at; event = seen.event event.now })) }
{
    let at = at.text();
    let at = at.as_str();
    match event {
        Event::Delay { by } => put_words(text, at, &["delay", by.text().as_str()]),
        Event::Comm { route, value } => put_words(
            text,
            at,
            &[
                "comm",
                route.channel.text(),
                route.sender.text(),
                route.receiver.text(),
                value.text().as_str(),
            ],
        ),
        Event::Log { process, value } => {
            put_words(text, at, &["log", process.text(), value.text().as_str()])
        }
    }
}

/// Appends the end line, if there is one.
pub(crate) fn put_end(text: &mut Vec<u8>, end: &Option<TraceEnd>) -> Result<(), AllocError>
    ensures { OnOk result (text.new.items ≡ text.old.items ++ end_text end.now) }
{
    let Some(end) = end else {
        return Ok(());
    };
    let at = end.at.text();
    let at = at.as_str();
    match end.kind {
        EndKind::Terminated => put_words(text, "end", &["terminated", at]),
        EndKind::Deadlock => put_words(text, "end", &["deadlock", at]),
        EndKind::Horizon => put_words(text, "end", &["horizon", at]),
        EndKind::Limit => put_words(text, "end", &["limit", at]),
        EndKind::Overflow => match &end.who {
            None => put_words(text, "end", &["overflow", at, "*"]),
            Some(process) => put_words(text, "end", &["overflow", at, process.text()]),
        },
    }
}

/// Appends the line of these words.
#[tactic(auto, using(crate::proofs::Tails::words_tail))]
fn put_words(text: &mut Vec<u8>, first: &str, rest: &[&str]) -> Result<(), AllocError>
    ensures { OnOk result (text.new.items ≡ text.old.items ++ words (first.now ∷ map (λ w. w.now) rest.now)) }
{
    text.extend_from_slice(first.as_bytes())?;
    put_rest(text, rest)
}

/// Appends these words, each behind a space, and the newline.
fn put_rest(text: &mut Vec<u8>, rest: &[&str]) -> Result<(), AllocError>
    ensures { OnOk result (text.new.items ≡ text.old.items ++ tail rest.now) }
{
    for word in rest {
        text.extend_from_slice(b" ")?;
        text.extend_from_slice(word.as_bytes())?;
    }
    text.extend_from_slice(b"\n")
}
