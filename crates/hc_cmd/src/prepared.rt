//! What a call writes on output: all that wants memory first, then the writing.

ghost use Rattle.std.specs.Prelude.{◌≡◌, ◌≤◌, length, map, MatchResult, vec_len};
ghost use Rattle.std.specs.String.{string_bytes};
ghost use Rattle.hc_limits.specs.Limits.{most_source_bytes};
ghost use Rattle.hc_make.specs.Made.{made_text};
ghost use Rattle.hc_words.specs.declared.requests.Request.TheVariants as asked;
ghost use Rattle.hc_cmd.specs.Sources.{done, OfSource};
ghost use Rattle.hc_cmd.specs.Answers.{Answers, answering, SumsUp};
ghost use Rattle.hc_cmd.specs.Answers as spec;
ghost use Rattle.hc_cmd.specs.Prepared.{reply_to, GivesNone, IsReady, IsTextOf, Performs, Prepares, Readies};

use crate::accepting::{accepted, size_line, tree_of};
use crate::ending::{End, Text};
use crate::executing::{Execution, prepare_execution};
use crate::making::{made_settings, run_line};
use crate::refusal::Refusal;
use crate::running::Run;
use crate::simulation::Simulation;
use crate::tracing::{prepare_conversion, prepare_verdict};
use arrayvec::ArrayString;
use hc_limits::{MOST_SOURCE_BYTES, MOST_TEXT_BYTES};
use hc_make::made_source;
use hc_print::print;
use hc_words::{Made, Request, Settings, WordsStop, asked_for};
use hc_world::{Failed, ReadStop, Sink, Source, put, read_all};
use std::alloc::Global;

/// What is ready to be written, with all its memory.
#[derive(Drop)]
pub enum Prepared {
    Simulation(Simulation),
    /// A line that tells of a source.
    Line(ArrayString<128>),
    /// A text that is known before it's written.
    Text(Text),
    /// A run on threads that is over.
    Run(Run),
    Execution(Execution),
}

/// What is asked for of a text, or why there is nothing to write.
fn prepare_text(alloc: Global, request: Request, text: &[u8]) -> Result<Prepared, Refusal>
    requires { length text.now ≤ spec.most_bytes_of request }
    ensures { Prepares (Answers request text.now) result }
{
    match request {
        Request::Check => prepare_size(alloc, text),
        Request::Print => prepare_spelling(alloc, text),
        Request::Simulate(settings) => prepare_simulation(alloc, settings, text),
        Request::Channels(settings) => prepare_listing(alloc, settings, text),
        Request::Convert => prepare_conversion(alloc, text),
        Request::Verify(settings) => prepare_verdict(alloc, settings, text),
        Request::Make(made) => prepare_made(alloc, made),
        Request::Cexec(asked) => prepare_execution(alloc, asked, text),
    }
}

fn prepare_size(alloc: Global, text: &[u8]) -> Result<Prepared, Refusal>
    requires { length text.now ≤ most_source_bytes }
    ensures { Prepares (Answers asked.Check text.now) result }
{
    let (flat, system) = accepted(alloc, text)?;
    Ok(Prepared::Line(size_line(&flat, &system)))
}

fn prepare_spelling(alloc: Global, text: &[u8]) -> Result<Prepared, Refusal>
    requires { length text.now ≤ most_source_bytes }
    ensures { Prepares (Answers asked.Print text.now) result }
{
    let tree = tree_of(alloc, text)?;
    let bytes = print(alloc, &tree).map_err(|_| Refusal::Memory)?;
    Ok(Prepared::Text(Text::done(bytes)))
}

fn prepare_simulation(alloc: Global, settings: Settings, text: &[u8]) -> Result<Prepared, Refusal>
    requires { length text.now ≤ most_source_bytes }
    ensures { Prepares (Answers (asked.Simulate settings) text.now) result }
{
    let (_, system) = accepted(alloc, text)?;
    let simulation = Simulation::open(alloc, settings, system).map_err(|_| Refusal::Memory)?;
    Ok(Prepared::Simulation(simulation))
}

fn prepare_listing(alloc: Global, settings: Settings, text: &[u8]) -> Result<Prepared, Refusal>
    requires { length text.now ≤ most_source_bytes }
    ensures { Prepares (Answers (asked.Channels settings) text.now) result }
{
    let (_, system) = accepted(alloc, text)?;
    let simulation = Simulation::open(alloc, settings, system).map_err(|_| Refusal::Memory)?;
    let listing = simulation.list(alloc).map_err(|_| Refusal::Memory)?;
    Ok(Prepared::Text(listing))
}

/// Makes a source, and prepares what is told of it.
fn prepare_made(alloc: Global, made: Made) -> Result<Prepared, Refusal>
    ensures { Prepares (OfSource (λ flat. SumsUp made) (made_text made.pairs made.seed)) result }
{
    let text = made_source(alloc, made.pairs, made.seed).map_err(|_| Refusal::Memory)?;
    prepare_sum(alloc, made, text.as_slice())
}

fn prepare_sum(alloc: Global, made: Made, text: &[u8]) -> Result<Prepared, Refusal>
    requires { length text.now ≤ most_source_bytes }
    ensures { Prepares (OfSource (λ flat. SumsUp made) text.now) result }
{
    let (_, system) = accepted(alloc, text)?;
    let simulation = Simulation::open(alloc, made_settings(), system).map_err(|_| Refusal::Memory)?;
    Ok(Prepared::Line(run_line(made, simulation)))
}

/// Whether the request reads a source.
fn reads_source(request: &Request) -> bool
    ensures { result ≡ spec.reads_source request.now }
{
    match request {
        Request::Make(_) => false,
        Request::Check
        | Request::Print
        | Request::Simulate(_)
        | Request::Channels(_)
        | Request::Convert
        | Request::Verify(_)
        | Request::Cexec(_) => true,
    }
}

/// The most bytes that are read for the request.
fn most_bytes_of(request: &Request) -> usize
    ensures { result ≡ spec.most_bytes_of request.now }
{
    match request {
        Request::Convert | Request::Verify(_) | Request::Cexec(_) => MOST_TEXT_BYTES,
        Request::Check
        | Request::Print
        | Request::Simulate(_)
        | Request::Channels(_)
        | Request::Make(_) => MOST_SOURCE_BYTES,
    }
}

/// Reads the source as the words ask, and prepares what they ask for, or tells why nothing is to be written.
pub(crate) fn prepare<S: Source>(
    alloc: Global,
    words: &Vec<String>,
    source: &mut S,
) -> Result<Prepared, Refusal>
    ensures { Readies answering S.state (map string_bytes words.now.items) source.old source.new result }
{
    let request = match asked_for(alloc, words) {
        Ok(request) => request,
        Err(WordsStop::Usage) => return Err(Refusal::Usage),
        Err(WordsStop::Memory) => return Err(Refusal::Memory),
    };
    if !reads_source(&request) {
        return prepare_text(alloc, request, b"");
    }
    let most = most_bytes_of(&request);
    match text_of(alloc, source, most) {
        Ok(text) => prepare_text(alloc, request, text.as_slice()),
        Err(refusal) => Err(refusal),
    }
}

/// The text of a source, of so many bytes at most, or why there is none.
pub(crate) fn text_of<S: Source>(
    alloc: Global,
    source: &mut S,
    most: usize,
) -> Result<Vec<u8>, Refusal>
    ensures { MatchResult result
        (λ text. IsTextOf S.state source.old source.new text.items × (vec_len text ≤ most))
        (GivesNone S.state most source.old source.new) }
{
    match read_all(alloc, source, most) {
        Ok(text) => Ok(text),
        Err(ReadStop::Failed) => Err(Refusal::Unread),
        Err(ReadStop::TooLong) => Err(Refusal::TooLong(most)),
        Err(ReadStop::Memory) => Err(Refusal::Memory),
    }
}

impl Prepared {
    /// Writes all of it, and tells the status and the line on error. It takes no memory.
    pub(crate) fn perform<O: Sink>(self, out: &mut O) -> Result<End, Failed>
        requires { IsReady self }
        ensures { Performs O.state out.old out.new (reply_to self) result }
    {
        match self {
            Prepared::Simulation(simulation) => simulation.perform(out),
            Prepared::Line(line) => perform_line(line.as_str().as_bytes(), out),
            Prepared::Text(text) => text.perform(out),
            Prepared::Run(run) => run.perform(out),
            Prepared::Execution(execution) => execution.perform(out),
        }
    }
}

/// Writes a line with nothing on error.
fn perform_line<O: Sink>(line: &[u8], out: &mut O) -> Result<End, Failed>
    ensures { Performs O.state out.old out.new (done line.now) result }
{
    put(out, line)?;
    Ok(End::silent(0))
}
