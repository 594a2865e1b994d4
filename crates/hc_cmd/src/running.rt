//! A run on threads: made before anything is written, and then told.

ghost use Rattle.std.specs.Prelude.{◌≡◌, ◌≤◌, false, IfOk, IsSome, length, map, MatchResult};
ghost use Rattle.std.specs.String.{string_bytes};
ghost use Rattle.hc_limits.specs.Limits.{most_source_bytes};
ghost use Rattle.hc_cmd.specs.Sources.{OfSource};
ghost use Rattle.hc_cmd.specs.Prepared.{reply_to, IsReady, Prepares, Readies};
ghost use Rattle.hc_cmd.specs.Running.{running, Runs};
ghost use Rattle.hc_cmd.specs.Running as spec;

use crate::accepting::accepted;
use crate::ending::{End, Told};
use crate::listing::listing_of;
use crate::prepared::{Prepared, text_of};
use crate::refusal::Refusal;
use crate::report::report_of;
use crate::simulation::{status_of_stop, task_of};
use hc_joint::Joint;
use hc_limits::MOST_SOURCE_BYTES;
use hc_run::{Gate, Outcome, run};
use hc_sim::write_history;
use hc_term::System;
use hc_words::{RunRequest, WordsStop, asked_to_run};
use hc_world::{Failed, Sink, Source};
use std::alloc::{AllocError, Global};
use std::sync::Wait;
use std::thread::Threads;

/// A run that is over, and what is told of it on error.
#[derive(Drop)]
pub struct Run {
    pub(crate) joint: Joint,
    pub(crate) report: Vec<u8>,
}

impl Run {
    ghost use Rattle.hc_cmd.specs.Prepared.{Performs};
    ghost use Rattle.hc_cmd.specs.Running.{told};

    /// Runs the system as it is asked. It waits for threads.
    fn complete<R: Threads + Wait + Sync, G: Gate + Sync>(
        rt: &R,
        alloc: Global,
        asked: RunRequest,
        system: System,
        gate: &G,
    ) -> Result<Run, AllocError>
        ensures stopped { IfOk result (λ r. IsSome r.joint.stop) }
        ensures runs { IfOk result (λ r. Runs asked system (told asked.channels r.joint r.report.items)) }
    {
        let task = task_of(asked.settings, system);
        let outcome = run(rt, alloc, &task, asked.workers, gate)?;
        let report = report_for(alloc, asked.report, &outcome)?;
        Ok(Run {
            joint: outcome.joint,
            report,
        })
    }

    /// Writes the whole history, and tells the status and the numbers. It takes no memory.
    pub(crate) fn perform<O: Sink>(self, out: &mut O) -> Result<End, Failed>
        requires { IsSome self.joint.stop }
        ensures { Performs O.state out.old out.new (told false self.joint self.report.items) result }
    {
        let Some(stop) = self.joint.stop() else {
            unreachable!()
        };
        write_history(&self.joint, out)?;
        Ok(End {
            status: status_of_stop(stop),
            told: Told::Report(self.report),
        })
    }
}

/// The numbers of an outcome where they are asked for, and else nothing.
fn report_for(alloc: Global, asked: bool, outcome: &Outcome) -> Result<Vec<u8>, AllocError>
    ensures { IfOk result (λ text. text.items ≡
        spec.report_for asked outcome.now.joint.recomputed outcome.now.turns.items outcome.now.own_turns) }
{
    if !asked {
        return Ok(Vec::new(alloc));
    }
    report_of(
        alloc,
        outcome.joint.recomputed(),
        outcome.turns.as_slice(),
        outcome.own_turns,
    )
}

/// What is told of a run that is over: its trace, or where they are asked for what it hands over on the channels.
fn told_of(alloc: Global, channels: bool, over: Run) -> Result<Prepared, Refusal>
    requires { IsSome over.joint.stop }
    ensures { MatchResult result (λ p. IsReady p × (reply_to p ≡ spec.told channels over.joint over.report.items)) (λ r. r ≡ Refusal.Memory) }
{
    if !channels {
        return Ok(Prepared::Run(over));
    }
    let joint = over.joint;
    let on_error = Told::Report(over.report);
    let listing = listing_of(alloc, &joint, on_error).map_err(|_| Refusal::Memory)?;
    Ok(Prepared::Text(listing))
}

/// Runs a text as it is asked, or tells why there is nothing to run.
fn prepare_run_of<R: Threads + Wait + Sync, G: Gate + Sync>(
    rt: &R,
    alloc: Global,
    asked: RunRequest,
    text: &[u8],
    gate: &G,
) -> Result<Prepared, Refusal>
    requires { length text.now ≤ most_source_bytes }
    ensures { Prepares (OfSource (λ flat. Runs asked) text.now) result }
{
    let channels = asked.channels;
    let (_, system) = accepted(alloc, text)?;
    let over = Run::complete(rt, alloc, asked, system, gate).map_err(|_| Refusal::Memory)?;
    told_of(alloc, channels, over)
}

/// Reads the source as the words ask, and makes the run for which they ask, or tells why nothing is to be written.
pub(crate) fn prepare_run<R: Threads + Wait + Sync, S: Source, G: Gate + Sync>(
    rt: &R,
    alloc: Global,
    words: &Vec<String>,
    source: &mut S,
    gate: &G,
) -> Result<Prepared, Refusal>
    ensures { Readies running S.state (map string_bytes words.now.items) source.old source.new result }
{
    let asked = match asked_to_run(alloc, words) {
        Ok(asked) => asked,
        Err(WordsStop::Usage) => return Err(Refusal::Usage),
        Err(WordsStop::Memory) => return Err(Refusal::Memory),
    };
    match text_of(alloc, source, MOST_SOURCE_BYTES) {
        Ok(text) => prepare_run_of(rt, alloc, asked, text.as_slice(), gate),
        Err(refusal) => Err(refusal),
    }
}
