//! What the words ask for where they ask for a run on threads.

ghost use Rattle.std.specs.Prelude.{◌≡◌, None, map, IfOk, IfSome, IsErrOf, option_map};
ghost use Rattle.std.specs.String.{string_bytes};
ghost use Rattle.hc_words.specs.Requests as spec;
ghost use Rattle.hc_words.specs.Seen.{seen, IsRunRequested};
ghost use Rattle.hc_words.specs.declared.settings.RunRequest as asked;

use crate::actions::{RUN, fits};
use crate::line::{Given, read_words};
use crate::numbers::number_within;
use crate::requests::{WordsStop, settings_of};
use crate::settings::RunRequest;
use hc_limits::MOST_WORKERS;
use std::alloc::Global;

/// The run on threads for which these words ask, of which the first is the program's name.
pub fn asked_to_run(alloc: Global, words: &Vec<String>) -> Result<RunRequest, WordsStop>
    ensures asked { IfOk result (spec.AskRun (map string_bytes words.now.items)) }
    ensures usage { IsErrOf result WordsStop.Usage → (r : asked.RunRequest) → spec.AskRun (map string_bytes words.now.items) r → ⊥ }
{
    let given = read_words(alloc, words)?;
    match words.as_slice() {
        [_, name, ..] => run_requested(name.as_str(), &given).ok_or(WordsStop::Usage),
        _ => Err(WordsStop::Usage),
    }
}

/// The run that is asked for under this name, with what stands behind it.
fn run_requested(name: &str, given: &Given<'_>) -> Option<RunRequest>
    ensures some { IfSome result (IsRunRequested name.now (seen given.now)) }
    ensures none { result ≡ None → (r : asked.RunRequest) → IsRunRequested name.now (seen given.now) r → ⊥ }
{
    if name != "run" || !fits(RUN, given) {
        return None;
    }
    run_of(given)
}

/// The run by the values that are given, each where it isn't its own default.
fn run_of(given: &Given<'_>) -> Option<RunRequest>
    ensures some { IfSome result (spec.IsRun (seen given.now)) }
    ensures none { result ≡ None → (r : asked.RunRequest) → spec.IsRun (seen given.now) r → ⊥ }
{
    let settings = settings_of(given)?;
    let workers = workers_of(given.workers)?;
    Some(RunRequest {
        settings,
        workers,
        report: given.report,
        channels: given.channels,
    })
}

fn workers_of(text: Option<&str>) -> Option<u32>
    ensures { result ≡ spec.workers_in (option_map (λ s. s.now) text.entry) }
{
    match text {
        Some(text) => match number_within(1, MOST_WORKERS as u64, text) {
            Some(workers) => Some(workers as u32),
            None => None,
        },
        None => Some(MOST_WORKERS),
    }
}
