//! What the words ask for.

ghost use Rattle.std.specs.Prelude.{◌≡◌, pos, None, map, IfOk, IfSome, IsErrOf, option_map};
ghost use Rattle.std.specs.String.{string_bytes};
ghost use Rattle.hc_limits.specs.Limits.{default_horizon};
ghost use Rattle.hc_rational.specs.Rational.{whole};
ghost use Rattle.hc_rational.specs.Words.{Rational};
ghost use Rattle.hc_words.specs.Requests as spec;
ghost use Rattle.hc_words.specs.Seen.{seen, IsRequested};
ghost use Rattle.hc_words.specs.declared.requests.Request as asked;
ghost use Rattle.hc_words.specs.declared.settings.ExecutionRequest as execute;
ghost use Rattle.hc_words.specs.declared.settings.Made as make;
ghost use Rattle.hc_words.specs.declared.settings.Settings as set;

use crate::actions::{Action, action_named, belongs};
use crate::line::{Given, read_words};
use crate::numbers::{number_within, positive_fraction};
use crate::settings::{ExecutionRequest, Made, Settings};
use hc_frac::Frac;
use hc_limits::{
    DEFAULT_HORIZON, DEFAULT_MACHINE_STEPS, DEFAULT_STEPS, MOST_MACHINE_STEPS, MOST_PAIRS,
    MOST_STEPS,
};
use std::alloc::Global;

/// What the words ask for.
#[derive(Clone, Copy, Debug, PartialEq, Eq)]
pub enum Request {
    /// To check the source that is read, and tell its size.
    Check,
    /// To write the canonical spelling of the source that is read.
    Print,
    /// To simulate the source that is read.
    Simulate(Settings),
    /// To simulate the source that is read, and tell what is handed over on each channel.
    Channels(Settings),
    /// To write the trace behind the source that is read as one of the last version.
    Convert,
    /// To tell whether the trace behind the source that is read is one of a behaviour.
    Verify(Settings),
    /// To make a source, simulate it, and tell the size of its run.
    Make(Made),
    /// To execute the C text that is read on the thread machine.
    Cexec(ExecutionRequest),
}

/// Why the words ask for nothing.
#[derive(Clone, Copy, Debug, PartialEq, Eq)]
pub enum WordsStop {
    /// They aren't the words of any request.
    Usage,
    /// Memory ran out.
    Memory,
}

/// What these words ask for, of which the first is the program's name.
pub fn asked_for(alloc: Global, words: &Vec<String>) -> Result<Request, WordsStop>
    ensures asked { IfOk result (spec.Ask (map string_bytes words.now.items)) }
    ensures usage { IsErrOf result WordsStop.Usage → (r : asked.Request) → spec.Ask (map string_bytes words.now.items) r → ⊥ }
{
    let given = read_words(alloc, words)?;
    match words.as_slice() {
        [_, name, ..] => requested(name.as_str(), &given).ok_or(WordsStop::Usage),
        _ => Err(WordsStop::Usage),
    }
}

/// What the action of this name asks for, with what stands behind it.
fn requested(name: &str, given: &Given<'_>) -> Option<Request>
    ensures some { IfSome result (IsRequested name.now (seen given.now)) }
    ensures none { result ≡ None → (r : asked.Request) → IsRequested name.now (seen given.now) r → ⊥ }
{
    let action = action_named(name)?;
    if !belongs(action, given) {
        return None;
    }
    request_by(action, given)
}

/// What an action asks for, by the values that stand behind it.
fn request_by(action: Action, given: &Given<'_>) -> Option<Request>
    ensures some { IfSome result (spec.Asks action (seen given.now)) }
    ensures none { result ≡ None → (r : asked.Request) → spec.Asks action (seen given.now) r → ⊥ }
{
    match action {
        Action::Check => Some(Request::Check),
        Action::Print => Some(Request::Print),
        Action::Simulate => {
            let settings = settings_of(given)?;
            Some(Request::Simulate(settings))
        }
        Action::Channels => {
            let settings = settings_of(given)?;
            Some(Request::Channels(settings))
        }
        Action::Convert => Some(Request::Convert),
        Action::Verify => {
            let settings = settings_of(given)?;
            Some(Request::Verify(settings))
        }
        Action::Make => {
            let made = made_of(given)?;
            Some(Request::Make(made))
        }
        Action::Cexec => {
            let execution = execution_of(given)?;
            Some(Request::Cexec(execution))
        }
    }
}

/// The settings that are given, each where it isn't its own default.
pub(crate) fn settings_of(given: &Given<'_>) -> Option<Settings>
    ensures some { IfSome result (spec.AreSettings (seen given.now)) }
    ensures none { result ≡ None → (s : set.Settings) → spec.AreSettings (seen given.now) s → ⊥ }
{
    let seed = seed_of(given.seed)?;
    let horizon = horizon_of(given.horizon)?;
    let limit = limit_of(given.limit)?;
    Some(Settings {
        seed,
        horizon,
        limit,
    })
}

/// The made source that is given: N pairs, and the seed where it isn't 0.
fn made_of(given: &Given<'_>) -> Option<Made>
    ensures some { IfSome result (spec.IsMade (seen given.now)) }
    ensures none { result ≡ None → (m : make.Made) → spec.IsMade (seen given.now) m → ⊥ }
{
    let pairs = pairs_of(given.number)?;
    let seed = seed_of(given.seed)?;
    Some(Made { pairs, seed })
}

/// The execution that is given: the seed where it isn't 0, the steps where they aren't their default, and the flag.
fn execution_of(given: &Given<'_>) -> Option<ExecutionRequest>
    ensures some { IfSome result (spec.IsExecution (seen given.now)) }
    ensures none { result ≡ None → (e : execute.ExecutionRequest) → spec.IsExecution (seen given.now) e → ⊥ }
{
    let seed = seed_of(given.seed)?;
    let steps = machine_steps_of(given.steps)?;
    Some(ExecutionRequest {
        seed,
        steps,
        report: given.report,
    })
}

fn machine_steps_of(text: Option<&str>) -> Option<u32>
    ensures { result ≡ spec.machine_steps_in (option_map (λ s. s.now) text.entry) }
{
    match text {
        Some(text) => match number_within(1, MOST_MACHINE_STEPS as u64, text) {
            Some(steps) => Some(steps as u32),
            None => None,
        },
        None => Some(DEFAULT_MACHINE_STEPS),
    }
}

fn pairs_of(text: Option<&str>) -> Option<u32>
    ensures { result ≡ spec.pairs_in (option_map (λ s. s.now) text.entry) }
{
    match text {
        Some(text) => match number_within(1, MOST_PAIRS as u64, text) {
            Some(pairs) => Some(pairs as u32),
            None => None,
        },
        None => None,
    }
}

fn seed_of(text: Option<&str>) -> Option<u64>
    ensures { result ≡ spec.seed_in (option_map (λ s. s.now) text.entry) }
{
    match text {
        Some(text) => number_within(0, u64::MAX, text),
        None => Some(0),
    }
}

fn limit_of(text: Option<&str>) -> Option<u32>
    ensures { result ≡ spec.limit_in (option_map (λ s. s.now) text.entry) }
{
    match text {
        Some(text) => match number_within(1, MOST_STEPS, text) {
            Some(limit) => Some(limit as u32),
            None => None,
        },
        None => Some(DEFAULT_STEPS),
    }
}

/// The horizon where the words give none.
fn default_horizon() -> Frac
    ensures { result ≡ whole (pos default_horizon) }
{
    match Frac::new(DEFAULT_HORIZON, 1) {
        Some(horizon) => horizon,
        None => unreachable!(),
    }
}

fn horizon_of(text: Option<&str>) -> Option<Frac>
    ensures some { IfSome result (spec.IsHorizon (option_map (λ s. s.now) text.entry)) }
    ensures none { result ≡ None → (q : Rational) → spec.IsHorizon (option_map (λ s. s.now) text.entry) q → ⊥ }
{
    match text {
        Some(text) => positive_fraction(text),
        None => Some(default_horizon()),
    }
}
