//! The run of a made source, told in a line.

ghost use Rattle.std.specs.Prelude.{◌≡◌, ◌≤◌, pos, length, count_by};
ghost use Rattle.hc_limits.specs.Limits.{most_pairs};
ghost use Rattle.hc_rational.specs.Rational.{whole};
ghost use Rattle.hc_term.specs.Canonical.{canonical};
ghost use Rattle.hc_cmd.specs.Made as spec;
ghost use Rattle.hc_cmd.specs.Prepared.{AtOpening};

use crate::simulation::Simulation;
use arrayvec::ArrayString;
use hc_frac::Frac;
use hc_term::{Item, Step, Stop};
use hc_words::{Made, Settings};
use itoa::Buffer;

/// The horizon of a made source, in time units.
const HORIZON: i64 = 30_000;

/// The number of steps to which its run is limited.
const LIMIT: u32 = 1_000_000;

fn made_horizon() -> Frac
    ensures { result ≡ whole (pos 30000) }
{
    match Frac::new(HORIZON, 1) {
        Some(horizon) => horizon,
        None => unreachable!(),
    }
}

/// The settings with which a made source is simulated.
pub(crate) fn made_settings() -> Settings
    ensures seed { result.seed ≡ 0 }
    ensures horizon { result.horizon ≡ whole (pos 30000) }
    ensures limit { result.limit ≡ 1000000 }
{
    Settings {
        seed: 0,
        horizon: made_horizon(),
        limit: LIMIT,
    }
}

/// Runs the simulation of a made source to its stop, and tells how large the run is. It takes no memory.
pub(crate) fn run_line(made: Made, simulation: Simulation) -> ArrayString<128>
    requires { AtOpening simulation }
    ensures { result.bytes ≡ spec.line_of made.pairs (canonical simulation.joint.task).items (canonical simulation.joint.task).stop }
{
    let mut joint = simulation.joint;
    joint.finish();
    let Some(stop) = joint.stop() else {
        unreachable!()
    };
    line_of(made.pairs, joint.history(), stop)
}

/// The line of so many pairs of processes, with these steps and this stop.
fn line_of(pairs: u32, items: &[Item], stop: Stop) -> ArrayString<128>
    requires { pairs ≤ most_pairs }
    ensures { result.bytes ≡ spec.line_of pairs items.now stop }
{
    let mut buffer = Buffer::new();
    let mut line = ArrayString::new();
    line.push_str("made ");
    line.push_str(buffer.format(pairs));
    line.push_str(" processes ");
    line.push_str(buffer.format(2 * pairs));
    line.push_str(" communications ");
    line.push_str(buffer.format(communications(items)));
    line.push_str(" logs ");
    line.push_str(buffer.format(logs(items)));
    line.push_str(" end ");
    line.push_str(word_of(stop));
    line.push('\n');
    line
}

fn is_communication(step: &Step) -> bool
    ensures { result ≡ spec.is_communication step.now }
{
    match step {
        Step::Comm { .. } => true,
        _ => false,
    }
}

fn is_log(step: &Step) -> bool
    ensures { result ≡ spec.is_log step.now }
{
    match step {
        Step::Silent {
            logged: Some(_),
            ..
        } => true,
        _ => false,
    }
}

fn communications(items: &[Item]) -> usize
    ensures { result ≡ spec.communications items.now }
{
    items
        .iter()
        .filter(|item| is_communication(&item.step))
        .count()
}

fn logs(items: &[Item]) -> usize
    ensures { result ≡ spec.logs items.now }
{
    items.iter().filter(|item| is_log(&item.step)).count()
}

/// The word of a stop.
fn word_of(stop: Stop) -> &'static str
    ensures word { result.now ≡ spec.word_of stop }
    ensures short { length result.now ≤ 10 }
{
    match stop {
        Stop::Terminated => "terminated",
        Stop::Deadlock => "deadlock",
        Stop::Horizon => "horizon",
        Stop::Limit => "limit",
        Stop::Overflow { .. } => "overflow",
    }
}
