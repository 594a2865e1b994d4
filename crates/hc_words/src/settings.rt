//! What requests set.

ghost use Rattle.std.specs.Prelude.{◌≤◌, IsTrue};
ghost use Rattle.hc_limits.specs.Limits.{most_machine_steps, most_pairs, most_steps, most_workers};
ghost use Rattle.hc_rational.specs.Words.{is_positive};

use hc_frac::Frac;

/// The settings of a simulation.
#[derive(Clone, Copy, Debug, PartialEq, Eq)]
pub struct Settings {
    /// Its bits decide the internal choices.
    pub seed: u64,
    /// In time units, positive.
    pub horizon: Frac,
    /// The number of steps to which the run is limited, at least 1.
    pub limit: u32,
    pub ghost positive: { IsTrue (is_positive horizon) },
    pub ghost in_range: { (1 ≤ limit) × (limit ≤ most_steps) },
}

/// A made source.
#[derive(Clone, Copy, Debug, PartialEq, Eq)]
pub struct Made {
    /// The number of its pairs of processes, 1 to 32.
    pub pairs: u32,
    /// It draws what varies in the source.
    pub seed: u64,
    pub ghost in_range: { (1 ≤ pairs) × (pairs ≤ most_pairs) },
}

/// An execution on the thread machine.
#[derive(Clone, Copy, Debug, PartialEq, Eq)]
pub struct ExecutionRequest {
    /// It draws the schedule.
    pub seed: u64,
    /// The machine steps to which the execution is limited, 1 to 10,000,000.
    pub steps: u32,
    /// Whether the number of moves is told.
    pub report: bool,
    pub ghost in_range: { (1 ≤ steps) × (steps ≤ most_machine_steps) },
}

/// A run on threads.
#[derive(Clone, Copy, Debug, PartialEq, Eq)]
pub struct RunRequest {
    pub settings: Settings,
    /// The threads among which the processes are shared, 1 to 64; more than there are processes count as that many.
    pub workers: u32,
    /// Whether the numbers of turns are told.
    pub report: bool,
    /// Whether what is handed over on each channel is told in the place of the trace.
    pub channels: bool,
    pub ghost few: { (1 ≤ workers) × (workers ≤ most_workers) },
}
